//! How much is kept.

/// How many files are open. Before one more is opened, the one that was used longest ago is shut.
pub const MOST_OPEN: usize = 32;

/// How many programs run under PIPE. Before one more is started, the one that was written longest ago has its input
/// shut and is waited for.
pub const MOST_PIPED: usize = 32;
