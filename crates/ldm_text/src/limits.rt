//! Limits.

/// How many bytes a configuration file has at most.
pub const LONGEST_CONFIGURATION: usize = 1_048_576;
