//! Limits.

/// The most bytes of a file that is sent.
pub const LARGEST_FILE: u64 = 1_073_741_824;
