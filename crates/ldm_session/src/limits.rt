//! Limits.

/// The most bytes that are taken of a stream.
pub const LONGEST_STREAM: u64 = 281_474_976_710_656;
