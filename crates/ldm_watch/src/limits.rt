//! Limits.

/// The most bytes that are received at once.
pub const LONGEST_PIECE: usize = 65_536;
