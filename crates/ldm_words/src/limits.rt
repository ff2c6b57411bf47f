//! Limits.

/// How many classes the words of a chain have at most: one for each node behind the first.
pub const MOST_CLASSES: usize = 7;

/// How many hours statistics go back at most: a year.
pub const MOST_HOURS: u32 = 8_760;
