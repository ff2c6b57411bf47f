//! Limits.

/// How many INCLUDE lines lead to a file at most.
pub const DEEPEST_INCLUDE: u32 = 8;

/// How many files are read at most, the first among them.
pub const MOST_FILES: u32 = 1_024;

/// How many bytes the host has at most that a node is to ask.
pub const LONGEST_HOST_NAME: usize = 255;

/// The port of a node where none is named.
pub const DEFAULT_PORT: u16 = 388;

/// The size of the largest product that a REQUEST line asks for whole, in one message, where it says PRIMARY.
pub const PRIMARY_MAX_HEREIS: u32 = 1_048_576;

/// The size of the largest product that a REQUEST line asks for whole, in one message, where it says ALTERNATE, or
/// nothing.
pub const ALTERNATE_MAX_HEREIS: u32 = 16_384;

// How many words stand behind a keyword at most.
pub(crate) const MOST_WORDS: usize = 4;
