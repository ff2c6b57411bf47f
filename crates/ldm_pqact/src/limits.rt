//! How much is read at once, and what is read.

/// The most bytes of a body that are read from the queue and handed on at once.
pub const LARGEST_PIECE: usize = 65_536;

/// Every feedtype, one bit each.
pub const EVERY_FEEDTYPE: u32 = u32::MAX;

// The most bytes of an ident that a reason tells, so that there is room for a path and for what the system said.
pub(crate) const LONGEST_SHOWN: usize = 60;
