//! How much is read at once.

/// The most bytes of a body that are read from the queue and written at once.
pub const LARGEST_PIECE: usize = 16_384;
