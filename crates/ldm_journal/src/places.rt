//! Where the parts of the file of a journal stand. The byte that selects, each head and the ring are in blocks of
//! 4,096 bytes of their own.

/// The byte that tells which head counts.
pub const SELECT: u64 = 24;

/// The head that counts where that byte is even.
pub const HEAD_A: u64 = 4096;

/// The head that counts where that byte is odd.
pub const HEAD_B: u64 = 8192;

/// The ring of records.
pub const RING: u64 = 12288;

/// Bytes of a note.
pub const NOTE: usize = 1536;

/// The most bytes of a ring.
pub const LARGEST_RING: u64 = 1_099_511_627_776;
