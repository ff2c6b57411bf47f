//! How full a queue is.

/// How full a queue is.
#[derive(Clone, Copy, Debug, PartialEq, Eq)]
pub struct Stat {
    /// How many products were admitted.
    pub admitted: u64,
    /// How many of them are queued.
    pub queued: u64,
    /// How many regions are held: those of the queued products that cursors hold, and the reserved ones.
    pub held: u64,
    /// The sum of the extents of the queued products and of the open reservations, in bytes.
    pub used: u64,
    /// The extent of the longest gap, in bytes, 0 where there is none.
    pub largest_free: u64,
}
