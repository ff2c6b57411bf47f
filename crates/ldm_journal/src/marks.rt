//! Where the records of a journal stand.

use crate::places::NOTE;

/// Where the records of a journal stand.
#[derive(Clone, Copy, Debug)]
pub struct Marks {
    /// Bytes of the ring.
    pub(crate) ring: u64,
    /// Whether the second head counts.
    pub(crate) odd: bool,
    /// Where in the ring the oldest committed record begins.
    pub(crate) front: u64,
    /// Bytes of the committed records.
    pub(crate) used: u64,
    /// Bytes of the records that were appended since.
    pub(crate) appended: u64,
    /// The least number that the next product may have.
    pub(crate) next: u64,
    /// The note that is committed with them.
    pub(crate) note: [u8; NOTE],
}
