//! What is told of a queue's products one by one: what it is restored from, and what stands in its arena.

use ldm_types::{Info, Micros};

/// What is noted of a queued product: its number, its insertion time, and where its metadata begin in the arena. The
/// rest stands in the arena.
#[derive(Clone, Copy, Debug, PartialEq, Eq)]
pub struct RowNote {
    pub n: u64,
    pub time: Micros,
    pub place: u64,
}

/// A queued product: what is noted of it, its metadata, and its body in the arena.
#[derive(Drop)]
pub struct Stored<'a> {
    pub note: RowNote,
    pub info: Info,
    pub body: &'a [u8],
}
