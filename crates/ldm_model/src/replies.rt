//! What the calls of a queue answer. Numbers of products count admitted products from 0.

use crate::numbers::ReserveNo;
use ldm_types::{CursorNo, Info, Micros};

/// What inserting a product led to.
#[derive(Clone, Copy, Debug, PartialEq, Eq)]
pub enum InsertReply {
    /// The product is number `n` and got that insertion time; `evicted` products made room for it.
    Admitted { n: u64, time: Micros, evicted: u64 },
    /// The product's extent is larger than the arena. Both in bytes.
    TooBig { need: u64, arena: u64 },
    /// Queued product `n` has the signature.
    Duplicate { n: u64 },
    /// The last insertion time is the greatest instant.
    TimeEnd,
    /// Evicting every product that no cursor holds would not make room. `held` regions are held: those of the products
    /// that cursors hold, and the reserved ones.
    Locked { held: u64 },
}

/// What opening a cursor led to.
#[derive(Clone, Copy, Debug, PartialEq, Eq)]
pub enum OpenReply {
    /// The cursor has place `k`, the least that was empty.
    Opened { k: CursorNo },
    /// All 64 cursor places are taken.
    AllBusy,
    /// No queued product has the signature that the cursor was to begin behind.
    NotQueued,
}

/// What a step of a cursor led to. The answers are tried in this order.
#[derive(Debug, Drop)]
pub enum StepReply {
    /// The place has no cursor of this actor.
    NoCursor,
    /// The cursor holds product `n`.
    Holding { n: u64 },
    /// `count` products of the cursor's feedtypes, at or past its position, were evicted and were not told until now.
    /// The least of their numbers is `first`, the greatest `last`.
    Gap { count: u64, first: u64, last: u64 },
    /// The first queued product at or past the position whose feedtypes meet the cursor's. The cursor holds it from now
    /// on.
    Product { n: u64, time: Micros, info: Info },
    /// There is no such product. The position is the end now, which is `at`: how many products were admitted.
    End { at: u64 },
}

/// What reading from a held product led to.
#[derive(Clone, Copy, Debug, PartialEq, Eq)]
pub enum ReadReply {
    /// The place has no cursor of this actor.
    NoCursor,
    /// The cursor holds nothing.
    NotHeld,
    /// The offset is above the size of the body, in bytes.
    BadOffset { size: u32 },
    /// So many bytes of the body are at the front of the buffer: as many as it has room for, or as are left.
    Bytes { len: u32 },
}

/// What releasing a held product led to.
#[derive(Clone, Copy, Debug, PartialEq, Eq)]
pub enum ReleaseReply {
    /// The place has no cursor of this actor.
    NoCursor,
    /// The cursor holds nothing.
    NotHeld,
    /// The cursor held product `n`, and does not hold it any more.
    Released { n: u64 },
}

/// What closing a cursor led to.
#[derive(Clone, Copy, Debug, PartialEq, Eq)]
pub enum CloseReply {
    /// The place has no cursor of this actor.
    NoCursor,
    /// The place is empty. If the cursor held a product, it does not any more.
    Closed,
}

/// What counting for a cursor led to.
#[derive(Clone, Copy, Debug, PartialEq, Eq)]
pub enum TallyReply {
    /// The place has no cursor of this actor.
    NoCursor,
    /// How many products the cursor was given, how many it lost, told or not, and how many queued ones at or past its
    /// position have feedtypes that meet its own.
    Tally { given: u64, lost: u64, left: u64 },
}

/// What looking for a product led to.
#[derive(Clone, Copy, Debug, PartialEq, Eq)]
pub enum LookReply {
    /// Queued product `n` has the signature, and was inserted at that time.
    Queued { n: u64, time: Micros },
    /// No queued product has the signature.
    Absent,
}

/// What evicting the oldest product led to.
#[derive(Clone, Copy, Debug, PartialEq, Eq)]
pub enum ExpireReply {
    /// Product `n` was the oldest that no cursor held, and was evicted.
    Expired { n: u64 },
    /// No product is queued that no cursor holds.
    Nothing,
}

/// What reserving a region led to. The answers are tried in this order.
#[derive(Clone, Copy, Debug, PartialEq, Eq)]
pub enum ReserveReply {
    /// The product's extent is larger than the arena. Both in bytes.
    TooBig { need: u64, arena: u64 },
    /// Queued product `n` has the signature.
    Duplicate { n: u64 },
    /// All 64 reservation places are taken.
    AllReserved,
    /// Evicting every product that no cursor holds would not make room. `held` regions are held: those of the products
    /// that cursors hold, and the reserved ones.
    Locked { held: u64 },
    /// The reservation has place `r`, the least that was empty; `evicted` products made room for it.
    Reserved { r: ReserveNo, evicted: u64 },
}

/// What filling bytes into a reserved region led to. The answers are tried in this order.
#[derive(Clone, Copy, Debug, PartialEq, Eq)]
pub enum FillReply {
    /// The place has no reservation of this actor.
    NoReservation,
    /// More bytes were given than are left of the body, which are `left`. None was filled in.
    Overfill { left: u32 },
    /// The bytes were filled in. So many of the body are left.
    Filled { left: u32 },
}

/// What committing a reservation led to. The answers are tried in this order.
#[derive(Clone, Copy, Debug, PartialEq, Eq)]
pub enum CommitReply {
    /// The place has no reservation of this actor.
    NoReservation,
    /// The body is not whole: `left` bytes of it are left. The reservation stays.
    Unfilled { left: u32 },
    /// Queued product `n` has the signature. The reservation has ended.
    Duplicate { n: u64 },
    /// The last insertion time is the greatest instant. The reservation has ended.
    TimeEnd,
    /// The product is number `n` and got that insertion time. It lies where it was filled in.
    Committed { n: u64, time: Micros },
}

/// What giving a reservation up led to.
#[derive(Clone, Copy, Debug, PartialEq, Eq)]
pub enum DiscardReply {
    /// The place has no reservation of this actor.
    NoReservation,
    /// The place is empty, and the region is free.
    Discarded,
}
