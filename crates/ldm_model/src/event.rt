//! Events of the queue, the replies to them, and the entries of a history.

use crate::bytes::Bytes;
use crate::numbers::ReserveNo;
use crate::stat::Stat;
use ldm_types::{Actor, CursorNo, Feed, Info, Micros, Signature};

/// Where a cursor begins.
#[derive(Clone, Copy, Debug)]
pub enum Start {
    /// At the first queued product, or at the end.
    Oldest,
    /// At the end.
    Next,
    /// At the first queued product with a later insertion time, or at the end.
    After(Micros),
    /// Behind the queued product of that signature.
    AfterSignature(Signature),
}

/// A call of the queue.
#[derive(Drop)]
pub enum Event {
    /// A product is inserted at the moment `now`.
    Insert {
        now: Micros,
        info: Info,
        body: Bytes,
    },
    /// A cursor is opened for these feedtypes.
    OpenCursor {
        feed: Feed,
        start: Start,
    },
    /// A cursor goes on to the next product of its feedtypes.
    Step {
        k: CursorNo,
    },
    /// At most `len` bytes of the body that a cursor holds are read, from `offset` on.
    Read {
        k: CursorNo,
        offset: u32,
        len: u32,
    },
    /// A cursor lets the product go that it holds.
    Release {
        k: CursorNo,
    },
    /// A cursor is closed.
    Close {
        k: CursorNo,
    },
    /// A product is looked for by its signature.
    Look {
        signature: Signature,
    },
    /// The oldest product that no cursor holds is evicted.
    Expire,
    /// What a cursor was given, what it lost, and what is left for it, is counted.
    Tally {
        k: CursorNo,
    },
    /// How full the queue is.
    Stat,
    /// A region is reserved for a product with these metadata.
    Reserve {
        info: Info,
    },
    /// More bytes of the body are filled into a reserved region, behind those that it has.
    Fill {
        r: ReserveNo,
        bytes: Bytes,
    },
    /// A reservation whose body is whole becomes a product, at the moment `now`.
    Commit {
        r: ReserveNo,
        now: Micros,
    },
    /// A reservation is given up.
    Discard {
        r: ReserveNo,
    },
}

/// What the queue answers. Numbers of products count admitted products from 0.
#[derive(Drop)]
pub enum Reply {
    /// The product is number `n` and got that insertion time; `evicted` products made room for it.
    Admitted { n: u64, time: Micros, evicted: u64 },
    /// The product's extent is larger than the arena. Both in bytes.
    TooBig { need: u64, arena: u64 },
    /// Queued product `n` has the signature.
    Duplicate { n: u64 },
    /// The last insertion time is the greatest instant.
    TimeEnd,
    /// Evicting every product that no cursor holds would not make room. `held` regions are held: those of the products
    /// that cursors hold, and the reserved ones.
    Locked { held: u64 },
    /// The cursor has place `k`.
    Opened { k: CursorNo },
    /// All 64 cursor places are taken.
    AllBusy,
    /// No queued product has the signature that the cursor was to begin behind.
    NotQueued,
    /// The cursor is given product `n`, which was inserted at that time, and holds it.
    Product { n: u64, time: Micros, info: Info },
    /// `count` products of the cursor's feedtypes were evicted before they were given to it, and it was not told yet:
    /// the least of their numbers and the greatest.
    Gap { count: u64, first: u64, last: u64 },
    /// No product of the cursor's feedtypes is left. `at` is the number that the next admitted product will have.
    End { at: u64 },
    /// The place has no cursor of this actor.
    NoCursor,
    /// The cursor holds product `n`, so it is given no other one.
    Holding { n: u64 },
    /// The bytes that were read.
    Bytes { bytes: Bytes },
    /// The cursor holds nothing.
    NotHeld,
    /// The offset lies behind the body, which has `size` bytes.
    BadOffset { size: u32 },
    /// The cursor let product `n` go.
    Released { n: u64 },
    /// The cursor is closed.
    Closed,
    /// Queued product `n` has the signature, and was inserted at that time.
    Queued { n: u64, time: Micros },
    /// No queued product has the signature.
    Absent,
    /// Product `n` was evicted.
    Expired { n: u64 },
    /// No product is queued that no cursor holds.
    Nothing,
    /// How many products the cursor was given, how many it lost, told or not, and how many queued ones are left for it.
    Tally { given: u64, lost: u64, left: u64 },
    /// How full the queue is.
    Stat(Stat),
    /// The reservation has place `r`; `evicted` products made room for it.
    Reserved { r: ReserveNo, evicted: u64 },
    /// All 64 reservation places are taken.
    AllReserved,
    /// The place has no reservation of this actor.
    NoReservation,
    /// The bytes were filled in. So many of the body are left.
    Filled { left: u32 },
    /// More bytes were given than are left of the body. So many are left.
    Overfill { left: u32 },
    /// The body is not whole. So many bytes are left.
    Unfilled { left: u32 },
    /// The product is number `n` and got that insertion time.
    Committed { n: u64, time: Micros },
    /// The reservation is given up.
    Discarded,
}

/// One call of a history: who called, what was called, and what was answered.
#[derive(Drop)]
pub struct Entry {
    pub actor: Actor,
    pub event: Event,
    pub reply: Reply,
}
