//! A thread that draws its calls, and compares what it can know of their replies.
ghost use Rattle.std.specs.Prelude.{◌≡◌, ◌<◌, IfSome};
ghost use Rattle.ldm_shared.specs.Passes.{IsPassOf, IsSamePass};

use super::told::Told;
use ldm_model::{
    CloseReply, CommitReply, DiscardReply, ExpireReply, FillReply, InsertReply, LookReply,
    OpenReply, ReadReply, ReleaseReply, ReserveNo, ReserveReply, Start, Stat, StepReply,
    TallyReply,
};
use ldm_shared::{Pass, Shared, Turn};
use ldm_types::{CursorNo, Feed, Info, Micros, Signature};
use std::alloc::Global;
use std::sync::Wait;

// There are so many products. Each byte of the signature and of the body of one is its number.
const PRODUCTS: u8 = 96;

// So many threads may have a reservation, one each.
const RESERVERS: u64 = 8;

// The cursor of a thread. It was given so many products, and told of so many losses; the next product has that number
// or a higher one.
#[derive(Clone, Copy)]
struct Reader {
    feed: Feed,
    given: u64,
    lost: u64,
    next: u64,
}

// The product that the cursor of a thread holds.
#[derive(Clone, Copy)]
struct Held {
    n: u64,
    byte: u8,
}

/// A thread that calls a queue.
#[derive(Drop)]
pub struct Worker {
    alloc: Global,
    largest: u32,
    draws: u64,
    moment: Micros,
    // The least number of products that were admitted.
    admitted: u64,
    // Where the last cursor was opened.
    place: CursorNo,
    reader: Option<Reader>,
    held: Option<Held>,
    told: Told,
}

impl Worker {
    /// A thread whose draws are those of a seed, and whose bodies have at most so many bytes.
    pub fn new(alloc: Global, seed: u64, largest: u32) -> Option<Worker> {
        let moment = Micros::new(0)?;
        let place = CursorNo::new(0)?;
        Some(Worker {
            alloc,
            largest,
            draws: seed,
            moment,
            admitted: 0,
            place,
            reader: None,
            held: None,
            told: Told::new(alloc),
        })
    }

    pub fn into_told(self) -> Told {
        let Worker { told, .. } = self;
        told
    }

    // The next number of a linear congruential generator, below a limit.
    fn below(&mut self, limit: u64) -> u64
        requires { 0 < limit }
        ensures { result < limit }
    {
        self.draws = self
            .draws
            .wrapping_mul(6_364_136_223_846_793_005)
            .wrapping_add(1_442_695_040_888_963_407);
        (self.draws >> 33) % limit
    }

    fn byte(&mut self) -> u8 {
        self.below(u64::from(PRODUCTS)) as u8
    }

    /// Makes one of the calls, or those that belong to one reservation.
    pub fn call<H: Wait>(&mut self, rt: &H, shared: &Shared, pass: &mut Pass)
        requires { IsPassOf shared.now pass.old }
        ensures { IsSamePass pass.old pass.new }
    {
        let drawn = self.below(23);
        match drawn {
            0..=5 => self.insert(rt, shared, pass),
            6..=10 => self.follow(rt, shared, pass),
            11..=12 => self.release(rt, shared, pass),
            13..=14 => self.read(rt, shared, pass),
            15..=18 => self.ask(rt, shared, pass, drawn),
            19..=21 => self.reserve(rt, shared, pass),
            _ => self.close(rt, shared, pass),
        }
    }

    // Makes one of the calls that only tell something, or evicts a product.
    fn ask<H: Wait>(&mut self, rt: &H, shared: &Shared, pass: &mut Pass, drawn: u64)
        requires { IsPassOf shared.now pass.old }
        ensures { IsSamePass pass.old pass.new }
    {
        match drawn {
            15 => {
                let turn = shared.tally(rt, pass, self.place);
                self.tallied(turn);
            }
            16 => {
                let byte = self.byte();
                let turn = shared.look(rt, pass, &Signature([byte; 16]));
                self.looked(byte, turn);
            }
            17 => {
                let turn = shared.expire(rt, pass);
                self.expired(turn);
            }
            _ => {
                let turn = shared.stat(rt, pass);
                self.counted(shared.arena(), turn);
            }
        }
    }

    fn tallied(&mut self, turn: Turn<TallyReply>) {
        let is_right = match (self.reader, turn) {
            (None, Turn::Done(TallyReply::NoCursor)) => true,
            (Some(reader), Turn::Done(TallyReply::Tally { given, lost, .. })) => {
                given == reader.given && lost >= reader.lost
            }
            _ => false,
        };
        self.told.expect(is_right);
    }

    fn looked(&mut self, byte: u8, turn: Turn<LookReply>) {
        let Turn::Done(reply) = turn else {
            return self.told.expect(false);
        };
        match reply {
            LookReply::Queued { n, time } => self.told.name(n, byte, Some(time)),
            LookReply::Absent => {}
        }
    }

    fn expired(&mut self, turn: Turn<ExpireReply>) {
        match turn {
            Turn::Done(ExpireReply::Expired { .. }) => self.told.lose(1),
            Turn::Done(ExpireReply::Nothing) => {}
            Turn::Worn { .. } => self.told.expect(false),
        }
    }

    fn counted(&mut self, arena: u64, turn: Turn<Stat>) {
        let Turn::Done(stat) = turn else {
            return self.told.expect(false);
        };
        self.told.expect(stat.admitted >= self.admitted);
        self.told
            .expect(stat.held <= stat.queued.saturating_add(RESERVERS));
        self.told
            .expect(stat.used.saturating_add(stat.largest_free) <= arena);
        self.admitted = stat.admitted;
    }

    // The moment of the next insertion, a few microseconds after the last.
    fn now(&mut self) -> Micros {
        let moment = self.moment.get().saturating_add(self.below(20));
        self.moment = Micros::new(moment).unwrap_or(self.moment);
        self.moment
    }

    fn insert<H: Wait>(&mut self, rt: &H, shared: &Shared, pass: &mut Pass)
        requires { IsPassOf shared.now pass.old }
        ensures { IsSamePass pass.old pass.new }
    {
        let byte = self.byte();
        let now = self.now();
        let size = size_of(byte, self.largest);
        let Some(info) = info_of(now, byte, size) else {
            return self.told.expect(false);
        };
        let Ok(body) = vec![in self.alloc; byte; size as usize] else {
            return self.told.expect(false);
        };
        let turn = shared.insert(rt, pass, now, &info, &body);
        self.inserted(byte, now, turn);
    }

    fn inserted(&mut self, byte: u8, now: Micros, turn: Turn<InsertReply>) {
        let Turn::Done(reply) = turn else {
            return self.told.expect(false);
        };
        match reply {
            InsertReply::Admitted { n, time, evicted } => {
                self.told.lose(evicted);
                self.admit(n, byte, now, time);
            }
            InsertReply::Duplicate { n } => self.told.name(n, byte, None),
            InsertReply::Locked { held } => self.told.expect(held > 0),
            _ => self.told.expect(false),
        }
    }

    fn admit(&mut self, n: u64, byte: u8, now: Micros, time: Micros) {
        self.told
            .expect(n >= self.admitted && time.get() >= now.get());
        self.admitted = n.saturating_add(1);
        self.told.admit(n, byte, time);
    }

    // A product for which a region is reserved. Its body is filled in, and the product is committed, or given up.
    fn reserve<H: Wait>(&mut self, rt: &H, shared: &Shared, pass: &mut Pass)
        requires { IsPassOf shared.now pass.old }
        ensures { IsSamePass pass.old pass.new }
    {
        let byte = self.byte();
        let now = self.now();
        let size = size_of(byte, self.largest);
        let Some(info) = info_of(now, byte, size) else {
            return self.told.expect(false);
        };
        let Turn::Done(reply) = shared.reserve(rt, pass, &info) else {
            return self.told.expect(false);
        };
        match reply {
            ReserveReply::Reserved { r, evicted } => {
                self.told.lose(evicted);
                self.fill(rt, shared, pass, r, byte, size);
                self.end_reservation(rt, shared, pass, r, byte, now);
            }
            ReserveReply::Duplicate { n } => self.told.name(n, byte, None),
            ReserveReply::Locked { held } => self.told.expect(held > 0),
            _ => self.told.expect(false),
        }
    }

    // Fills a body into a reserved region, in two pieces.
    fn fill<H: Wait>(
        &mut self,
        rt: &H,
        shared: &Shared,
        pass: &mut Pass,
        r: ReserveNo,
        byte: u8,
        size: u32,
    )
        requires { IsPassOf shared.now pass.old }
        ensures { IsSamePass pass.old pass.new }
    {
        let Ok(body) = vec![in self.alloc; byte; size as usize] else {
            return self.told.expect(false);
        };
        let (front, rest) = body.as_slice().split_at(body.len() / 2);
        let turn = shared.fill(rt, pass, r, front);
        self.filled(turn, rest.len());
        let turn = shared.fill(rt, pass, r, rest);
        self.filled(turn, 0);
    }

    fn filled(&mut self, turn: Turn<FillReply>, wanted: usize) {
        self.told.expect(
            matches!(turn, Turn::Done(FillReply::Filled { left }) if left as usize == wanted),
        );
    }

    // Commits a reservation, or gives it up once in four times.
    fn end_reservation<H: Wait>(
        &mut self,
        rt: &H,
        shared: &Shared,
        pass: &mut Pass,
        r: ReserveNo,
        byte: u8,
        now: Micros,
    )
        requires { IsPassOf shared.now pass.old }
        ensures { IsSamePass pass.old pass.new }
    {
        if self.below(4) == 0 {
            let turn = shared.discard(rt, pass, r);
            self.told
                .expect(matches!(turn, Turn::Done(DiscardReply::Discarded)));
        } else {
            let turn = shared.commit(rt, pass, r, now);
            self.committed(byte, now, turn);
        }
    }

    fn committed(&mut self, byte: u8, now: Micros, turn: Turn<CommitReply>) {
        let Turn::Done(reply) = turn else {
            return self.told.expect(false);
        };
        match reply {
            CommitReply::Committed { n, time } => self.admit(n, byte, now, time),
            CommitReply::Duplicate { n } => self.told.name(n, byte, None),
            _ => self.told.expect(false),
        }
    }

    // Steps the cursor, or opens one.
    fn follow<H: Wait>(&mut self, rt: &H, shared: &Shared, pass: &mut Pass)
        requires { IsPassOf shared.now pass.old }
        ensures { IsSamePass pass.old pass.new }
    {
        match self.reader {
            Some(reader) => {
                let turn = shared.step(rt, pass, self.place);
                self.stepped(reader, turn);
            }
            None => self.open(rt, shared, pass),
        }
    }

    fn open<H: Wait>(&mut self, rt: &H, shared: &Shared, pass: &mut Pass)
        requires { IsPassOf shared.now pass.old }
        ensures { IsSamePass pass.old pass.new }
    {
        let feed = Feed(self.below(3) as u32 + 1);
        let (start, next) = self.start();
        let turn = shared.open_cursor(rt, pass, feed, start);
        self.opened(feed, next, turn);
    }

    // Where a cursor begins, and the least number that it can be given.
    fn start(&mut self) -> (Start, u64) {
        let byte = self.byte();
        match self.below(3) {
            0 => (Start::Oldest, 0),
            1 => (Start::Next, self.admitted),
            _ => (Start::AfterSignature(Signature([byte; 16])), 0),
        }
    }

    fn opened(&mut self, feed: Feed, next: u64, turn: Turn<OpenReply>) {
        let Turn::Done(reply) = turn else {
            return self.told.expect(false);
        };
        match reply {
            OpenReply::Opened { k } => {
                self.place = k;
                self.reader = Some(Reader {
                    feed,
                    given: 0,
                    lost: 0,
                    next,
                });
            }
            OpenReply::NotQueued => {}
            _ => self.told.expect(false),
        }
    }

    fn stepped(&mut self, reader: Reader, turn: Turn<StepReply>) {
        let Turn::Done(reply) = turn else {
            return self.told.expect(false);
        };
        match reply {
            StepReply::Holding { n } => self.still_holds(n),
            StepReply::Product { n, time, info } => {
                self.was_given(reader, n, time, &info);
            }
            StepReply::Gap { count, first, last } => {
                self.has_lost(reader, count, first, last);
            }
            StepReply::End { at } => self.is_at_end(reader, at),
            _ => self.told.expect(false),
        }
    }

    fn still_holds(&mut self, n: u64) {
        let holds = match self.held {
            Some(held) => held.n == n,
            None => false,
        };
        self.told.expect(holds);
    }

    fn was_given(&mut self, reader: Reader, n: u64, time: Micros, info: &Info) {
        let byte = info.signature().0[0];
        self.told.expect(self.held.is_none() && n >= reader.next && info.feed().meets(reader.feed));
        self.told.name(n, byte, Some(time));
        self.held = Some(Held { n, byte });
        self.reader = Some(Reader {
            feed: reader.feed,
            given: reader.given.saturating_add(1),
            lost: reader.lost,
            next: n.saturating_add(1),
        });
    }

    fn has_lost(&mut self, reader: Reader, count: u64, first: u64, last: u64) {
        self.told.expect(self.held.is_none() && count > 0 && reader.next <= first && first <= last);
        self.reader = Some(Reader {
            feed: reader.feed,
            given: reader.given,
            lost: reader.lost.saturating_add(count),
            next: reader.next,
        });
    }

    fn is_at_end(&mut self, reader: Reader, at: u64) {
        self.told.expect(self.held.is_none() && at >= reader.next && at >= self.admitted);
        self.reader = Some(Reader {
            feed: reader.feed,
            given: reader.given,
            lost: reader.lost,
            next: at,
        });
    }

    // The whole body of a product that is held, and one byte of the buffer that stays.
    fn read<H: Wait>(&mut self, rt: &H, shared: &Shared, pass: &mut Pass)
        requires { IsPassOf shared.now pass.old }
        ensures { IsSamePass pass.old pass.new }
    {
        let (byte, len) = match self.held {
            Some(held) => (held.byte, size_of(held.byte, self.largest)),
            None => (PRODUCTS, 0),
        };
        let Ok(mut bytes) = vec![in self.alloc; PRODUCTS; (len as usize).saturating_add(1)] else {
            return self.told.expect(false);
        };
        let turn = shared.read(rt, pass, self.place, 0, bytes.as_mut_slice());
        self.was_read(turn, len);
        self.told.expect(is_filled(&bytes, len as usize, byte));
    }

    fn was_read(&mut self, turn: Turn<ReadReply>, wanted: u32) {
        let is_right = match turn {
            Turn::Done(ReadReply::Bytes { len }) => self.held.is_some() && len == wanted,
            Turn::Done(ReadReply::NotHeld) => self.held.is_none() && self.reader.is_some(),
            Turn::Done(ReadReply::NoCursor) => self.held.is_none() && self.reader.is_none(),
            _ => false,
        };
        self.told.expect(is_right);
    }

    fn release<H: Wait>(&mut self, rt: &H, shared: &Shared, pass: &mut Pass)
        requires { IsPassOf shared.now pass.old }
        ensures { IsSamePass pass.old pass.new }
    {
        let turn = shared.release(rt, pass, self.place);
        self.released(turn);
    }

    fn released(&mut self, turn: Turn<ReleaseReply>) {
        let is_right = match (self.held, turn) {
            (Some(held), Turn::Done(ReleaseReply::Released { n })) => n == held.n,
            (None, Turn::Done(ReleaseReply::NotHeld)) => self.reader.is_some(),
            (None, Turn::Done(ReleaseReply::NoCursor)) => self.reader.is_none(),
            _ => false,
        };
        self.told.expect(is_right);
        self.held = None;
    }

    /// Closes the cursor.
    pub fn close<H: Wait>(&mut self, rt: &H, shared: &Shared, pass: &mut Pass)
        requires { IsPassOf shared.now pass.old }
        ensures { IsSamePass pass.old pass.new }
    {
        let turn = shared.close(rt, pass, self.place);
        self.closed(turn);
    }

    fn closed(&mut self, turn: Turn<CloseReply>) {
        let is_right = match turn {
            Turn::Done(CloseReply::Closed) => self.reader.is_some(),
            Turn::Done(CloseReply::NoCursor) => self.reader.is_none(),
            Turn::Worn { .. } => false,
        };
        self.told.expect(is_right);
        self.reader = None;
        self.held = None;
    }
}

// Whether so many bytes are this one, and the others as they were.
fn is_filled(bytes: &[u8], len: usize, byte: u8) -> bool {
    match bytes.split_at_checked(len) {
        Some((front, rest)) => are_all(front, byte) && are_all(rest, PRODUCTS),
        None => false,
    }
}

fn are_all(bytes: &[u8], byte: u8) -> bool {
    for other in bytes {
        if *other != byte {
            return false;
        }
    }
    true
}

fn size_of(byte: u8, largest: u32) -> u32 {
    u32::from(byte) * 2_654_435 % largest.max(1) + 1
}

fn info_of(now: Micros, byte: u8, size: u32) -> Option<Info>
    ensures { IfSome result (λ info. info.size ≡ size) }
{
    let feed = Feed(u32::from(byte) % 3 + 1);
    Info::new(now, Signature([byte; 16]), b"h", feed, 1, b"p", size).ok()
}
