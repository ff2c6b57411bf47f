//! The book: the queue of one thread.
ghost use Rattle.std.specs.Prelude.{◌≡◌, ◌+◌, ◌<◌, ◌≤◌, ◌++◌, ◌∷◌, [], ℕ, List, None, Some, true, false, is_some};
ghost use Rattle.std.specs.Prelude.{length, drop, filter, take, set, slice_index_or};
ghost use Rattle.std.specs.Prelude.{IfOk, IfErr, IfSome, IsSome, MatchOption};
ghost use Rattle.std.specs.Vec.{vec_len, vec_capacity};
ghost use Rattle.std.specs.List.{All, list_any};
ghost use Rattle.std.specs.Option.{option_map};
ghost use Rattle.ldm_cursor.specs.Places.{count_held, cursor_at, is_held};
ghost use Rattle.ldm_model.specs.Product.{extent_of};
ghost use Rattle.ldm_model.specs.State.{State, empty};
ghost use Rattle.ldm_model.specs.declared.event.Reply.TheVariants as reply;
ghost use Rattle.ldm_model.specs.Insert.{insert as insert_of, is_last, time_after as time_of};
ghost use Rattle.ldm_model.specs.Look.{look as look_of};
ghost use Rattle.ldm_model.specs.Expire.{expire as expire_of};
ghost use Rattle.ldm_model.specs.Stat.{stat as stat_of};
ghost use Rattle.ldm_model.specs.Open.{open_cursor as open_of};
ghost use Rattle.ldm_model.specs.Step.{step as step_of};
ghost use Rattle.ldm_model.specs.Read.{read as read_of};
ghost use Rattle.ldm_model.specs.Release.{release as release_of, close as close_of};
ghost use Rattle.ldm_model.specs.Tally.{tally as tally_of};
ghost use Rattle.ldm_model.specs.Reserve.{reserve as reserve_of};
ghost use Rattle.ldm_model.specs.Fill.{fill as fill_of, discard as discard_of};
ghost use Rattle.ldm_model.specs.Commit.{commit as commit_of};
ghost use Rattle.ldm_xdr.specs.Spelling.{Fits};
ghost use Rattle.ldm_book.specs.Lookup.{kept_with};
ghost use Rattle.ldm_book.specs.Products.{AreRising, LieApart, has_number, if_reserved_by};
ghost use Rattle.ldm_book.specs.Products.{kept_extent, reservation_at, room_for};
ghost use Rattle.ldm_book.specs.Spans.{held_span, held_spans, is_some_part, reserved_span, span_of};
ghost use Rattle.ldm_book.specs.Making.{IsTimely, MakesRoom, Puts, Reserves, reserving, start_at, with_committed};
ghost use Rattle.ldm_book.specs.Reserved.{kept_place, reservation_of};
ghost use Rattle.ldm_book.specs.View.{KeptReservation, open_kept};

mod restore;

use crate::fault::CreateFault;
use crate::products::Products;
use crate::reservations::Place;
use crate::row::extent;
use crate::spans::{Span, has_gap};
use crate::stored::{metadata_at, write_product};
use ldm_cursor::Cursors;
use ldm_model::{
    CloseReply, CommitReply, DiscardReply, ExpireReply, FillReply, InsertReply, LookReply,
    OpenReply, ReadReply, ReleaseReply, ReserveNo, ReserveReply, Start, Stat, StepReply,
    TallyReply,
};
use ldm_types::{
    ARENA_UNIT, Actor, CursorNo, Feed, Info, LARGEST_ARENA, MOST_SLOTS, Micros, SMALLEST_ARENA,
    Signature,
};
use ldm_xdr::info_len;
use std::alloc::Global;
use std::marker::Model;

/// The queue of one thread: a fixed number of bytes, the arena, and a fixed number of product slots.
#[derive(Drop)]
pub struct Book {
    arena: Vec<u8>,
    products: Products,
    cursors: Cursors,
    admitted: u64,
    last: Option<Micros>,
}

impl Model for Book {
    ghost use Rattle.ldm_book.specs.View.{BookView};

    ghost Value = { BookView };

    ghost use Rattle.ldm_book.specs.Sound.{view_of, IsSound};

    ghost view = { view_of };

    ghost invariant = { IsSound };
}

impl Book {
    ghost use Rattle.ldm_book.specs.Stands.{StandsFor};
    ghost use Rattle.ldm_book.specs.Answers.{KeepsPlaces, KeepsReserved, Follows};
    ghost use Rattle.ldm_model.specs.Answers.{IfRefused, IfNothing, IfNotOpened, IfNotStepped, IfNotReleased};
    ghost use Rattle.ldm_model.specs.Answers.{IfNotClosed, IfNotReserved, IfNotFilled, IfNotEnded, IfEndedOnly};
    ghost use Rattle.ldm_model.specs.Answers.{IfNotDiscarded, reserve_answer, fill_answer, commit_answer};
    ghost use Rattle.ldm_model.specs.Answers.{discard_answer, insert_answer, look_answer, expire_answer};
    ghost use Rattle.ldm_model.specs.Answers.{stat_answer, open_answer, step_answer, read_answer, release_answer};
    ghost use Rattle.ldm_model.specs.Answers.{close_answer, tally_answer, asked_bytes, bytes_read};
    ghost use Rattle.ldm_book.specs.Readers.{AreAhead, first_of, held_products, occupied};
    ghost use Rattle.ldm_book.specs.Readers.{products, unheld_numbers, without_product};
    ghost use Rattle.ldm_book.specs.Limits.{IsGoodArena, IsGoodSlots, IsFaultOf};

    /// An empty queue with an arena of so many bytes and so many product slots. It takes all the memory that
    /// the queue will ever use.
    ///
    /// In this project's profile the arena is a multiple of [`ARENA_UNIT`] from [`SMALLEST_ARENA`] up to
    /// [`LARGEST_ARENA`], and the slots are from 1 up to [`MOST_SLOTS`]. A fault of the arena is told before one
    /// of the slots, and want of memory after both.
    pub fn create(alloc: Global, arena: u64, slots: u32) -> Result<Book, CreateFault>
        ensures stands { IfOk result (λ book. StandsFor book (empty arena slots)) }
        ensures limits { IfOk result (λ _. IsGoodArena arena × IsGoodSlots slots) }
        ensures faults { IfErr result (IsFaultOf arena slots) }
    {
        Book::create_keyed(alloc, arena, slots, 0)
    }

    /// An empty queue as [`Book::create`] makes it, which hashes the key before each signature. Signatures that collide
    /// under one key hardly do under another, so a stranger who does not know the key cannot choose signatures whose
    /// searches are long. The key changes no answer.
    pub fn create_keyed(
        alloc: Global,
        arena: u64,
        slots: u32,
        key: u64,
    ) -> Result<Book, CreateFault>
        ensures stands { IfOk result (λ book. StandsFor book (empty arena slots)) }
        ensures limits { IfOk result (λ _. IsGoodArena arena × IsGoodSlots slots) }
        ensures faults { IfErr result (IsFaultOf arena slots) }
    {
        Book::check_sizes(arena, slots)?;
        Ok(Book {
            arena: vec![in alloc; 0u8; arena as usize]?,
            products: Products::create(alloc, arena, slots, key)?,
            cursors: Cursors::create(alloc)?,
            admitted: 0,
            last: None,
        })
    }

    /// Whether there is a queue of such an arena and of so many slots: what [`Book::create`] tests first. It takes no
    /// memory, and does not fail for want of it.
    pub fn check_sizes(arena: u64, slots: u32) -> Result<(), CreateFault>
        ensures limits { IfOk result (λ _. IsGoodArena arena × IsGoodSlots slots) }
        ensures faults { IfErr result (IsFaultOf arena slots) }
        ensures bad { IfErr result (λ _. ¬ (IsGoodArena arena × IsGoodSlots slots)) }
    {
        if arena % ARENA_UNIT != 0 || arena < SMALLEST_ARENA || arena > LARGEST_ARENA {
            return Err(CreateFault::BadArena { arena });
        }
        if slots == 0 || slots > MOST_SLOTS {
            return Err(CreateFault::BadSlots { slots });
        }
        Ok(())
    }

    /// Inserts a product at the moment `now`. The body has as many bytes as the metadata say.
    ///
    /// The cases are tested in this order: larger than the arena, a duplicate of a queued product, no insertion
    /// time left, locked. Else the product is admitted: as many of the oldest products that no cursor holds are
    /// evicted as it needs, and no more, and it goes into the shortest gap that is long enough, the lowest where
    /// several are equally short. Its insertion time is `now`, or one microsecond after the last insertion time
    /// where that is later.
    pub fn insert(&mut self, actor: Actor, now: Micros, info: &Info, body: &[u8]) -> InsertReply
        requires { length body.now ≡ info.now.size }
        ensures answers { (s : State) → StandsFor self.old s
            → Follows (insert_answer result) self.new (insert_of s now (record { info = info.now; body = body.now })) }
        ensures refused { IfRefused result (self.new ≡ self.old) }
        ensures places { KeepsPlaces self.old self.new }
        ensures reserved { KeepsReserved self.old self.new }
        ensures apart { LieApart self.new.arena (occupied self.new) }
    {
        let _ = actor;
        let need = extent(info);
        let arena = self.arena.len() as u64;
        if need > arena {
            return InsertReply::TooBig { need, arena };
        }
        if let LookReply::Queued { n, .. } = self.products.look(&info.signature()) {
            return InsertReply::Duplicate { n };
        }
        let Some(time) = time_after(self.last, now) else {
            return InsertReply::TimeEnd;
        };
        let n = self.admitted;
        let Some(evicted) = self.make_room(need) else {
            return InsertReply::Locked {
                held: self.count_held(),
            };
        };
        self.put(time, info, body);
        InsertReply::Admitted { n, time, evicted }
    }

    /// The queued product of that signature, if there is one.
    // It changes nothing, and takes `&mut self` so that all events of a queue have one form.
    pub fn look(&mut self, actor: Actor, s: &Signature) -> LookReply
        ensures answers { (state : State) → StandsFor self.old state
            → Follows (look_answer result) self.new (look_of state s.now.0) }
        ensures unchanged { self.new ≡ self.old }
    {
        let _ = actor;
        self.products.look(s)
    }

    /// Evicts the oldest product that no cursor holds, if there is one.
    pub fn expire(&mut self, actor: Actor) -> ExpireReply
        ensures answers { (s : State) → StandsFor self.old s → Follows (expire_answer result) self.new (expire_of s) }
        ensures nothing { IfNothing result (self.new ≡ self.old) }
        ensures places { KeepsPlaces self.old self.new }
        ensures reserved { KeepsReserved self.old self.new }
        ensures apart { LieApart self.new.arena (occupied self.new) }
    {
        let _ = actor;
        match self.first_free(0) {
            Some(n) => {
                self.evict(n);
                ExpireReply::Expired { n }
            }
            None => ExpireReply::Nothing,
        }
    }

    /// How full the queue is.
    // It changes nothing either: `&mut self` for the same reason as in `look`.
    pub fn stat(&mut self, actor: Actor) -> Stat
        ensures answers { (s : State) → StandsFor self.old s → Follows (stat_answer result) self.new (stat_of s) }
        ensures unchanged { self.new ≡ self.old }
    {
        let _ = actor;
        Stat {
            admitted: self.admitted,
            queued: self.products.len(),
            held: self.count_held(),
            used: self.products.used(),
            largest_free: self.products.largest_free(),
        }
    }

    /// Opens a cursor of the actor for these feedtypes, at the least empty cursor place.
    ///
    /// The cases are tested in this order: all places taken, then the product that it is to begin behind not queued.
    pub fn open_cursor(&mut self, actor: Actor, feed: Feed, start: Start) -> OpenReply
        ensures answers { (s : State) → StandsFor self.old s
            → Follows (open_answer result) self.new (open_of s actor feed.0 start) }
        ensures refused { IfNotOpened result (self.new ≡ self.old) }
        ensures products { self.new ≡ record self.old { cursors = self.new.cursors } }
    {
        if self.cursors.is_full() {
            return OpenReply::AllBusy;
        }
        let Some(position) = self.start_at(start) else {
            return OpenReply::NotQueued;
        };
        match self.cursors.seat(actor, feed, position) {
            Some(k) => OpenReply::Opened { k },
            None => OpenReply::AllBusy,
        }
    }

    /// Goes on with a cursor: tells the losses that it was not told yet, or gives the next product, which the cursor
    /// holds from then on, or comes to the end.
    pub fn step(&mut self, actor: Actor, k: CursorNo) -> StepReply
        ensures answers { (s : State) → StandsFor self.old s
            → Follows (step_answer result) self.new (step_of s actor k) }
        ensures refused { IfNotStepped result (self.new ≡ self.old) }
        ensures products { self.new ≡ record self.old { cursors = self.new.cursors } }
    {
        if !self.cursors.owned(actor, k) {
            return StepReply::NoCursor;
        }
        if let Some(n) = self.cursors.held(k) {
            return StepReply::Holding { n };
        }
        if let Some((count, first, last)) = self.cursors.tell(k) {
            return StepReply::Gap { count, first, last };
        }
        let position = self.cursors.position(k);
        match self.products.first_meeting(position, self.cursors.feed(k)) {
            Some(row) => {
                self.cursors.hold(k, row.n);
                StepReply::Product {
                    n: row.n,
                    time: row.time,
                    info: metadata_at(&self.arena, row.place),
                }
            }
            None => {
                self.cursors.to_end(k, self.admitted);
                StepReply::End { at: self.admitted }
            }
        }
    }

    /// Reads the body of the product that a cursor holds, from that offset on: as many bytes as the buffer has room
    /// for, or as are left, to the front of the buffer. The bytes behind them stay as they were.
    // It changes nothing either.
    pub fn read(&mut self, actor: Actor, k: CursorNo, offset: u32, into: &mut [u8]) -> ReadReply
        ensures answers { (s : State) → StandsFor self.old s
            → Follows (read_answer result into.new) self.new
            (read_of s actor k offset (asked_bytes (length into.old))) }
        ensures unchanged { self.new ≡ self.old }
        ensures few { bytes_read result ≤ length into.old }
        ensures rest { drop (bytes_read result) into.new ≡ drop (bytes_read result) into.old }
    {
        match self.part(actor, k, offset, into.len()) {
            Ok(part) => {
                into[..part.len()].copy_from_slice(part);
                ReadReply::Bytes {
                    len: part.len() as u32,
                }
            }
            Err(reply) => reply,
        }
    }

    /// Reads as [`Book::read`] does, at most `len` bytes, and appends them to a buffer that has room for so many.
    pub fn read_onto(
        &mut self,
        actor: Actor,
        k: CursorNo,
        offset: u32,
        len: u32,
        out: &mut Vec<u8>,
    ) -> ReadReply
        requires room { vec_len out.old + len ≤ vec_capacity out.old }
        ensures answers { (s : State) → StandsFor self.old s
            → Follows (read_answer result (drop (length out.old.items) out.new.items)) self.new
            (read_of s actor k offset (asked_bytes len)) }
        ensures unchanged { self.new ≡ self.old }
        ensures front { out.new.items ≡ out.old.items ++ drop (length out.old.items) out.new.items }
        ensures count { length out.new.items ≡ length out.old.items + bytes_read result }
        ensures few { bytes_read result ≤ len }
        ensures capacity { vec_capacity out.old ≤ vec_capacity out.new }
    {
        match self.part(actor, k, offset, len as usize) {
            Ok(part) => {
                let Ok(()) = out.extend_from_slice(part) else {
                    unreachable!()
                };
                ReadReply::Bytes {
                    len: part.len() as u32,
                }
            }
            Err(reply) => reply,
        }
    }

    /// Ends the hold of a cursor.
    pub fn release(&mut self, actor: Actor, k: CursorNo) -> ReleaseReply
        ensures answers { (s : State) → StandsFor self.old s
            → Follows (release_answer result) self.new (release_of s actor k) }
        ensures refused { IfNotReleased result (self.new ≡ self.old) }
        ensures products { self.new ≡ record self.old { cursors = self.new.cursors } }
    {
        if !self.cursors.owned(actor, k) {
            return ReleaseReply::NoCursor;
        }
        let Some(n) = self.cursors.held(k) else {
            return ReleaseReply::NotHeld;
        };
        let _ = self.cursors.let_go(k);
        ReleaseReply::Released { n }
    }

    /// Closes a cursor. If it held a product, that hold ends.
    pub fn close(&mut self, actor: Actor, k: CursorNo) -> CloseReply
        ensures answers { (s : State) → StandsFor self.old s
            → Follows (close_answer result) self.new (close_of s actor k) }
        ensures refused { IfNotClosed result (self.new ≡ self.old) }
        ensures products { self.new ≡ record self.old { cursors = self.new.cursors } }
    {
        if !self.cursors.owned(actor, k) {
            return CloseReply::NoCursor;
        }
        self.cursors.leave(k);
        CloseReply::Closed
    }

    /// Counts what a cursor was given, what it lost, and what is left for it.
    // It changes nothing either.
    pub fn tally(&mut self, actor: Actor, k: CursorNo) -> TallyReply
        ensures answers { (s : State) → StandsFor self.old s
            → Follows (tally_answer result) self.new (tally_of s actor k) }
        ensures unchanged { self.new ≡ self.old }
    {
        if !self.cursors.owned(actor, k) {
            return TallyReply::NoCursor;
        }
        let (given, lost) = self.cursors.counts(k);
        let position = self.cursors.position(k);
        TallyReply::Tally {
            given,
            lost,
            left: self.products.count_meeting(position, self.cursors.feed(k)),
        }
    }

    /// Reserves a region for a product with these metadata, and writes them there: its body comes later, in pieces. The
    /// region is held from then on, until the reservation is committed or discarded, and takes a slot.
    ///
    /// The cases are tested in this order: larger than the arena, a duplicate of a queued product, all 64 places taken,
    /// locked. Else room is made and used as in [`Book::insert`], and the reservation has the least empty place. Two
    /// reservations may have one signature.
    pub fn reserve(&mut self, actor: Actor, info: &Info) -> ReserveReply
        ensures answers { (s : State) → StandsFor self.old s
            → Follows (reserve_answer result) self.new (reserve_of s actor info.now) }
        ensures refused { IfNotReserved result (self.new ≡ self.old) }
        ensures places { KeepsPlaces self.old self.new }
        ensures reserved { KeepsReserved self.old self.new }
        ensures apart { LieApart self.new.arena (occupied self.new) }
    {
        let need = extent(info);
        let arena = self.arena.len() as u64;
        if need > arena {
            return ReserveReply::TooBig { need, arena };
        }
        if let LookReply::Queued { n, .. } = self.products.look(&info.signature()) {
            return ReserveReply::Duplicate { n };
        }
        let Some(r) = self.products.first_empty() else {
            return ReserveReply::AllReserved;
        };
        let Some(evicted) = self.make_room(need) else {
            return ReserveReply::Locked {
                held: self.count_held(),
            };
        };
        self.put_reserved(actor, r, info);
        ReserveReply::Reserved { r, evicted }
    }

    /// Fills bytes of the body into a reserved region, behind those that were filled in before. More than are left are
    /// refused, and none of them is written.
    pub fn fill(&mut self, actor: Actor, r: ReserveNo, bytes: &[u8]) -> FillReply
        ensures answers { (s : State) → StandsFor self.old s
            → Follows (fill_answer result) self.new (fill_of s actor r bytes.now) }
        ensures refused { IfNotFilled result (self.new ≡ self.old) }
        ensures products { self.new ≡ record self.old { bytes = self.new.bytes; reservations = self.new.reservations } }
        ensures places { KeepsPlaces self.old self.new }
        ensures reserved { KeepsReserved self.old self.new }
        ensures apart { LieApart self.new.arena (occupied self.new) }
    {
        let Some(place) = self.reservation(actor, r) else {
            return FillReply::NoReservation;
        };
        let left = place.row.size - place.filled;
        if bytes.len() > left as usize {
            return FillReply::Overfill { left };
        }
        let count = bytes.len() as u32;
        let start = place.row.place as usize + place.row.head as usize + place.filled as usize;
        self.arena[start..start + bytes.len()].copy_from_slice(bytes);
        self.products.fill(r, count);
        FillReply::Filled { left: left - count }
    }

    /// Makes a reservation whose body is whole a product of the queue, at the moment `now`. It lies where it was filled
    /// in: no byte is copied.
    ///
    /// The cases are tested in this order: no reservation of the actor at the place, bytes left, a duplicate of a
    /// queued product, no insertion time left. In the first two nothing changes, in the others the reservation ends.
    /// Number and insertion time are those of an insertion at that moment.
    pub fn commit(&mut self, actor: Actor, r: ReserveNo, now: Micros) -> CommitReply
        ensures answers { (s : State) → StandsFor self.old s
            → Follows (commit_answer result) self.new (commit_of s actor r now) }
        ensures refused { IfNotEnded result (self.new ≡ self.old) }
        ensures ended { IfEndedOnly result
            (self.new ≡ record self.old { reservations = set self.old.reservations r None }) }
        ensures places { KeepsPlaces self.old self.new }
        ensures reserved { KeepsReserved self.old self.new }
        ensures apart { LieApart self.new.arena (occupied self.new) }
    {
        let Some(place) = self.reservation(actor, r) else {
            return CommitReply::NoReservation;
        };
        let left = place.row.size - place.filled;
        if left > 0 {
            return CommitReply::Unfilled { left };
        }
        if let LookReply::Queued { n, .. } = self.products.look(&place.row.signature) {
            self.end(r);
            return CommitReply::Duplicate { n };
        }
        let Some(time) = time_after(self.last, now) else {
            self.end(r);
            return CommitReply::TimeEnd;
        };
        let n = self.admitted;
        self.admit(r, time);
        CommitReply::Committed { n, time }
    }

    /// Gives a reservation up: its region and its slot are free from then on.
    pub fn discard(&mut self, actor: Actor, r: ReserveNo) -> DiscardReply
        ensures answers { (s : State) → StandsFor self.old s
            → Follows (discard_answer result) self.new (discard_of s actor r) }
        ensures refused { IfNotDiscarded result (self.new ≡ self.old) }
        ensures places { KeepsPlaces self.old self.new }
        ensures reserved { KeepsReserved self.old self.new }
        ensures apart { LieApart self.new.arena (occupied self.new) }
    {
        let Some(_) = self.reservation(actor, r) else {
            return DiscardReply::NoReservation;
        };
        self.end(r);
        DiscardReply::Discarded
    }

    // The number that a cursor begins at. `None` exactly where the product that it is to begin behind is not queued.
    fn start_at(&self, start: Start) -> Option<u64>
        ensures at { result ≡ start_at self.now start }
        ensures within { IfSome result (λ at. at ≤ self.now.admitted) }
        ensures few { length self.now.rows ≤ self.now.admitted }
    {
        match start {
            Start::Oldest => match self.products.first_at(0) {
                Some(n) => Some(n),
                None => Some(self.admitted),
            },
            Start::Next => Some(self.admitted),
            Start::After(time) => match self.products.first_after(time) {
                Some(n) => Some(n),
                None => Some(self.admitted),
            },
            Start::AfterSignature(signature) => match self.products.look(&signature) {
                LookReply::Queued { n, .. } => Some(n + 1),
                LookReply::Absent => None,
            },
        }
    }

    // The bytes of the body of the product that a cursor holds, from that offset on: so many, or as many as are left,
    // and no more than can be asked for. Else the reply that says why there are none.
    fn part(&self, actor: Actor, k: CursorNo, offset: u32, len: usize) -> Result<&[u8], ReadReply>
        ensures answers { IfOk result (λ part. (s : State) → StandsFor self.now s
            → Follows (reply.Bytes part.now) self.now (read_of s actor k offset (asked_bytes len))) }
        ensures few { IfOk result (λ part. length part.now ≤ asked_bytes len) }
        ensures refused { IfErr result (λ answer. (into : List ℕ) (s : State) → StandsFor self.now s
            → Follows (read_answer answer into) self.now (read_of s actor k offset (asked_bytes len))) }
        ensures none { IfErr result (λ answer. bytes_read answer ≡ 0) }
    {
        if !self.cursors.owned(actor, k) {
            return Err(ReadReply::NoCursor);
        }
        let Some(n) = self.cursors.held(k) else {
            return Err(ReadReply::NotHeld);
        };
        let Some(row) = self.products.first_row(n) else {
            unreachable!()
        };
        let size = row.size;
        if offset > size {
            return Err(ReadReply::BadOffset { size });
        }
        let len = len.min((size - offset) as usize);
        let front = row.place as usize + row.head as usize + offset as usize;
        Ok(&self.arena[front..front + len])
    }

    // The number of the oldest product that nobody holds, where those before `from` are all held.
    fn first_free(&self, from: u64) -> Option<u64>
        requires { AreAhead from self.now.cursors self.now.rows }
        ensures first { result ≡ first_of (unheld_numbers self.now) }
        ensures ahead { IfSome result (λ n. AreAhead n self.now.cursors self.now.rows) }
        ensures above { IfSome result (λ n. from ≤ n) }
        ensures small { IfSome result (λ n. n ≤ Micros.MAX) }
        ensures apart { LieApart self.now.arena (occupied self.now) }
        ensures rising { AreRising self.now.rows }
    {
        let mut at = from;
        while let Some(n) = self.products.first_at(at) {
            if !self.cursors.holds(n) {
                return Some(n);
            }
            at = n + 1;
        }
        None
    }

    // Evicts a product that nobody holds.
    fn evict(&mut self, n: u64)
        requires queued { list_any (has_number n) self.old.rows ≡ true }
        requires free { is_held n self.old.cursors ≡ false }
        ensures evicted { self.new ≡ without_product n self.old }
        ensures apart { LieApart self.new.arena (occupied self.new) }
    {
        let Some(row) = self.products.first_row(n) else {
            unreachable!()
        };
        let feed = row.feed;
        self.products.take_out(n);
        self.cursors.lose(n, feed);
    }

    // Where the product lies that the cursor of a place holds.
    fn held_span(&self, place: u32) -> Span
        requires { place < CursorNo.COUNT }
        ensures span { result ≡ held_span self.now.rows (cursor_at self.now.cursors place) }
        ensures many { length self.now.cursors ≡ CursorNo.COUNT }
    {
        let Some(k) = CursorNo::new(place) else {
            unreachable!()
        };
        let Some(n) = self.cursors.held_at(k) else {
            return Span::NONE;
        };
        match self.products.first_row(n) {
            Some(row) => Span {
                start: row.place,
                back: row.place + row.extent(),
            },
            None => Span::NONE,
        }
    }

    // Where the region of a reservation place lies.
    fn reserved_span(&self, place: u32) -> Span
        requires { place < ReserveNo.COUNT }
        ensures span { result ≡ reserved_span (reservation_at self.now.reservations place) }
        ensures many { length self.now.reservations ≡ ReserveNo.COUNT }
    {
        let Some(r) = ReserveNo::new(place) else {
            unreachable!()
        };
        match self.products.reservation(r) {
            Some(held) => Span {
                start: held.row.place,
                back: held.row.place + held.row.extent(),
            },
            None => Span::NONE,
        }
    }

    // The span of a cursor place, or behind these of a reservation place.
    fn span_at(&self, place: u32) -> Span
        requires place { place < CursorNo.COUNT + ReserveNo.COUNT }
        requires many { CursorNo.COUNT ≤ place → length self.now.cursors ≡ CursorNo.COUNT }
        ensures span { result ≡ slice_index_or (held_spans self.now.rows self.now.cursors self.now.reservations) place
            (span_of None) }
        ensures cursors { length self.now.cursors ≡ CursorNo.COUNT }
        ensures reservations { CursorNo.COUNT ≤ place → length self.now.reservations ≡ ReserveNo.COUNT }
    {
        if place < CursorNo::COUNT {
            self.held_span(place)
        } else {
            self.reserved_span(place - CursorNo::COUNT)
        }
    }

    // Writes where the held products and the reserved regions of the places from one up to another lie, behind the
    // first so many spans, which are those of the places before. How many there are then.
    fn gather_places(&self, spans: &mut [Span], count: usize, from: u32, to: u32) -> usize
        requires order { from ≤ to }
        requires within { to ≤ CursorNo.COUNT + ReserveNo.COUNT }
        requires long { to ≤ length spans.old }
        requires few { count ≤ from }
        requires cursors { length self.now.cursors ≡ CursorNo.COUNT }
        requires reservations { length self.now.reservations ≡ ReserveNo.COUNT }
        requires known { take count spans.old ≡ filter is_some_part
            (take from (held_spans self.now.rows self.now.cursors self.now.reservations)) }
        ensures spans { take result spans.new ≡ filter is_some_part
            (take to (held_spans self.now.rows self.now.cursors self.now.reservations)) }
        ensures few { result ≤ to }
    {
        let mut count = count;
        for place in from..to {
            let span = self.span_at(place);
            if span.back > 0 {
                spans[count] = span;
                count += 1;
            }
        }
        count
    }

    // Writes where the held products and the reserved regions lie, by their places, to the front of the spans. How many
    // they are. No place is looked at that is behind the last whose cursor holds a product, and none of a reservation
    // where there are none.
    fn gather_held(&self, spans: &mut [Span]) -> usize
        requires { length spans.old ≡ CursorNo.COUNT + ReserveNo.COUNT }
        ensures spans { take result spans.new ≡ filter is_some_part
            (held_spans self.now.rows self.now.cursors self.now.reservations) }
        ensures few { result ≤ length spans.old }
    {
        let reserved = self.products.count_reserved();
        let count = self.gather_places(spans, 0, 0, self.cursors.held_end());
        if reserved == 0 {
            return count;
        }
        self.gather_places(
            spans,
            count,
            CursorNo::COUNT,
            CursorNo::COUNT + ReserveNo::COUNT,
        )
    }

    // How many regions are held: those of the products that cursors hold, each counted once, and the reserved ones.
    fn count_held(&self) -> u64
        ensures { result ≡ count_held self.now.cursors + length (open_kept self.now.reservations) }
    {
        self.cursors.count_held() + self.products.count_reserved()
    }

    // Whether there would be room for so many bytes, if all products were evicted that nobody holds.
    fn has_room_beside_held(&self, need: u64) -> bool
        requires some { 0 < need }
        requires need { need ≤ self.now.arena }
        ensures { result ≡ is_some (room_for (held_products self.now) need) }
    {
        let held = self.count_held();
        if held >= self.products.slots() {
            return false;
        }
        if held == 0 {
            return true;
        }
        let mut spans = [Span::NONE; 128];
        let count = self.gather_held(&mut spans);
        has_gap(&spans[..count], need, self.arena.len() as u64)
    }

    // Evicts as many of the oldest products that nobody holds as it takes until there is room for so many bytes, and no
    // more. `None` exactly where all of them would not make room; nothing changes then.
    fn make_room(&mut self, need: u64) -> Option<u64>
        requires some { 0 < need }
        requires need { need ≤ self.old.arena }
        ensures locked { result ≡ None → is_some (room_for (held_products self.old) need) ≡ false }
        ensures made { MatchOption result (self.new ≡ self.old) (λ evicted. MakesRoom evicted need self.old self.new) }
        ensures apart { LieApart self.new.arena (occupied self.new) }
    {
        if self.products.has_room(need) {
            return Some(0);
        }
        if !self.has_room_beside_held(need) {
            return None;
        }
        let mut evicted = 0;
        let mut from = 0;
        while let Some(n) = self.first_free(from) {
            self.evict(n);
            evicted += 1;
            if self.products.has_room(need) {
                return Some(evicted);
            }
            from = n + 1;
        }
        unreachable!()
    }

    // Puts a product in, and its metadata and its body into the arena.
    fn put(&mut self, time: Micros, info: &Info, body: &[u8])
        requires size { length body.now ≡ info.now.size }
        requires absent { kept_with info.now.signature self.old.rows ≡ None }
        requires timely { IsTimely self.old.last time }
        requires instant { time ≤ Micros.MAX }
        requires room { is_some (room_for (products self.old) (extent_of info.now)) ≡ true }
        ensures put { Puts time info.now body.now self.old self.new }
        ensures fits { Fits info.now }
        ensures apart { LieApart self.new.arena (occupied self.new) }
    {
        let Some(place) = self.products.put(info, self.admitted, time) else {
            unreachable!()
        };
        let start = place as usize;
        let end = start + info_len(info) + body.len();
        write_product(&mut self.arena[start..end], info, body);
        self.admitted += 1;
        self.last = Some(time);
    }

    // Reserves a region at an empty reservation place, and writes the metadata there.
    fn put_reserved(&mut self, actor: Actor, r: ReserveNo, info: &Info)
        requires empty { reservation_at self.old.reservations r ≡ None }
        requires room { is_some (room_for (products self.old) (extent_of info.now)) ≡ true }
        ensures put { Reserves actor r info.now self.old self.new }
        ensures fits { Fits info.now }
        ensures apart { LieApart self.new.arena (occupied self.new) }
    {
        let Some(place) = self.products.reserve(actor, r, info) else {
            unreachable!()
        };
        let start = place as usize;
        write_product(&mut self.arena[start..start + info_len(info)], info, &[]);
    }

    // The actor's reservation at a place, if it has one there.
    fn reservation(&self, actor: Actor, r: ReserveNo) -> Option<Place>
        ensures own { option_map (λ place. reservation_of (kept_place place)) result ≡ if_reserved_by actor
            (reservation_at self.now.reservations r) }
        ensures part { IfSome result (λ place. (kept_place place).filled ≤ (kept_place place).product.size) }
        ensures within { IfSome result
            (λ place. (kept_place place).product.place + kept_extent (kept_place place).product ≤ self.now.arena) }
        ensures small { length self.now.bytes ≡ self.now.arena }
        ensures apart { LieApart self.now.arena (occupied self.now) }
    {
        let place = self.products.reservation(r)?;
        if place.actor != actor {
            return None;
        }
        Some(place)
    }

    // Ends an open reservation, whose region and slot are free from then on.
    fn end(&mut self, r: ReserveNo)
        requires { IsSome (reservation_at self.old.reservations r) }
        ensures ended { self.new ≡ reserving self.old r None }
        ensures apart { LieApart self.new.arena (occupied self.new) }
    {
        self.products.discard(r);
    }

    // Makes a whole reservation a product.
    fn admit(&mut self, r: ReserveNo, time: Micros)
        requires some { (v : KeptReservation) × (reservation_at self.old.reservations r ≡ Some v)
            × (kept_with v.product.signature self.old.rows ≡ None) }
        requires timely { IsTimely self.old.last time }
        requires instant { time ≤ Micros.MAX }
        ensures committed { (v : KeptReservation) → reservation_at self.old.reservations r ≡ Some v
            → self.new ≡ with_committed self.old r time v }
        ensures apart { LieApart self.new.arena (occupied self.new) }
    {
        self.products.commit(r, self.admitted, time);
        self.admitted += 1;
        self.last = Some(time);
    }
}

// The insertion time at the moment `now`, unless the last one is the greatest instant.
fn time_after(last: Option<Micros>, now: Micros) -> Option<Micros>
    ensures time { MatchOption result (is_last last ≡ true)
        (λ time. (is_last last ≡ false) × (time ≡ time_of last now)) }
    ensures timely { IfSome result (IsTimely last) }
    ensures instant { IfSome result (λ time. time ≤ Micros.MAX) }
{
    let now = now.get();
    let Some(last) = last else {
        return Micros::new(now);
    };
    if last.get() >= Micros::MAX {
        return None;
    }
    Micros::new(now.max(last.get() + 1))
}
