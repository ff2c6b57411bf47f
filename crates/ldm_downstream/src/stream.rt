//! What takes the bytes of a stream: its records, one after another.
ghost use Rattle.std.specs.Prelude.{◌≡◌, ◌≤◌, ◌<◌, ◌+◌, ◌∷◌, [], ℕ, true, false, IfOk, IfNone};
ghost use Rattle.std.specs.Prelude.{IfSome, MatchOption, OnOk, OnErr, None, Option, Some, List, length};
ghost use Rattle.std.specs.Option.{option_map};
ghost use Rattle.ldm_outside.specs.Link.{IsNotClosed};
ghost use Rattle.ldm_rpc.specs.Keeping.{IsFrontIn, IsFrontOf};
ghost use Rattle.ldm_rpc.specs.Reading.{is_faulty, is_pending};
ghost use Rattle.ldm_rpc.specs.Streams.{Position};
ghost use Rattle.ldm_session.specs.declared.limits.TheConstants.{LONGEST_STREAM};
ghost use Rattle.ldm_shared.specs.Passes.{IsPassOf, IsSamePass, PassView};
ghost use Rattle.ldm_intake.specs.Settled.{is_feeding};
ghost use Rattle.ldm_intake.specs.TakesRecord.{stands};
ghost use Rattle.ldm_downstream.specs.declared.limits.TheConstants.{LONGEST_PIECE};
ghost use Rattle.ldm_downstream.specs.Filling.{Fills};
ghost use Rattle.ldm_downstream.specs.Pieces.{beginning};
ghost use Rattle.ldm_downstream.specs.Received.{GoesOnAt, at_stream_end, is_within};
ghost use Rattle.ldm_downstream.specs.Pushing.{ClosesIf, Pushes, is_worn};
ghost use Rattle.ldm_downstream.specs.ReceiverView.{moment};
ghost use Rattle.ldm_downstream.specs.Turns.{Finds, Turns, Runs, Passes, end_of_answer, end_of_fault};
ghost use Rattle.ldm_downstream.specs.Turns.{end_of_message, turned};

use crate::ends::is_worn;
use crate::filling::Receiving;
use crate::keeping::RecordKeeper;
use crate::limits::{LONGEST_PIECE, LONGEST_SHORT, SHORT_PIECE};
use ldm_intake::{AnswerEnd, Intake, MessageEnd, RecvEnd};
use ldm_outside::{Awaited, Got, Link};
use ldm_relay::LARGEST_RECORD;
use ldm_rpc::{Front, KeptRecords, RpcFault};
use ldm_session::LONGEST_STREAM;
use ldm_shared::{Pass, Shared, Turn};
use ldm_types::{Micros, OutOfMemory, Signature};
use std::alloc::Global;
use std::marker::Model;
use std::sync::Wait;

/// What takes the bytes of a stream, from its first one on.
#[derive(Drop)]
pub(crate) struct Stream<'a> {
    intake: Intake<'a>,
    records: KeptRecords,
    begins: u64,
    came: u64,
    // Whether the last record that was complete was long.
    was_long: bool,
}

impl<'a> Model for Stream<'a> {
    ghost use Rattle.ldm_downstream.specs.ReceiverView.{StreamView};

    ghost Value = { StreamView };

    ghost use Rattle.ldm_downstream.specs.InsideStream.{stream_of, IsKept};

    ghost view = { stream_of };

    ghost invariant = { IsKept };
}

impl<'a> Stream<'a> {
    /// Before the first byte of the stream.
    pub(crate) fn begin(alloc: Global, intake: Intake<'a>) -> Stream<'a>
        ensures { result ≡ record { receiving = intake.entry; hand = beginning } }
    {
        Stream {
            intake,
            records: KeptRecords::create(alloc, LARGEST_RECORD),
            begins: 0,
            came: 0,
            was_long: false,
        }
    }

    /// Where its records are taken.
    pub(crate) fn intake(&self) -> &Intake<'a>
        ensures { result.now ≡ self.now.receiving }
    {
        &self.intake
    }

    /// Whether a record, or a product in blocks, was begun and is not complete.
    pub(crate) fn is_within(&self) -> bool
        ensures { result ≡ is_within self.now.hand self.now.receiving }
    {
        self.records.is_pending() || (self.intake.is_feeding() && !self.intake.is_settled())
    }

    /// How it ends where the stream ends there.
    pub(crate) fn at_end(&self) -> RecvEnd
        ensures { result ≡ at_stream_end self.now.hand self.now.receiving }
    {
        if !self.records.is_pending() && self.intake.is_settled() {
            RecvEnd::Ended
        } else {
            RecvEnd::Truncated { at: self.came }
        }
    }

    /// How many bytes are received in a piece at most.
    pub(crate) fn piece_room(&self) -> usize
        ensures some { 0 < result }
        ensures short { result ≤ LONGEST_PIECE }
    {
        if self.was_long {
            SHORT_PIECE
        } else {
            LONGEST_PIECE
        }
    }

    /// Receives some bytes straight into the record in hand, where much of it is to come. `None` where little is to
    /// come, or there is no memory: then the link was not asked.
    ///
    /// The last byte that is taken of a stream comes in a piece, so its limit is met there alone.
    pub(crate) fn fill<K: Link>(&mut self, link: &mut K, awaited: Awaited) -> Option<Got>
        requires not_closed { IsNotClosed (K.tells link.old) }
        requires below { self.old.hand.came < LONGEST_STREAM }
        ensures none { IfNone result ((self.new ≡ self.old) × (link.new ≡ link.old)) }
        ensures fills { IfSome result
            (λ got. Fills got self.old.hand self.new.hand (K.tells link.old) (K.tells link.new)) }
        ensures same { self.new.receiving ≡ self.old.receiving }
        ensures still_open { IsNotClosed (K.tells link.new) }
        ensures faults_kept { (K.tells link.old).faults ≤ (K.tells link.new).faults }
        ensures ends_kept { (K.tells link.old).ends ≤ (K.tells link.new).ends }
    {
        let room = LONGEST_STREAM - self.came - 1;
        let most = room.min(LONGEST_PIECE as u64) as usize;
        let mut receiving = Receiving::of(awaited);
        let count = self.records.fill(&mut receiving, link, most)?;
        self.came += count as u64;
        Some(receiving.got())
    }

    /// Takes a piece that came at the moment `now`, and gives up the reservation that is open where that ends the
    /// receiving.
    pub(crate) fn push<H: Wait>(
        &mut self,
        shared: &Shared,
        rt: &H,
        pass: &mut Pass,
        piece: &[u8],
        now: Micros,
        out: &mut Vec<u8>,
        notes: &mut Vec<u8>,
    ) -> Option<RecvEnd>
        requires of { IsPassOf shared.now pass.old }
        requires sound { is_faulty self.old.hand.reading ≡ false }
        ensures kept { IsSamePass pass.old pass.new }
        ensures pushes { Pushes result (record { now = now; bytes = piece.now }) self.old.hand self.new.hand
            (moment self.old.receiving pass.old out.old notes.old)
            (moment self.new.receiving pass.new out.new notes.new) }
        ensures goes_on { GoesOnAt result self.new.hand }
    {
        match self.take_piece(shared, rt, pass, piece, now, out, notes) {
            Some(end) => Some(self.give_up(shared, rt, pass, end)),
            None => None,
        }
    }

    /// Ends it so: gives up the reservation that is open, if one is. Answers the end: the queue may have no call more.
    pub(crate) fn give_up<H: Wait>(
        &mut self,
        shared: &Shared,
        rt: &H,
        pass: &mut Pass,
        end: RecvEnd,
    ) -> RecvEnd
        requires { IsPassOf shared.now pass.old }
        ensures kept { IsSamePass pass.old pass.new }
        ensures closes { ClosesIf (is_worn end) end result self.old.receiving self.new.receiving pass.old pass.new }
        ensures hand { self.new.hand ≡ self.old.hand }
    {
        if is_worn(&end) {
            return end;
        }
        match self.intake.discard(shared, rt, pass) {
            Turn::Done(()) => end,
            Turn::Worn { .. } => RecvEnd::Worn,
        }
    }

    // Takes of a piece what the limit leaves. Answers how that ends the receiving, if it does.
    fn take_piece<H: Wait>(
        &mut self,
        shared: &Shared,
        rt: &H,
        pass: &mut Pass,
        piece: &[u8],
        now: Micros,
        out: &mut Vec<u8>,
        notes: &mut Vec<u8>,
    ) -> Option<RecvEnd>
        requires of { IsPassOf shared.now pass.old }
        requires sound { is_faulty self.old.hand.reading ≡ false }
        ensures kept { IsSamePass pass.old pass.new }
        ensures passes { Passes result (record { now = now; bytes = piece.now }) self.old.hand self.new.hand
            (moment self.old.receiving pass.old out.old notes.old)
            (moment self.new.receiving pass.new out.new notes.new) }
    {
        let room = LONGEST_STREAM - self.came;
        let taken = room.min(piece.len() as u64) as usize;
        let end = self.take_bytes(shared, rt, pass, &piece[..taken], now, out, notes);
        if end.is_none() && self.came == LONGEST_STREAM {
            return Some(RecvEnd::StreamLimit);
        }
        end
    }

    // Takes the records that these bytes complete.
    fn take_bytes<H: Wait>(
        &mut self,
        shared: &Shared,
        rt: &H,
        pass: &mut Pass,
        bytes: &[u8],
        now: Micros,
        out: &mut Vec<u8>,
        notes: &mut Vec<u8>,
    ) -> Option<RecvEnd>
        requires of { IsPassOf shared.now pass.old }
        requires sound { is_faulty self.old.hand.reading ≡ false }
        requires room { self.old.hand.came + length bytes.now ≤ LONGEST_STREAM }
        ensures kept { IsSamePass pass.old pass.new }
        ensures runs { Runs result now bytes.now self.old.hand self.new.hand
            (moment self.old.receiving pass.old out.old notes.old)
            (moment self.new.receiving pass.new out.new notes.new) }
    {
        // What is kept is known here.
        let _ = &self.intake;
        let mut end = None;
        let mut rest = bytes;
        while !rest.is_empty() {
            let count = self.take_first(shared, rt, pass, rest, now, out, notes, &mut end);
            if end.is_some() {
                return end;
            }
            rest = &rest[count..];
        }
        None
    }

    // Takes the record that these bytes complete first, or all of them where they complete none, and answers how many
    // bytes that are. A record that lies whole in the bytes is read where it lies. Where that ends the receiving, the
    // end is written: it has room for a class, which is not to be moved for each record.
    fn take_first<H: Wait>(
        &mut self,
        shared: &Shared,
        rt: &H,
        pass: &mut Pass,
        bytes: &[u8],
        now: Micros,
        out: &mut Vec<u8>,
        notes: &mut Vec<u8>,
        end: &mut Option<RecvEnd>,
    ) -> usize
        requires of { IsPassOf shared.now pass.old }
        requires some { 0 < length bytes.now }
        requires room { self.old.hand.came + length bytes.now ≤ LONGEST_STREAM }
        requires going { end.old ≡ None }
        ensures kept { IsSamePass pass.old pass.new }
        ensures turns { Turns (turned result end.new) now bytes.now self.old.hand self.new.hand
            (moment self.old.receiving pass.old out.old notes.old)
            (moment self.new.receiving pass.new out.new notes.new) }
    {
        let Some(found) = self.records.whole_in(bytes) else {
            return self.take_pushed(shared, rt, pass, bytes, now, out, notes, end);
        };
        take_content(
            &mut self.intake,
            shared,
            rt,
            pass,
            found.content,
            self.begins,
            now,
            out,
            notes,
            end,
        );
        let count = found.taken;
        self.came += count as u64;
        self.begins = self.came;
        self.was_long = count > LONGEST_SHORT;
        count
    }

    // The same, of a record that is joined in a buffer: one of more than one fragment, or that does not lie whole in
    // these bytes.
    fn take_pushed<H: Wait>(
        &mut self,
        shared: &Shared,
        rt: &H,
        pass: &mut Pass,
        bytes: &[u8],
        now: Micros,
        out: &mut Vec<u8>,
        notes: &mut Vec<u8>,
        end: &mut Option<RecvEnd>,
    ) -> usize
        requires of { IsPassOf shared.now pass.old }
        requires some { 0 < length bytes.now }
        requires room { self.old.hand.came + length bytes.now ≤ LONGEST_STREAM }
        requires going { end.old ≡ None }
        ensures kept { IsSamePass pass.old pass.new }
        ensures turns { Turns (turned result end.new) now bytes.now self.old.hand self.new.hand
            (moment self.old.receiving pass.old out.old notes.old)
            (moment self.new.receiving pass.new out.new notes.new) }
    {
        let mut keeper = RecordKeeper::of(self.intake.is_feeding());
        let count = match self.records.push(&mut keeper, bytes) {
            Ok(count) => count,
            Err(fault) => {
                end_by_fault(end, fault, self.begins);
                return 0;
            }
        };
        self.came += count as u64;
        let held = self.records.whole();
        let is_whole = held.is_some();
        take_held(
            &mut self.intake,
            shared,
            rt,
            pass,
            held,
            self.begins,
            now,
            out,
            notes,
            end,
        );
        self.records.next();
        match end {
            Some(_) => return count,
            None => {}
        }
        if is_whole {
            self.was_long = self.came.saturating_sub(self.begins) > LONGEST_SHORT as u64;
            self.begins = self.came;
        }
        count
    }
}

// Takes what is kept of a record that begins there, if there is one. Where that ends the receiving, the end is written.
fn take_held<H: Wait>(
    intake: &mut Intake<'_>,
    shared: &Shared,
    rt: &H,
    pass: &mut Pass,
    held: Option<Front<'_>>,
    at: u64,
    now: Micros,
    out: &mut Vec<u8>,
    notes: &mut Vec<u8>,
    end: &mut Option<RecvEnd>,
)
    requires of { IsPassOf shared.now pass.old }
    requires going { end.old ≡ None }
    ensures kept { IsSamePass pass.old pass.new }
    ensures finds { (content : Option (List ℕ)) → IsFrontIn held.entry content
        → Finds end.new now at content (moment intake.old pass.old out.old notes.old)
        (moment intake.new pass.new out.new notes.new) }
{
    let Some(held) = held else {
        return;
    };
    if held.bytes.len() < held.len as usize {
        take_front(intake, held, at, end);
    } else {
        let content = held.bytes;
        take_content(intake, shared, rt, pass, content, at, now, out, notes, end);
    }
}

// Takes the content of a record that begins there. Where that ends the receiving, the end is written.
fn take_content<H: Wait>(
    intake: &mut Intake<'_>,
    shared: &Shared,
    rt: &H,
    pass: &mut Pass,
    content: &[u8],
    at: u64,
    now: Micros,
    out: &mut Vec<u8>,
    notes: &mut Vec<u8>,
    end: &mut Option<RecvEnd>,
)
    requires of { IsPassOf shared.now pass.old }
    requires going { end.old ≡ None }
    ensures kept { IsSamePass pass.old pass.new }
    ensures finds { Finds end.new now at (Some content.now) (moment intake.old pass.old out.old notes.old)
        (moment intake.new pass.new out.new notes.new) }
{
    if intake.is_feeding() {
        match intake.take_message(shared, rt, pass, content, now, out, notes) {
            MessageEnd::Goes => {}
            by => end_by_message(end, by, at),
        }
    } else {
        take_answer(intake, content, at, out, end);
    }
}

// What has a class in place stands in functions of its own, so that nothing on the path of a feed's record has room for
// one.

#[cold]
#[inline(never)]
fn end_by_fault(end: &mut Option<RecvEnd>, fault: RpcFault, at: u64)
    ensures { end.new ≡ Some (end_of_fault fault at) }
{
    *end = Some(match fault {
        RpcFault::TooLong { .. } => RecvEnd::BadFrame { at },
        RpcFault::OutOfMemory => RecvEnd::OutOfMemory,
    });
}

// Where a message that begins there goes on, the end stays as it is.
#[cold]
#[inline(never)]
fn end_by_message(end: &mut Option<RecvEnd>, by: MessageEnd, at: u64)
    ensures { end.new ≡ end_of_message end.old by at }
{
    match by {
        MessageEnd::Goes => {}
        MessageEnd::Bad => *end = Some(RecvEnd::BadFrame { at }),
        MessageEnd::Worn => *end = Some(RecvEnd::Worn),
        MessageEnd::OutOfMemory => *end = Some(RecvEnd::OutOfMemory),
    }
}

// How the reply to a request that begins there ends the receiving, if it does.
fn end_of_answer(by: AnswerEnd, at: u64) -> Option<RecvEnd>
    ensures { result ≡ end_of_answer by at }
{
    match by {
        AnswerEnd::Goes => None,
        AnswerEnd::Bad => Some(RecvEnd::BadFrame { at }),
        AnswerEnd::Declined(answer) => Some(RecvEnd::Refused { answer }),
        AnswerEnd::OutOfMemory => Some(RecvEnd::OutOfMemory),
    }
}

// Takes the record of a reply to a request that begins there. Where that ends the receiving, the end is written.
#[cold]
#[inline(never)]
fn take_answer(
    intake: &mut Intake<'_>,
    content: &[u8],
    at: u64,
    out: &mut Vec<u8>,
    end: &mut Option<RecvEnd>,
)
    requires { is_feeding intake.old.phase ≡ false }
    ensures { (now : ℕ) (pass : PassView) (notes : List ℕ) → Finds end.new now at (Some content.now)
        (stands intake.old pass out.old.items notes) (stands intake.new pass out.new.items notes) }
{
    *end = end_of_answer(intake.take_answer(content, out), at);
}

// Takes a record that begins there and of which less is kept than all. Where that ends the receiving, the end is
// written.
#[cold]
#[inline(never)]
fn take_front(intake: &Intake<'_>, held: Front<'_>, at: u64, end: &mut Option<RecvEnd>)
    requires { end.old ≡ None }
    ensures { (content : List ℕ) (now : ℕ) (pass : PassView) (out notes : List ℕ) → IsFrontOf held.entry content
        → Finds end.new now at (Some content) (stands intake.now pass out notes) (stands intake.now pass out notes) }
{
    if intake.is_feeding() {
        end_by_message(end, intake.take_front(held), at);
    } else {
        *end = end_of_answer(intake.take_answer_front(held), at);
    }
}
