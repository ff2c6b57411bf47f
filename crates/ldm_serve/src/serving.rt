//! What reads the calls of a connection, and answers them.
ghost use Rattle.std.specs.Prelude.{◌≡◌, ◌<◌, ◌≤◌, ◌+◌, ◌^◌, ℕ, List, Option, IfOk, false, if◌then◌else◌, length};
ghost use Rattle.std.specs.Prelude.{IfNone, IfSome};
ghost use Rattle.ldm_outside.specs.Link.{IsNotClosed};
ghost use Rattle.ldm_session.specs.declared.limits.TheConstants.{LONGEST_STREAM};
ghost use Rattle.ldm_rpc.specs.Reading.{is_faulty, is_pending};
ghost use Rattle.ldm_shared.specs.Passes.{IsPassOf, IsSamePass};
ghost use Rattle.ldm_serve.specs.ClientView.{client_by};
ghost use Rattle.ldm_rpc.specs.Keeping.{IsFrontIn};
ghost use Rattle.ldm_serve.specs.Responds.{stands};
ghost use Rattle.ldm_serve.specs.ServingView.{beginning};
ghost use Rattle.ldm_serve.specs.Served.{Serves};
ghost use Rattle.ldm_serve.specs.Turns.{Turns, turned};
ghost use Rattle.ldm_serve.specs.Contents.{Finds, stop_of};
ghost use Rattle.ldm_serve.specs.Filling.{Fills};

use crate::client::Client;
use crate::responded::{RespondFault, Responded};
use crate::responding::answer;
use ldm_downstream::{LONGEST_PIECE, LONGEST_SHORT, Receiving, SHORT_PIECE};
use ldm_outside::{Awaited, Clock, Got, Link};
use ldm_relay::LARGEST_RECORD;
use ldm_rpc::{Front, KeptRecords, RpcFault};
use ldm_session::LONGEST_STREAM;
use ldm_shared::{Pass, Shared};
use std::alloc::Global;
use std::cmp::min;
use std::marker::Model;
use std::sync::Wait;

/// What the bytes of a connection came to. How the connection goes on behind its last record is written beside it.
#[derive(Clone, Copy)]
pub(crate) enum Answered {
    /// All were taken, and the session goes on.
    On,
    /// The session does not outlive the record that begins at that byte. What stands behind it was not taken.
    Over { at: u64 },
    /// The record that begins at that byte is longer than the largest one.
    TooLong { at: u64 },
    /// The queue has had all the calls that it can have.
    Worn,
    /// There is no memory.
    OutOfMemory,
}

/// What reads the calls of a connection, from its first byte on. Contracts see what is in hand of the stream.
#[derive(Drop)]
pub(crate) struct Serving {
    records: KeptRecords,
    begins: u64,
    came: u64,
    // Whether the last record that was complete was long.
    was_long: bool,
}

impl Model for Serving {
    ghost use Rattle.ldm_rpc.specs.Streams.{Position};

    ghost Value = { Position };

    ghost use Rattle.ldm_serve.specs.ServingView.{position_of, IsReady};

    ghost view = { position_of };

    ghost invariant = { IsReady };
}

impl Serving {
    /// Before the first byte of a connection. It takes no memory.
    pub(crate) fn begin(alloc: Global) -> Serving
        ensures { result ≡ beginning }
    {
        Serving {
            records: KeptRecords::create(alloc, LARGEST_RECORD),
            begins: 0,
            came: 0,
            was_long: false,
        }
    }

    /// How many bytes were taken.
    pub(crate) fn came(&self) -> u64
        ensures { result ≡ self.now.came }
    {
        self.came
    }

    /// Whether a record was begun and is not complete.
    pub(crate) fn is_pending(&self) -> bool
        ensures { result ≡ is_pending self.now.reading }
    {
        self.records.is_pending()
    }

    /// How many bytes are received in a piece at most: no more than are taken of a stream.
    pub(crate) fn piece_room(&self) -> u64
        requires room { self.now.came < LONGEST_STREAM }
        ensures some { 0 < result }
        ensures within { self.now.came + result ≤ LONGEST_STREAM }
    {
        let room = LONGEST_STREAM - self.came;
        if self.was_long {
            min(room, SHORT_PIECE as u64)
        } else {
            room
        }
    }

    /// Receives some bytes straight into the record in hand, where much of it is to come: no more of them than there is
    /// room for in the stream, nor than come in a piece. `None` where little is to come, or there is no memory: then the
    /// link was not asked.
    pub(crate) fn fill<K: Link>(&mut self, link: &mut K, room: u64, awaited: Awaited) -> Option<Got>
        requires not_closed { IsNotClosed (K.tells link.old) }
        requires room { self.old.came + room < 2 ^ 64 }
        ensures none { IfNone result ((self.new ≡ self.old) × (link.new ≡ link.old)) }
        ensures fills { IfSome result
            (λ got. Fills got room self.old self.new (K.tells link.old) (K.tells link.new)) }
    {
        let most = room.min(LONGEST_PIECE as u64) as usize;
        let mut receiving = Receiving::of(awaited);
        let count = self.records.fill(&mut receiving, link, most)?;
        self.came += count as u64;
        Some(receiving.got())
    }

    /// Takes bytes, and answers the records that they complete, one behind the other, up to one that the session does
    /// not outlive. What the peer is owed is appended to `out`, and how the connection goes on behind that last record
    /// is written to `next`.
    pub(crate) fn answer<H: Wait, C: Clock>(
        &mut self,
        rt: &H,
        shared: &Shared,
        pass: &mut Pass,
        clock: &mut C,
        client: &mut Client<'_>,
        bytes: &[u8],
        out: &mut Vec<u8>,
        next: &mut Responded,
    ) -> Answered
        requires of { IsPassOf shared.now pass.old }
        requires sound { is_faulty self.old.reading ≡ false }
        requires room { self.old.came + length bytes.now < 2 ^ 64 }
        requires going { next.old ≡ Responded.GoesOn }
        ensures kept { IsSamePass pass.old pass.new }
        ensures same { client.new ≡ client.old }
        ensures on { result ≡ Answered.On → next.new ≡ Responded.GoesOn }
        ensures serves { Serves result next.new (client_by client.old pass.old.actor) self.old bytes.now self.new
            (stands pass.old (C.tells clock.old) out.old.items) (stands pass.new (C.tells clock.new) out.new.items) }
    {
        // What is kept is known here.
        let _ = &self.records;
        let mut rest = bytes;
        while !rest.is_empty() {
            match self.answer_first(rt, shared, pass, clock, client, rest, out, next) {
                Ok(count) => rest = &rest[count..],
                Err(stop) => return stop,
            }
        }
        Answered::On
    }

    // Takes the record that these bytes complete first, or all of them where they complete none, and answers it. Tells
    // how many bytes that are, or how the record ends the session. A record that lies whole in the bytes is read where
    // it lies.
    fn answer_first<H: Wait, C: Clock>(
        &mut self,
        rt: &H,
        shared: &Shared,
        pass: &mut Pass,
        clock: &mut C,
        client: &mut Client<'_>,
        bytes: &[u8],
        out: &mut Vec<u8>,
        next: &mut Responded,
    ) -> Result<usize, Answered>
        requires of { IsPassOf shared.now pass.old }
        requires some { 0 < length bytes.now }
        requires room { self.old.came + length bytes.now < 2 ^ 64 }
        requires going { next.old ≡ Responded.GoesOn }
        ensures kept { IsSamePass pass.old pass.new }
        ensures same { client.new ≡ client.old }
        ensures going { IfOk result (λ _. next.new ≡ Responded.GoesOn) }
        ensures turns { Turns result next.new (client_by client.old pass.old.actor) self.old bytes.now self.new
            (stands pass.old (C.tells clock.old) out.old.items) (stands pass.new (C.tells clock.new) out.new.items) }
    {
        let Some(found) = self.records.whole_in(bytes) else {
            return self.answer_pushed(rt, shared, pass, clock, client, bytes, out, next);
        };
        let held = Some(Front {
            bytes: found.content,
            len: found.content.len() as u32,
        });
        let answered = answer_held(rt, shared, pass, clock, client, held, out, next);
        let stop = stop_of(answered, next, self.begins);
        let count = found.taken;
        self.came += count as u64;
        self.begins = self.came;
        self.was_long = count > LONGEST_SHORT;
        turned(count, stop)
    }

    // The same, of a record that is joined in a buffer: one of more than one fragment, or that does not lie whole in
    // these bytes.
    fn answer_pushed<H: Wait, C: Clock>(
        &mut self,
        rt: &H,
        shared: &Shared,
        pass: &mut Pass,
        clock: &mut C,
        client: &mut Client<'_>,
        bytes: &[u8],
        out: &mut Vec<u8>,
        next: &mut Responded,
    ) -> Result<usize, Answered>
        requires of { IsPassOf shared.now pass.old }
        requires some { 0 < length bytes.now }
        requires room { self.old.came + length bytes.now < 2 ^ 64 }
        requires going { next.old ≡ Responded.GoesOn }
        ensures kept { IsSamePass pass.old pass.new }
        ensures same { client.new ≡ client.old }
        ensures going { IfOk result (λ _. next.new ≡ Responded.GoesOn) }
        ensures turns { Turns result next.new (client_by client.old pass.old.actor) self.old bytes.now self.new
            (stands pass.old (C.tells clock.old) out.old.items) (stands pass.new (C.tells clock.new) out.new.items) }
    {
        let at = self.begins;
        let count = match self.records.push(client, bytes) {
            Ok(count) => count,
            Err(RpcFault::TooLong { .. }) => return Err(Answered::TooLong { at }),
            Err(RpcFault::OutOfMemory) => return Err(Answered::OutOfMemory),
        };
        self.came += count as u64;
        let held = self.records.whole();
        let is_whole = held.is_some();
        let was_long = held.map_or(self.was_long, |front| front.len as usize > LONGEST_SHORT);
        let answered = answer_held(rt, shared, pass, clock, client, held, out, next);
        self.records.next();
        self.begins = begins_behind(is_whole, at, self.came);
        self.was_long = was_long;
        turned(count, stop_of(answered, next, at))
    }
}

// Answers a record, if there is one.
fn answer_held<H: Wait, C: Clock>(
    rt: &H,
    shared: &Shared,
    pass: &mut Pass,
    clock: &mut C,
    client: &mut Client<'_>,
    held: Option<Front<'_>>,
    out: &mut Vec<u8>,
    next: &mut Responded,
) -> Result<(), RespondFault>
    requires of { IsPassOf shared.now pass.old }
    requires going { next.old ≡ Responded.GoesOn }
    ensures kept { IsSamePass pass.old pass.new }
    ensures same { client.new ≡ client.old }
    ensures finds { (at : ℕ) (content : Option (List ℕ)) → IsFrontIn held.entry content
        → Finds (stop_of result next.new at) next.new (client_by client.old pass.old.actor) at content
        (stands pass.old (C.tells clock.old) out.old.items) (stands pass.new (C.tells clock.new) out.new.items) }
{
    match held {
        Some(held) => answer(rt, shared, pass, clock, client, held, out, next),
        None => Ok(()),
    }
}

// Where the record in hand begins, behind one that is complete or in it.
fn begins_behind(is_whole: bool, at: u64, came: u64) -> u64
    ensures { result ≡ (if is_whole then came else at) }
{
    if is_whole { came } else { at }
}

// How a record that begins there ends the session, if it does.
fn stop_of(answered: Result<(), RespondFault>, next: &Responded, at: u64) -> Answered
    ensures { result ≡ stop_of answered next.now at }
{
    match answered {
        Ok(()) => match next {
            Responded::GoesOn => Answered::On,
            _ => Answered::Over { at },
        },
        Err(RespondFault::Worn) => Answered::Worn,
        Err(RespondFault::OutOfMemory) => Answered::OutOfMemory,
    }
}

// How many bytes were taken, or how that ends the session.
fn turned(count: usize, stop: Answered) -> Result<usize, Answered>
    ensures { result ≡ turned count stop }
{
    match stop {
        Answered::On => Ok(count),
        stop => Err(stop),
    }
}
