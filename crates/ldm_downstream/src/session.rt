//! Receiving over a link.
ghost use Rattle.std.specs.Prelude.{◌≡◌, ◌<◌, ◌≤◌, [], ℕ, List, true, false, IfOk, IfNone, None, length};
ghost use Rattle.std.specs.Option.{option_map};
ghost use Rattle.std.specs.Vec.{vec_len};
ghost use Rattle.ldm_outside.specs.Link.{IsNotClosed, RecvGives};
ghost use Rattle.ldm_outside.specs.Session.{SessionRecord, KeepsFaults, ungated_tells};
ghost use Rattle.ldm_rpc.specs.Streams.{Position};
ghost use Rattle.ldm_shared.specs.Passes.{IsPassOf, IsSamePass};
ghost use Rattle.ldm_intake.specs.Opening.{accepting, request_of, requesting};
ghost use Rattle.ldm_relay.specs.Spelling.{records_of};
ghost use Rattle.ldm_intake.specs.TakesRecord.{Standing};
ghost use Rattle.ldm_downstream.specs.Complete.{Completes};
ghost use Rattle.ldm_downstream.specs.Pieces.{beginning};
ghost use Rattle.ldm_downstream.specs.Receives.{ReceivesAll, at_first};
ghost use Rattle.ldm_downstream.specs.ReceiverView.{before_stream};
ghost use Rattle.ldm_downstream.specs.Sessions.{HasCome, IsFew, IsReady, Rounds, RunsOn, RunsOut, settled};

use crate::limits::LONGEST_PIECE;
use crate::taker::Taker;
use ldm_class::{Class, Policy};
use ldm_intake::RecvEnd;
use ldm_outside::{Awaited, Clock, Got, Link, Sink};
use ldm_shared::{Pass, Shared};
use ldm_types::{Micros, OutOfMemory, Signature};
use std::alloc::Global;
use std::sync::Wait;

/// What receiving over a link came to.
#[derive(Drop)]
pub struct Received {
    pub end: RecvEnd,
    /// The signature of the last product that was offered to the queue or declined, or the one that was given.
    pub last: Option<Signature>,
}

/// Asks a peer for the products of a class, behind the last one that was received, if there is one, and receives what
/// it feeds until the end of the stream, or until something ends it.
pub fn receive<H: Wait, K: Link, E: Sink, C: Clock>(
    rt: &H,
    alloc: Global,
    shared: &Shared,
    pass: &mut Pass,
    link: &mut K,
    log: &mut E,
    clock: &mut C,
    class: &Class,
    last: Option<Signature>,
    max_hereis: u32,
) -> Received
    requires of { IsPassOf shared.now pass.old }
    requires not_closed { IsNotClosed (K.tells link.old) }
    ensures kept { IsSamePass pass.old pass.new }
    ensures still_open { IsNotClosed (K.tells link.new) }
    ensures counts { KeepsFaults (ungated_tells K.tells E.tells C.tells link.old log.old clock.old)
        (ungated_tells K.tells E.tells C.tells link.new log.new clock.new) }
    ensures receives { ReceivesAll result.end (option_map (λ signature. signature.0) result.last)
        (requesting class.now (option_map (λ signature. signature.0) last) max_hereis) [] pass.old pass.new
        (ungated_tells K.tells E.tells C.tells link.old log.old clock.old)
        (ungated_tells K.tells E.tells C.tells link.new log.new clock.new) }
    ensures completes { Completes result.end
        (requesting class.now (option_map (λ signature. signature.0) last) max_hereis) [] pass.old pass.new
        (ungated_tells K.tells E.tells C.tells link.old log.old clock.old)
        (ungated_tells K.tells E.tells C.tells link.new log.new clock.new) }
{
    match Session::request(alloc, class, last, max_hereis) {
        Ok(mut session) => {
            let end = session.run_asking(rt, shared, pass, link, log, clock);
            Received {
                end,
                last: session.taker.receiver.last(),
            }
        }
        Err(OutOfMemory) => Received {
            end: RecvEnd::OutOfMemory,
            last,
        },
    }
}

/// Receives what a host pushes, whose offer of a class was accepted, until the end of the stream, or until something
/// ends it: those products that the ACCEPT rules let it push.
///
/// The link may have given bytes that nobody looked at, with the offer or behind it: these are `ahead`. They are the
/// first piece, where there are some, and places count from the first of them.
pub fn receive_pushed<H: Wait, K: Link, E: Sink, C: Clock>(
    rt: &H,
    alloc: Global,
    shared: &Shared,
    pass: &mut Pass,
    link: &mut K,
    log: &mut E,
    clock: &mut C,
    host: &[u8],
    class: &Class,
    policy: &Policy,
    ahead: &[u8],
) -> Received
    requires of { IsPassOf shared.now pass.old }
    requires not_closed { IsNotClosed (K.tells link.old) }
    ensures kept { IsSamePass pass.old pass.new }
    ensures still_open { IsNotClosed (K.tells link.new) }
    ensures counts { KeepsFaults (ungated_tells K.tells E.tells C.tells link.old log.old clock.old)
        (ungated_tells K.tells E.tells C.tells link.new log.new clock.new) }
    ensures receives { ReceivesAll result.end (option_map (λ signature. signature.0) result.last)
        (accepting class.now policy.now host.now) ahead.now pass.old pass.new
        (ungated_tells K.tells E.tells C.tells link.old log.old clock.old)
        (ungated_tells K.tells E.tells C.tells link.new log.new clock.new) }
    ensures completes { Completes result.end (accepting class.now policy.now host.now) ahead.now pass.old pass.new
        (ungated_tells K.tells E.tells C.tells link.old log.old clock.old)
        (ungated_tells K.tells E.tells C.tells link.new log.new clock.new) }
{
    if ahead.is_empty() {
        match Session::accept(alloc, class, policy, host) {
            Ok(mut session) => {
                let end = session.run(rt, shared, pass, link, log, clock);
                Received {
                    end,
                    last: session.taker.receiver.last(),
                }
            }
            Err(OutOfMemory) => Received {
                end: RecvEnd::OutOfMemory,
                last: None,
            },
        }
    } else {
        receive_behind(
            rt, alloc, shared, pass, link, log, clock, host, class, policy, ahead,
        )
    }
}

// The same, where bytes are there already: their moment does not wait for memory.
fn receive_behind<H: Wait, K: Link, E: Sink, C: Clock>(
    rt: &H,
    alloc: Global,
    shared: &Shared,
    pass: &mut Pass,
    link: &mut K,
    log: &mut E,
    clock: &mut C,
    host: &[u8],
    class: &Class,
    policy: &Policy,
    ahead: &[u8],
) -> Received
    requires of { IsPassOf shared.now pass.old }
    requires not_closed { IsNotClosed (K.tells link.old) }
    ensures kept { IsSamePass pass.old pass.new }
    ensures still_open { IsNotClosed (K.tells link.new) }
    ensures counts { KeepsFaults (ungated_tells K.tells E.tells C.tells link.old log.old clock.old)
        (ungated_tells K.tells E.tells C.tells link.new log.new clock.new) }
    ensures receives { ReceivesAll result.end (option_map (λ signature. signature.0) result.last)
        (accepting class.now policy.now host.now) ahead.now pass.old pass.new
        (ungated_tells K.tells E.tells C.tells link.old log.old clock.old)
        (ungated_tells K.tells E.tells C.tells link.new log.new clock.new) }
{
    let now = clock.now();
    match Session::accept(alloc, class, policy, host) {
        Ok(mut session) => {
            let end = session.run_behind(rt, shared, pass, link, log, clock, ahead, now);
            Received {
                end,
                last: session.taker.receiver.last(),
            }
        }
        Err(OutOfMemory) => Received {
            end: RecvEnd::OutOfMemory,
            last: None,
        },
    }
}

// What takes pieces, and the memory for one.
#[derive(Drop)]
struct Session<'a> {
    taker: Taker<'a>,
    piece: Vec<u8>,
}

impl<'a> Session<'a> {
    // Before the request for a class is sent.
    fn request(
        alloc: Global,
        class: &'a Class,
        last: Option<Signature>,
        max_hereis: u32,
    ) -> Result<Session<'a>, OutOfMemory>
        ensures receiver { IfOk result
            (λ session. session.taker.receiver ≡ before_stream
            (requesting class.now (option_map (λ signature. signature.0) last) max_hereis) false) }
        ensures owed { IfOk result
            (λ session. session.taker.out.items ≡ records_of
            (request_of (requesting class.now (option_map (λ signature. signature.0) last) max_hereis))) }
        ensures no_notes { IfOk result (λ session. session.taker.notes.items ≡ []) }
        ensures room { IfOk result (λ session. 0 < vec_len session.piece) }
    {
        Ok(Session {
            taker: Taker::request(alloc, class, last, max_hereis)?,
            piece: vec![in alloc; 0u8; LONGEST_PIECE]?,
        })
    }

    // Before what a host pushes.
    fn accept(
        alloc: Global,
        class: &'a Class,
        policy: &'a Policy,
        host: &[u8],
    ) -> Result<Session<'a>, OutOfMemory>
        ensures receiver { IfOk result
            (λ session. session.taker.receiver ≡ before_stream (accepting class.now policy.now host.now) false) }
        ensures ready { IfOk result (λ session. IsReady session.taker.out.items session.taker.notes.items) }
        ensures room { IfOk result (λ session. 0 < vec_len session.piece) }
    {
        Ok(Session {
            taker: Taker::accept(alloc, class, policy, host)?,
            piece: vec![in alloc; 0u8; LONGEST_PIECE]?,
        })
    }

    // Sends the request, and receives until it ends.
    fn run_asking<H: Wait, K: Link, E: Sink, C: Clock>(
        &mut self,
        rt: &H,
        shared: &Shared,
        pass: &mut Pass,
        link: &mut K,
        log: &mut E,
        clock: &mut C,
    ) -> RecvEnd
        requires of { IsPassOf shared.now pass.old }
        requires not_closed { IsNotClosed (K.tells link.old) }
        requires begins { (self.old.taker.receiver.hand ≡ beginning) × (self.old.taker.receiver.end ≡ None) }
        requires owed { self.old.taker.out.items ≡ records_of (request_of self.old.taker.receiver.receiving) }
        requires no_notes { self.old.taker.notes.items ≡ [] }
        requires room { 0 < vec_len self.old.piece }
        ensures kept { IsSamePass pass.old pass.new }
        ensures still_open { IsNotClosed (K.tells link.new) }
        ensures counts { KeepsFaults (ungated_tells K.tells E.tells C.tells link.old log.old clock.old)
            (ungated_tells K.tells E.tells C.tells link.new log.new clock.new) }
        ensures runs_out { RunsOut result [] self.new.taker.receiver pass.new beginning
            (at_first self.old.taker.receiver.receiving pass.old)
            (ungated_tells K.tells E.tells C.tells link.old log.old clock.old)
            (ungated_tells K.tells E.tells C.tells link.new log.new clock.new) }
    {
        match self.taker.ask(rt, shared, pass, link, log) {
            Some(end) => end,
            None => self.run(rt, shared, pass, link, log, clock),
        }
    }

    // Takes the first piece, which came at that moment, and receives until it ends.
    fn run_behind<H: Wait, K: Link, E: Sink, C: Clock>(
        &mut self,
        rt: &H,
        shared: &Shared,
        pass: &mut Pass,
        link: &mut K,
        log: &mut E,
        clock: &mut C,
        first: &[u8],
        now: Micros,
    ) -> RecvEnd
        requires of { IsPassOf shared.now pass.old }
        requires not_closed { IsNotClosed (K.tells link.old) }
        requires live { self.old.taker.receiver.end ≡ None }
        requires ready { IsReady self.old.taker.out.items self.old.taker.notes.items }
        requires room { 0 < vec_len self.old.piece }
        ensures kept { IsSamePass pass.old pass.new }
        ensures still_open { IsNotClosed (K.tells link.new) }
        ensures counts { KeepsFaults (ungated_tells K.tells E.tells C.tells link.old log.old clock.old)
            (ungated_tells K.tells E.tells C.tells link.new log.new clock.new) }
        ensures runs_out { (ahead : List ℕ) (begins : SessionRecord)
            → HasCome ahead (record { now = now; bytes = first.now }) begins
            (ungated_tells K.tells E.tells C.tells link.old log.old clock.old)
            → KeepsFaults begins (ungated_tells K.tells E.tells C.tells link.old log.old clock.old)
            → RunsOut result ahead self.new.taker.receiver pass.new self.old.taker.receiver.hand
            (settled self.old.taker.receiver.receiving pass.old) begins
            (ungated_tells K.tells E.tells C.tells link.new log.new clock.new) }
    {
        match self.taker.take(rt, shared, pass, link, log, first, now) {
            Some(end) => end,
            None => self.run(rt, shared, pass, link, log, clock),
        }
    }

    // Receives until it ends. It goes on from anywhere.
    fn run<H: Wait, K: Link, E: Sink, C: Clock>(
        &mut self,
        rt: &H,
        shared: &Shared,
        pass: &mut Pass,
        link: &mut K,
        log: &mut E,
        clock: &mut C,
    ) -> RecvEnd
        requires of { IsPassOf shared.now pass.old }
        requires not_closed { IsNotClosed (K.tells link.old) }
        requires live { self.old.taker.receiver.end ≡ None }
        requires ready { IsReady self.old.taker.out.items self.old.taker.notes.items }
        requires room { 0 < vec_len self.old.piece }
        ensures kept { IsSamePass pass.old pass.new }
        ensures still_open { IsNotClosed (K.tells link.new) }
        ensures counts { KeepsFaults (ungated_tells K.tells E.tells C.tells link.old log.old clock.old)
            (ungated_tells K.tells E.tells C.tells link.new log.new clock.new) }
        ensures runs_out { (ahead : List ℕ) (p : Position) (first : Standing) (begins : SessionRecord)
            → RunsOn ahead self.old.taker.receiver pass.old p first begins
            (ungated_tells K.tells E.tells C.tells link.old log.old clock.old)
            → KeepsFaults begins (ungated_tells K.tells E.tells C.tells link.old log.old clock.old)
            → RunsOut result ahead self.new.taker.receiver pass.new p first begins
            (ungated_tells K.tells E.tells C.tells link.new log.new clock.new) }
    {
        for _ in rt.forever() {
            match self.turn(rt, shared, pass, link, log, clock) {
                Some(end) => return end,
                None => {}
            }
        }
        unreachable!()
    }

    // Receives some bytes and takes them: straight into the record in hand where much of it is to come, and else a
    // piece. Answers the end, where it came to one.
    fn turn<H: Wait, K: Link, E: Sink, C: Clock>(
        &mut self,
        rt: &H,
        shared: &Shared,
        pass: &mut Pass,
        link: &mut K,
        log: &mut E,
        clock: &mut C,
    ) -> Option<RecvEnd>
        requires of { IsPassOf shared.now pass.old }
        requires not_closed { IsNotClosed (K.tells link.old) }
        requires live { self.old.taker.receiver.end ≡ None }
        requires ready { IsReady self.old.taker.out.items self.old.taker.notes.items }
        requires room { 0 < vec_len self.old.piece }
        ensures kept { IsSamePass pass.old pass.new }
        ensures still_open { IsNotClosed (K.tells link.new) }
        ensures counts { KeepsFaults (ungated_tells K.tells E.tells C.tells link.old log.old clock.old)
            (ungated_tells K.tells E.tells C.tells link.new log.new clock.new) }
        ensures ready { IfNone result (IsReady self.new.taker.out.items self.new.taker.notes.items) }
        ensures room { 0 < vec_len self.new.piece }
        ensures rounds { Rounds result [] self.new.taker.receiver pass.new self.old.taker.receiver.hand
            (settled self.old.taker.receiver.receiving pass.old)
            (ungated_tells K.tells E.tells C.tells link.old log.old clock.old)
            (ungated_tells K.tells E.tells C.tells link.new log.new clock.new) }
    {
        let awaited = Awaited::Feed.or_rest(self.taker.receiver.is_within());
        let Some(got) = self.taker.receiver.fill(link, awaited) else {
            return self.take_piece(rt, shared, pass, link, log, clock, awaited);
        };
        match got {
            Got::Bytes(_) => {
                // They are a piece as any other, which has its moment.
                let _moment = clock.now();
                None
            }
            Got::End => Some(self.taker.receiver.close(shared, rt, pass)),
            Got::Failed => Some(
                self.taker
                    .receiver
                    .fail(shared, rt, pass, RecvEnd::LinkFault),
            ),
        }
    }

    // Receives a piece and takes it. Answers the end, where it came to one.
    fn take_piece<H: Wait, K: Link, E: Sink, C: Clock>(
        &mut self,
        rt: &H,
        shared: &Shared,
        pass: &mut Pass,
        link: &mut K,
        log: &mut E,
        clock: &mut C,
        awaited: Awaited,
    ) -> Option<RecvEnd>
        requires of { IsPassOf shared.now pass.old }
        requires not_closed { IsNotClosed (K.tells link.old) }
        requires live { self.old.taker.receiver.end ≡ None }
        requires ready { IsReady self.old.taker.out.items self.old.taker.notes.items }
        requires room { 0 < vec_len self.old.piece }
        ensures kept { IsSamePass pass.old pass.new }
        ensures still_open { IsNotClosed (K.tells link.new) }
        ensures counts { KeepsFaults (ungated_tells K.tells E.tells C.tells link.old log.old clock.old)
            (ungated_tells K.tells E.tells C.tells link.new log.new clock.new) }
        ensures ready { IfNone result (IsReady self.new.taker.out.items self.new.taker.notes.items) }
        ensures room { 0 < vec_len self.new.piece }
        ensures rounds { Rounds result [] self.new.taker.receiver pass.new self.old.taker.receiver.hand
            (settled self.old.taker.receiver.receiving pass.old)
            (ungated_tells K.tells E.tells C.tells link.old log.old clock.old)
            (ungated_tells K.tells E.tells C.tells link.new log.new clock.new) }
    {
        let most = self.taker.receiver.piece_room();
        match receive_piece(link, self.piece.as_mut_slice(), most, awaited) {
            Got::Bytes(count) => {
                let now = clock.now();
                let piece = &self.piece[..count];
                self.taker.take(rt, shared, pass, link, log, piece, now)
            }
            Got::End => Some(self.taker.receiver.close(shared, rt, pass)),
            Got::Failed => Some(
                self.taker
                    .receiver
                    .fail(shared, rt, pass, RecvEnd::LinkFault),
            ),
        }
    }
}

// Receives a piece, of so many bytes at most.
fn receive_piece<K: Link>(link: &mut K, piece: &mut [u8], most: usize, awaited: Awaited) -> Got
    requires not_closed { IsNotClosed (K.tells link.old) }
    requires some { 0 < length piece.old }
    requires room { 0 < most }
    ensures given { RecvGives result piece.new (K.tells link.old) (K.tells link.new) }
    ensures few { IsFew result most }
    ensures faults_kept { (K.tells link.old).faults ≤ (K.tells link.new).faults }
    ensures ends_kept { (K.tells link.old).ends ≤ (K.tells link.new).ends }
    ensures still_open { IsNotClosed (K.tells link.new) }
{
    let most = most.min(piece.len());
    link.recv(&mut piece[..most], awaited)
}
