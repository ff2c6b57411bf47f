//! A receiver, with what its peer is owed and what is to be logged.
ghost use Rattle.std.specs.Prelude.{◌≡◌, ◌≤◌, [], ℕ, List, true, false, IfOk, IfNone, None};
ghost use Rattle.std.specs.Option.{option_map};
ghost use Rattle.ldm_outside.specs.Clock.{ClockRecord};
ghost use Rattle.ldm_outside.specs.Link.{IsNotClosed};
ghost use Rattle.ldm_outside.specs.Session.{SessionRecord};
ghost use Rattle.ldm_shared.specs.Passes.{IsPassOf, IsSamePass};
ghost use Rattle.ldm_intake.specs.Opening.{accepting, request_of, requesting};
ghost use Rattle.ldm_relay.specs.Spelling.{records_of};
ghost use Rattle.ldm_downstream.specs.Pieces.{beginning};
ghost use Rattle.ldm_downstream.specs.Receives.{at_first};
ghost use Rattle.ldm_downstream.specs.ReceiverView.{before_stream};
ghost use Rattle.ldm_downstream.specs.Sessions.{HasCome, IsReady, Rounds, WritesAt, outside_of, settled};

use crate::receiver::Receiver;
use ldm_class::{Class, Policy};
use ldm_intake::RecvEnd;
use ldm_outside::{Link, Sink, send_all, write_all};
use ldm_shared::{Pass, Shared};
use ldm_types::{Micros, OutOfMemory, Signature};
use std::alloc::Global;
use std::sync::Wait;

// A receiver, and buffers for what its peer is owed and for log lines.
#[derive(Drop)]
pub(crate) struct Taker<'a> {
    pub(crate) receiver: Receiver<'a>,
    pub(crate) out: Vec<u8>,
    pub(crate) notes: Vec<u8>,
}

impl<'a> Taker<'a> {
    // Before the request for a class is sent: it is owed.
    pub(crate) fn request(
        alloc: Global,
        class: &'a Class,
        last: Option<Signature>,
        max_hereis: u32,
    ) -> Result<Taker<'a>, OutOfMemory>
        ensures receiver { IfOk result
            (λ taker. taker.receiver ≡ before_stream
            (requesting class.now (option_map (λ signature. signature.0) last) max_hereis) false) }
        ensures owed { IfOk result
            (λ taker. taker.out.items ≡ records_of
            (request_of (requesting class.now (option_map (λ signature. signature.0) last) max_hereis))) }
        ensures no_notes { IfOk result (λ taker. taker.notes.items ≡ []) }
    {
        let mut receiver = Receiver::request(alloc, class, last, max_hereis)?;
        let mut out = Vec::new(alloc);
        receiver.begin(&mut out)?;
        Ok(Taker {
            receiver,
            out,
            notes: Vec::new(alloc),
        })
    }

    // Before what a host pushes: nothing is owed.
    pub(crate) fn accept(
        alloc: Global,
        class: &'a Class,
        policy: &'a Policy,
        host: &[u8],
    ) -> Result<Taker<'a>, OutOfMemory>
        ensures receiver { IfOk result
            (λ taker. taker.receiver ≡ before_stream (accepting class.now policy.now host.now) false) }
        ensures ready { IfOk result (λ taker. IsReady taker.out.items taker.notes.items) }
    {
        Ok(Taker {
            receiver: Receiver::accept(alloc, class, policy, host)?,
            out: Vec::new(alloc),
            notes: Vec::new(alloc),
        })
    }

    // Sends the request that is owed, before a piece came.
    pub(crate) fn ask<H: Wait, K: Link, E: Sink>(
        &mut self,
        rt: &H,
        shared: &Shared,
        pass: &mut Pass,
        link: &mut K,
        log: &mut E,
    ) -> Option<RecvEnd>
        requires of { IsPassOf shared.now pass.old }
        requires not_closed { IsNotClosed (K.tells link.old) }
        requires begins { (self.old.receiver.hand ≡ beginning) × (self.old.receiver.end ≡ None) }
        requires owed { self.old.out.items ≡ records_of (request_of self.old.receiver.receiving) }
        requires no_notes { self.old.notes.items ≡ [] }
        ensures kept { IsSamePass pass.old pass.new }
        ensures still_open { IsNotClosed (K.tells link.new) }
        ensures faults_kept { ((K.tells link.old).faults ≤ (K.tells link.new).faults)
            × ((E.tells log.old).faults ≤ (E.tells log.new).faults) }
        ensures ends_kept { (K.tells link.new).ends ≡ (K.tells link.old).ends }
        ensures ready { IfNone result (IsReady self.new.out.items self.new.notes.items) }
        ensures rounds { (clock : ClockRecord)
            → Rounds result [] self.new.receiver pass.new beginning (at_first self.old.receiver.receiving pass.old)
            (outside_of (K.tells link.old) (E.tells log.old) clock)
            (outside_of (K.tells link.new) (E.tells log.new) clock) }
    {
        match self.write(link, log) {
            Some(fault) => Some(self.receiver.fail(shared, rt, pass, fault)),
            None => None,
        }
    }

    // Takes a piece that came at that moment. Answers the end, where it came to one.
    pub(crate) fn take<H: Wait, K: Link, E: Sink>(
        &mut self,
        rt: &H,
        shared: &Shared,
        pass: &mut Pass,
        link: &mut K,
        log: &mut E,
        piece: &[u8],
        now: Micros,
    ) -> Option<RecvEnd>
        requires of { IsPassOf shared.now pass.old }
        requires not_closed { IsNotClosed (K.tells link.old) }
        requires live { self.old.receiver.end ≡ None }
        requires ready { IsReady self.old.out.items self.old.notes.items }
        ensures kept { IsSamePass pass.old pass.new }
        ensures still_open { IsNotClosed (K.tells link.new) }
        ensures faults_kept { ((K.tells link.old).faults ≤ (K.tells link.new).faults)
            × ((E.tells log.old).faults ≤ (E.tells log.new).faults) }
        ensures ends_kept { (K.tells link.new).ends ≡ (K.tells link.old).ends }
        ensures live { IfNone result (self.new.receiver.end ≡ None) }
        ensures ready { IfNone result (IsReady self.new.out.items self.new.notes.items) }
        ensures takes { (ahead : List ℕ) (begins : SessionRecord) (clock : ClockRecord)
            → HasCome ahead (record { now = now; bytes = piece.now }) begins
            (outside_of (K.tells link.old) (E.tells log.old) clock)
            → Rounds result ahead self.new.receiver pass.new self.old.receiver.hand
            (settled self.old.receiver.receiving pass.old) begins
            (outside_of (K.tells link.new) (E.tells log.new) clock) }
    {
        self.receiver.push(shared, rt, pass, piece, now, &mut self.out, &mut self.notes);
        match self.write(link, log) {
            Some(fault) => Some(self.receiver.fail(shared, rt, pass, fault)),
            None => self.receiver.over(),
        }
    }

    // Sends what the peer is owed, and writes the log lines.
    fn write<K: Link, E: Sink>(&mut self, link: &mut K, log: &mut E) -> Option<RecvEnd>
        requires { IsNotClosed (K.tells link.old) }
        ensures writes { WritesAt result self.old.out.items self.old.notes.items (K.tells link.old) (K.tells link.new)
            (E.tells log.old) (E.tells log.new) }
        ensures empty { IfNone result ((self.new.out.items ≡ []) × (self.new.notes.items ≡ [])) }
        ensures same { self.new.receiver ≡ self.old.receiver }
        ensures faults_kept { ((K.tells link.old).faults ≤ (K.tells link.new).faults)
            × ((E.tells log.old).faults ≤ (E.tells log.new).faults) }
        ensures ends_kept { (K.tells link.new).ends ≡ (K.tells link.old).ends }
        ensures still_open { IsNotClosed (K.tells link.new) }
    {
        if send_all(link, self.out.as_slice()).is_err() {
            return Some(RecvEnd::LinkFault);
        }
        self.out.clear();
        if write_all(log, self.notes.as_slice()).is_err() {
            return Some(RecvEnd::LogFault);
        }
        self.notes.clear();
        None
    }
}
