//! A receiver that is given a stream in pieces.
ghost use Rattle.std.specs.Prelude.{◌≡◌, ◌<◌, ◌≤◌, ◌++◌, ◌∷◌, [], true, false, IfNone, IfOk, IfSome, OnOk, OnErr, None, Some, cond};
ghost use Rattle.std.specs.Option.{option_map};
ghost use Rattle.ldm_outside.specs.Link.{IsNotClosed};
ghost use Rattle.ldm_shared.specs.Passes.{IsPassOf, IsSamePass};
ghost use Rattle.ldm_intake.specs.Opening.{requesting, accepting, request_of};
ghost use Rattle.ldm_relay.specs.Spelling.{records_of};
ghost use Rattle.ldm_downstream.specs.declared.limits.TheConstants.{LONGEST_PIECE};
ghost use Rattle.ldm_downstream.specs.Filling.{Fills};

use crate::ends::{copied_end, is_worn};
use crate::stream::Stream;
use ldm_class::{Class, Policy};
use ldm_intake::{Intake, RecvEnd};
use ldm_outside::{Awaited, Got, Link};
use ldm_shared::{Pass, Shared};
use ldm_types::{Micros, OutOfMemory, Signature};
use std::alloc::Global;
use std::marker::Model;
use std::sync::Wait;

/// What pushing a piece came to.
#[derive(Drop)]
pub enum Pushed {
    /// The receiving goes on.
    On,
    /// It is over.
    Over(RecvEnd),
    /// It is over, since there is no memory.
    OutOfMemory,
}

/// A receiver that is given a stream in pieces, of any size.
#[derive(Drop)]
pub struct Receiver<'a> {
    stream: Stream<'a>,
    owes: bool,
    end: Option<RecvEnd>,
}

impl<'a> Model for Receiver<'a> {
    ghost use Rattle.ldm_downstream.specs.ReceiverView.{ReceiverView};

    ghost Value = { ReceiverView };

    ghost use Rattle.ldm_downstream.specs.Inside.{receiver_of, IsKept};

    ghost view = { receiver_of };

    ghost invariant = { IsKept };
}

impl<'a> Receiver<'a> {
    ghost use Rattle.ldm_downstream.specs.ReceiverView.{before_stream, moment};
    ghost use Rattle.ldm_downstream.specs.Received.{GoesOnAt, at_stream_end, is_within};
    ghost use Rattle.ldm_downstream.specs.Pushing.{PushesAt, Finishes, FailsAt, EndsAt, answer_of};

    /// A receiver that asks for the products of a class, behind the last one that was received, if there is one.
    /// Products of more than `max_hereis` bytes are to come in blocks.
    pub fn request(
        alloc: Global,
        class: &'a Class,
        last: Option<Signature>,
        max_hereis: u32,
    ) -> Result<Receiver<'a>, OutOfMemory>
        ensures { IfOk result
            (λ receiver. receiver ≡ before_stream
            (requesting class.now (option_map (λ signature. signature.0) last) max_hereis) true) }
    {
        let intake = Intake::request(alloc, class, last, max_hereis)?;
        Ok(Receiver {
            stream: Stream::begin(alloc, intake),
            owes: true,
            end: None,
        })
    }

    /// A receiver of what a host pushes, whose offer of a class was accepted: those products that the ACCEPT rules let
    /// it push.
    pub fn accept(
        alloc: Global,
        class: &'a Class,
        policy: &'a Policy,
        host: &[u8],
    ) -> Result<Receiver<'a>, OutOfMemory>
        ensures { IfOk result (λ receiver. receiver ≡ before_stream (accepting class.now policy.now host.now) false) }
    {
        let intake = Intake::accept(alloc, class, policy, host)?;
        Ok(Receiver {
            stream: Stream::begin(alloc, intake),
            owes: false,
            end: None,
        })
    }

    /// Appends the record of the request that it begins with, where it is still owed.
    pub fn begin(&mut self, out: &mut Vec<u8>) -> Result<(), OutOfMemory>
        ensures ok { OnOk result
            (out.new.items ≡ out.old.items ++ cond self.old.owes (records_of (request_of self.old.receiving)) []) }
        ensures once { OnOk result (self.new ≡ record self.old { owes = false }) }
        ensures err { OnErr result (out.new.items ≡ out.old.items) }
        ensures unchanged { OnErr result (self.new ≡ self.old) }
    {
        if self.owes {
            self.stream.intake().put_request(out)?;
            self.owes = false;
        }
        Ok(())
    }

    /// Whether a record of the stream, or a product in blocks, was begun and is not complete: the peer owes the rest.
    pub fn is_within(&self) -> bool
        ensures { result ≡ is_within self.now.hand self.now.receiving }
    {
        self.stream.is_within()
    }

    /// The signature of the last product that was offered to the queue or declined, or the one that was given.
    pub fn last(&self) -> Option<Signature>
        ensures { option_map (λ signature. signature.0) result ≡ self.now.receiving.last }
    {
        self.stream.intake().last()
    }

    /// Takes a piece of the stream that came at the moment `now`. Appends what the peer is owed to `out`, and log lines
    /// to `notes`.
    ///
    /// A reservation that is open is given up where this ends the receiving. Once it is over, each push answers the
    /// same and does nothing.
    pub fn push<H: Wait>(
        &mut self,
        shared: &Shared,
        rt: &H,
        pass: &mut Pass,
        piece: &[u8],
        now: Micros,
        out: &mut Vec<u8>,
        notes: &mut Vec<u8>,
    ) -> Pushed
        requires { IsPassOf shared.now pass.old }
        ensures kept { IsSamePass pass.old pass.new }
        ensures answer { result ≡ answer_of self.new.end }
        ensures pushes { PushesAt self.old.end (record { now = now; bytes = piece.now }) self.old self.new
            (moment self.old.receiving pass.old out.old notes.old)
            (moment self.new.receiving pass.new out.new notes.new) }
    {
        if self.end.is_none() {
            self.end = self.stream.push(shared, rt, pass, piece, now, out, notes);
        }
        self.answer()
    }

    /// The end of the stream. A reservation that is open is given up. Where the receiver is over already, its end is
    /// answered.
    pub fn end<H: Wait>(self, shared: &Shared, rt: &H, pass: &mut Pass) -> RecvEnd
        requires { IsPassOf shared.now pass.old }
        ensures kept { IsSamePass pass.old pass.new }
        ensures ends { EndsAt self.entry.end result self.entry pass.old pass.new }
    {
        let mut receiver = self;
        match &receiver.end {
            Some(end) => copied_end(end),
            None => receiver.close(shared, rt, pass),
        }
    }

    /// How many bytes are received in a piece at most.
    pub(crate) fn piece_room(&self) -> usize
        ensures some { 0 < result }
        ensures short { result ≤ LONGEST_PIECE }
    {
        self.stream.piece_room()
    }

    /// Receives some bytes straight into the record in hand, where much of it is to come. `None` where little is to
    /// come, or there is no memory: then the link was not asked.
    pub(crate) fn fill<K: Link>(&mut self, link: &mut K, awaited: Awaited) -> Option<Got>
        requires not_closed { IsNotClosed (K.tells link.old) }
        requires live { self.old.end ≡ None }
        ensures none { IfNone result ((self.new ≡ self.old) × (link.new ≡ link.old)) }
        ensures fills { IfSome result
            (λ got. Fills got self.old.hand self.new.hand (K.tells link.old) (K.tells link.new)) }
        ensures same { self.new ≡ record self.old { hand = self.new.hand } }
        ensures still_open { IsNotClosed (K.tells link.new) }
        ensures faults_kept { (K.tells link.old).faults ≤ (K.tells link.new).faults }
        ensures ends_kept { (K.tells link.old).ends ≤ (K.tells link.new).ends }
    {
        self.stream.fill(link, awaited)
    }

    /// How it ended, where it is over.
    pub(crate) fn over(&self) -> Option<RecvEnd>
        ensures { result ≡ self.now.end }
    {
        self.end.as_ref().map(copied_end)
    }

    /// The stream ends.
    pub(crate) fn close<H: Wait>(&mut self, shared: &Shared, rt: &H, pass: &mut Pass) -> RecvEnd
        requires { IsPassOf shared.now pass.old }
        ensures kept { IsSamePass pass.old pass.new }
        ensures finishes { Finishes
            (at_stream_end self.old.hand self.old.receiving) result self.old self.new pass.old pass.new }
        ensures goes_on { GoesOnAt self.old.end self.old.hand }
    {
        let end = self.stream.at_end();
        self.finish(shared, rt, pass, end)
    }

    /// Ends it by a fault of the outside, where the queue did not end it before.
    pub(crate) fn fail<H: Wait>(
        &mut self,
        shared: &Shared,
        rt: &H,
        pass: &mut Pass,
        fault: RecvEnd,
    ) -> RecvEnd
        requires { IsPassOf shared.now pass.old }
        ensures kept { IsSamePass pass.old pass.new }
        ensures fails { FailsAt self.old.end fault result self.old self.new pass.old pass.new }
        ensures goes_on { GoesOnAt self.old.end self.old.hand }
    {
        match &self.end {
            None => self.finish(shared, rt, pass, fault),
            Some(end) if is_worn(end) => RecvEnd::Worn,
            Some(_) => fault,
        }
    }

    // It is over. A reservation that is open is given up, where the queue can have a call more. Answers the end.
    pub(crate) fn finish<H: Wait>(
        &mut self,
        shared: &Shared,
        rt: &H,
        pass: &mut Pass,
        end: RecvEnd,
    ) -> RecvEnd
        requires { IsPassOf shared.now pass.old }
        ensures kept { IsSamePass pass.old pass.new }
        ensures finishes { Finishes end result self.old self.new pass.old pass.new }
    {
        let end = self.stream.give_up(shared, rt, pass, end);
        self.end = Some(copied_end(&end));
        end
    }

    fn answer(&self) -> Pushed
        ensures { result ≡ answer_of self.now.end }
    {
        match &self.end {
            None => Pushed::On,
            Some(RecvEnd::OutOfMemory) => Pushed::OutOfMemory,
            Some(end) => Pushed::Over(copied_end(end)),
        }
    }
}
