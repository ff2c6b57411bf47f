//! Taking the bytes of a connection: its records are answered, and what is owed for them is sent.
ghost use Rattle.std.specs.Prelude.{◌≡◌, ◌<◌, ◌≤◌, [], length, None, Some, IfNone, IfOk};
ghost use Rattle.ldm_outside.specs.Link.{IsNotClosed, RecvGives};
ghost use Rattle.ldm_outside.specs.Session.{session_tells};
ghost use Rattle.ldm_shared.specs.Passes.{IsPassOf, IsSamePass};
ghost use Rattle.ldm_session.specs.declared.gaps.TheConstants.{LONGEST_NAME};
ghost use Rattle.ldm_serve.specs.ClientView.{client_by};
ghost use Rattle.ldm_serve.specs.Connection.{moment_of};
ghost use Rattle.ldm_serve.specs.Reading.{ReadsCalls, TakesTo, end_by};
ghost use Rattle.ldm_serve.specs.Rounds.{Advances, IsWithin, Runs, end_at};

use crate::client::Client;
use crate::end::ServeEnd;
use crate::going_on::Behind;
use crate::responded::Responded;
use crate::serving::{Answered, Serving};
use ldm_outside::{Awaited, Clock, Gate, Got, Link, LinkFailed, Sink};
use ldm_session::send_gathered;
use ldm_shared::{Pass, Shared};
use std::cmp::min;
use std::sync::Wait;

/// A connection whose calls are read: whom it serves, what reads them, and what is gathered for the peer.
#[derive(Drop)]
pub(crate) struct Connection<'a> {
    pub(crate) client: Client<'a>,
    pub(crate) serving: Serving,
    pub(crate) out: Vec<u8>,
    // How it goes on behind a record that its session does not outlive, and its end, once it came to one. Both have
    // room for a class: they are written where they stand, by cold functions, and not moved for each record.
    pub(crate) next: Responded,
    pub(crate) end: Option<ServeEnd>,
}

impl Connection<'_> {
    /// Takes a piece. The end is written, where it came to one.
    pub(crate) fn take<H: Wait, K: Link, E: Sink, G: Gate, C: Clock>(
        &mut self,
        rt: &H,
        shared: &Shared,
        pass: &mut Pass,
        link: &mut K,
        log: &mut E,
        gate: &mut G,
        clock: &mut C,
        piece: &[u8],
    )
        requires of { IsPassOf shared.now pass.old }
        requires name { length self.old.client.host ≤ LONGEST_NAME }
        requires not_closed { IsNotClosed (K.tells link.old) }
        requires reads { ReadsCalls self.old (length piece.now) }
        ensures kept { IsSamePass pass.old pass.new }
        ensures same { self.new.client ≡ self.old.client }
        ensures still_open { IfNone self.new.end (IsNotClosed (K.tells link.new)) }
        ensures reads { IfNone self.new.end (ReadsCalls self.new 0) }
        ensures runs { Runs self.new.end (client_by self.old.client pass.old.actor) self.old.serving piece.now
            self.new.serving
            (moment_of pass.old (session_tells K.tells E.tells C.tells G.tells link.old log.old clock.old gate.old))
            (moment_of pass.new (session_tells K.tells E.tells C.tells G.tells link.new log.new clock.new gate.new)) }
    {
        let mut rest = piece;
        while !rest.is_empty() {
            match self.take_some(rt, shared, pass, link, log, gate, clock, rest) {
                Ok(count) => rest = &rest[count..],
                Err(stop) => return end_by(&mut self.end, stop),
            }
        }
    }

    // Takes some bytes from the front: all, or those up to a record that the session may not outlive. What is owed is
    // sent before the connection goes on behind that. Tells how many bytes that are, or why no more are taken.
    fn take_some<H: Wait, K: Link, E: Sink, G: Gate, C: Clock>(
        &mut self,
        rt: &H,
        shared: &Shared,
        pass: &mut Pass,
        link: &mut K,
        log: &mut E,
        gate: &mut G,
        clock: &mut C,
        bytes: &[u8],
    ) -> Result<usize, Stop>
        requires of { IsPassOf shared.now pass.old }
        requires name { length self.old.client.host ≤ LONGEST_NAME }
        requires not_closed { IsNotClosed (K.tells link.old) }
        requires some { 0 < length bytes.now }
        requires reads { ReadsCalls self.old (length bytes.now) }
        ensures kept { IsSamePass pass.old pass.new }
        ensures same { self.new.client ≡ self.old.client }
        ensures still_open { IfOk result (λ _. IsNotClosed (K.tells link.new)) }
        ensures advances { IfOk result (λ count. Advances count self.old.serving bytes.now self.new.serving) }
        ensures empty { IfOk result (λ _. self.new.out.items ≡ []) }
        ensures going { IfOk result (λ _. self.new.next ≡ Responded.GoesOn) }
        ensures unended { IfOk result (λ _. self.new.end ≡ None) }
        ensures takes { TakesTo result self.new.end (client_by self.old.client pass.old.actor) self.old.serving
            bytes.now self.new.serving
            (moment_of pass.old (session_tells K.tells E.tells C.tells G.tells link.old log.old clock.old gate.old))
            (moment_of pass.new (session_tells K.tells E.tells C.tells G.tells link.new log.new clock.new gate.new)) }
    {
        let before = self.serving.came();
        match self.serving.answer(
            rt,
            shared,
            pass,
            clock,
            &mut self.client,
            bytes,
            &mut self.out,
            &mut self.next,
        ) {
            Answered::On => {
                send_gathered(&mut self.out, link)?;
                Ok(bytes.len())
            }
            Answered::Over { at } => {
                send_gathered(&mut self.out, link)?;
                let count = (self.serving.came() - before) as usize;
                let ahead = &bytes[count..];
                let behind = Behind { at, ahead };
                self.go_on(rt, shared, pass, link, log, gate, clock, behind);
                match &self.end {
                    Some(_) => Err(Stop::Ended),
                    None => Ok(count),
                }
            }
            Answered::TooLong { at } => {
                send_gathered(&mut self.out, link)?;
                Err(Stop::TooLong { at })
            }
            Answered::Worn => Err(Stop::Worn),
            Answered::OutOfMemory => Err(Stop::OutOfMemory),
        }
    }

    /// Ends where the stream does.
    #[cold]
    #[inline(never)]
    pub(crate) fn end_here(&mut self)
        ensures { self.new ≡ record self.old { end = Some (end_at self.old.serving) } }
    {
        self.end = Some(end_at(&self.serving));
    }
}

// How a connection ends where its stream does.
fn end_at(serving: &Serving) -> ServeEnd
    ensures { result ≡ end_at serving.now }
{
    if serving.is_pending() {
        ServeEnd::Truncated { at: serving.came() }
    } else {
        ServeEnd::Ended
    }
}

/// Why no more bytes of a connection are taken.
#[derive(Clone, Copy)]
pub(crate) enum Stop {
    /// The link failed.
    LinkFault,
    /// As many bytes came as are taken of a stream.
    StreamLimit,
    /// The record that begins at that byte is longer than the largest one.
    TooLong { at: u64 },
    /// The queue has had all the calls that it can have.
    Worn,
    /// There is no memory.
    OutOfMemory,
    /// The connection went on, and its end was written.
    Ended,
}

impl From<LinkFailed> for Stop {
    ghost use Rattle.std.specs.Prelude.{◌≡◌};
    ghost use Rattle.ldm_serve.specs.declared.taking.Stop.TheVariants as stop;

    ghost from_gives = { λ _ result. result ≡ stop.LinkFault };

    fn from(_error: LinkFailed) -> Stop {
        Stop::LinkFault
    }
}

/// Writes the end, where it was not written. What has a class in place stands in functions of its own, so that nothing
/// on the path of a PUT has room for one.
#[cold]
#[inline(never)]
pub(crate) fn end_by(end: &mut Option<ServeEnd>, stop: Stop)
    ensures { end.new ≡ end_by stop end.old }
{
    match stop {
        Stop::LinkFault => *end = Some(ServeEnd::LinkFault),
        Stop::StreamLimit => *end = Some(ServeEnd::StreamLimit),
        Stop::TooLong { at } => *end = Some(ServeEnd::BadFrame { at }),
        Stop::Worn => *end = Some(ServeEnd::Worn),
        Stop::OutOfMemory => *end = Some(ServeEnd::OutOfMemory),
        Stop::Ended => {}
    }
}

/// Receives a piece, of no more bytes than there is room for in the stream.
pub(crate) fn receive<K: Link>(link: &mut K, piece: &mut [u8], room: u64, awaited: Awaited) -> Got
    requires not_closed { IsNotClosed (K.tells link.old) }
    requires some { 0 < length piece.old }
    requires room { 0 < room }
    ensures given { RecvGives result piece.new (K.tells link.old) (K.tells link.new) }
    ensures within { IsWithin room result }
    ensures faults_kept { (K.tells link.old).faults ≤ (K.tells link.new).faults }
    ensures ends_kept { (K.tells link.old).ends ≤ (K.tells link.new).ends }
    ensures still_open { IsNotClosed (K.tells link.new) }
{
    let most = min(room, piece.len() as u64) as usize;
    link.recv(&mut piece[..most], awaited)
}
