//! Serving one connection.
ghost use Rattle.std.specs.Prelude.{◌≡◌, ◌<◌, ◌≤◌, [], true, is_some, length, Some, IfNone, IfOk};
ghost use Rattle.std.specs.Vec.{vec_len};
ghost use Rattle.ldm_outside.specs.Link.{IsNotClosed};
ghost use Rattle.ldm_outside.specs.Session.{KeepsFaults, session_tells};
ghost use Rattle.ldm_shared.specs.Passes.{IsPassOf, IsSamePass};
ghost use Rattle.ldm_downstream.specs.declared.limits.TheConstants.{LONGEST_PIECE};
ghost use Rattle.ldm_session.specs.declared.gaps.TheConstants.{LONGEST_NAME};
ghost use Rattle.ldm_session.specs.declared.limits.TheConstants.{LONGEST_STREAM};
ghost use Rattle.ldm_serve.specs.Connection.{moment_of};
ghost use Rattle.ldm_serve.specs.ClientView.{client_by};
ghost use Rattle.ldm_serve.specs.Reading.{ReadsCalls};
ghost use Rattle.ldm_serve.specs.Rounds.{Runs};
ghost use Rattle.ldm_serve.specs.Serve.{ServesAll};
ghost use Rattle.ldm_serve.specs.ServingView.{beginning};

use crate::client::Client;
use crate::end::ServeEnd;
use crate::responded::Responded;
use crate::serving::Serving;
use crate::taking::{Connection, Stop, end_by, receive};
use ldm_conf::Conf;
use ldm_downstream::LONGEST_PIECE;
use ldm_outside::{Awaited, Clock, Gate, Got, Link, Sink};
use ldm_session::{LONGEST_STREAM, room_to_gather};
use ldm_shared::{Pass, Shared};
use ldm_types::OutOfMemory;
use std::alloc::Global;
use std::sync::Wait;

/// Serves a connection of a host, by the rules of a configuration: answers its calls, one after another, until one of
/// them makes it a feeding, a receiving or a session of notices, and goes on with that to its end; or until something
/// else ends it.
///
/// The link is closed where the gate stopped a feeding or a session of notices, and else left open.
pub fn serve<H: Wait, K: Link, E: Sink, G: Gate, C: Clock>(
    rt: &H,
    alloc: Global,
    shared: &Shared,
    pass: &mut Pass,
    link: &mut K,
    log: &mut E,
    gate: &mut G,
    clock: &mut C,
    host: &[u8],
    conf: &Conf,
) -> ServeEnd
    requires of { IsPassOf shared.now pass.old }
    requires name { length host.now ≤ LONGEST_NAME }
    requires not_closed { IsNotClosed (K.tells link.old) }
    ensures kept { IsSamePass pass.old pass.new }
    ensures counts { KeepsFaults (session_tells K.tells E.tells C.tells G.tells link.old log.old clock.old gate.old)
        (session_tells K.tells E.tells C.tells G.tells link.new log.new clock.new gate.new) }
    ensures serves { ServesAll result
        (record { rules = conf.now.policy; host = host.now; actor = pass.old.actor; arena = shared.now.arena })
        (moment_of pass.old (session_tells K.tells E.tells C.tells G.tells link.old log.old clock.old gate.old))
        (moment_of pass.new (session_tells K.tells E.tells C.tells G.tells link.new log.new clock.new gate.new)) }
{
    let client = Client::of(alloc, &conf.policy, host, shared.arena());
    match Server::begin(alloc, client) {
        Ok(mut server) => server.run(rt, shared, pass, link, log, gate, clock),
        Err(OutOfMemory) => ServeEnd::OutOfMemory,
    }
}

// A connection, and the memory for a piece of it.
#[derive(Drop)]
struct Server<'a> {
    connection: Connection<'a>,
    piece: Vec<u8>,
}

impl<'a> Server<'a> {
    // Before the first byte. It takes all its memory.
    fn begin(alloc: Global, client: Client<'a>) -> Result<Server<'a>, OutOfMemory>
        ensures client { IfOk result (λ server. server.connection.client ≡ client.entry) }
        ensures begins { IfOk result (λ server. server.connection.serving ≡ beginning) }
        ensures reads { IfOk result (λ server. ReadsCalls server.connection 0) }
        ensures room { IfOk result (λ server. vec_len server.piece ≡ LONGEST_PIECE) }
    {
        let connection = Connection {
            client,
            serving: Serving::begin(alloc),
            out: room_to_gather(alloc)?,
            next: Responded::GoesOn,
            end: None,
        };
        Ok(Server {
            connection,
            piece: vec![in alloc; 0u8; LONGEST_PIECE]?,
        })
    }

    // Serves until it ends. It goes on from anywhere.
    fn run<H: Wait, K: Link, E: Sink, G: Gate, C: Clock>(
        &mut self,
        rt: &H,
        shared: &Shared,
        pass: &mut Pass,
        link: &mut K,
        log: &mut E,
        gate: &mut G,
        clock: &mut C,
    ) -> ServeEnd
        requires of { IsPassOf shared.now pass.old }
        requires name { length self.old.connection.client.host ≤ LONGEST_NAME }
        requires not_closed { IsNotClosed (K.tells link.old) }
        requires reads { ReadsCalls self.old.connection 0 }
        requires room { vec_len self.old.piece ≡ LONGEST_PIECE }
        ensures kept { IsSamePass pass.old pass.new }
        ensures runs { Runs (Some result) (client_by self.old.connection.client pass.old.actor)
            self.old.connection.serving [] self.new.connection.serving
            (moment_of pass.old (session_tells K.tells E.tells C.tells G.tells link.old log.old clock.old gate.old))
            (moment_of pass.new (session_tells K.tells E.tells C.tells G.tells link.new log.new clock.new gate.new)) }
    {
        for _ in rt.forever() {
            self.turn(rt, shared, pass, link, log, gate, clock);
            if self.connection.end.is_some() {
                return take_end(&mut self.connection.end);
            }
        }
        unreachable!()
    }

    // Receives some bytes and takes them: straight into the record in hand where much of it is to come, and else a
    // piece. The end is written, where it came to one.
    fn turn<H: Wait, K: Link, E: Sink, G: Gate, C: Clock>(
        &mut self,
        rt: &H,
        shared: &Shared,
        pass: &mut Pass,
        link: &mut K,
        log: &mut E,
        gate: &mut G,
        clock: &mut C,
    )
        requires of { IsPassOf shared.now pass.old }
        requires name { length self.old.connection.client.host ≤ LONGEST_NAME }
        requires not_closed { IsNotClosed (K.tells link.old) }
        requires reads { ReadsCalls self.old.connection 0 }
        requires room { vec_len self.old.piece ≡ LONGEST_PIECE }
        ensures kept { IsSamePass pass.old pass.new }
        ensures same { self.new.connection.client ≡ self.old.connection.client }
        ensures still_open { IfNone self.new.connection.end (IsNotClosed (K.tells link.new)) }
        ensures reads { IfNone self.new.connection.end (ReadsCalls self.new.connection 0) }
        ensures room { vec_len self.new.piece ≡ LONGEST_PIECE }
        ensures runs { Runs self.new.connection.end (client_by self.old.connection.client pass.old.actor)
            self.old.connection.serving [] self.new.connection.serving
            (moment_of pass.old (session_tells K.tells E.tells C.tells G.tells link.old log.old clock.old gate.old))
            (moment_of pass.new (session_tells K.tells E.tells C.tells G.tells link.new log.new clock.new gate.new)) }
    {
        let room = LONGEST_STREAM - self.connection.serving.came();
        if room == 0 {
            return end_by(&mut self.connection.end, Stop::StreamLimit);
        }
        let awaited = Awaited::Request.or_rest(self.connection.serving.is_pending());
        let Some(got) = self.connection.serving.fill(link, room, awaited) else {
            return self.take_piece(rt, shared, pass, link, log, gate, clock);
        };
        match got {
            Got::Bytes(_) => {}
            Got::End => self.connection.end_here(),
            Got::Failed => end_by(&mut self.connection.end, Stop::LinkFault),
        }
    }

    // Receives a piece and takes it. The end is written, where it came to one.
    fn take_piece<H: Wait, K: Link, E: Sink, G: Gate, C: Clock>(
        &mut self,
        rt: &H,
        shared: &Shared,
        pass: &mut Pass,
        link: &mut K,
        log: &mut E,
        gate: &mut G,
        clock: &mut C,
    )
        requires of { IsPassOf shared.now pass.old }
        requires name { length self.old.connection.client.host ≤ LONGEST_NAME }
        requires not_closed { IsNotClosed (K.tells link.old) }
        requires reads { ReadsCalls self.old.connection 0 }
        requires more { self.old.connection.serving.came < LONGEST_STREAM }
        requires room { vec_len self.old.piece ≡ LONGEST_PIECE }
        ensures kept { IsSamePass pass.old pass.new }
        ensures same { self.new.connection.client ≡ self.old.connection.client }
        ensures still_open { IfNone self.new.connection.end (IsNotClosed (K.tells link.new)) }
        ensures reads { IfNone self.new.connection.end (ReadsCalls self.new.connection 0) }
        ensures room { vec_len self.new.piece ≡ LONGEST_PIECE }
        ensures runs { Runs self.new.connection.end (client_by self.old.connection.client pass.old.actor)
            self.old.connection.serving [] self.new.connection.serving
            (moment_of pass.old (session_tells K.tells E.tells C.tells G.tells link.old log.old clock.old gate.old))
            (moment_of pass.new (session_tells K.tells E.tells C.tells G.tells link.new log.new clock.new gate.new)) }
    {
        let room = self.connection.serving.piece_room();
        let awaited = Awaited::Request.or_rest(self.connection.serving.is_pending());
        match receive(link, self.piece.as_mut_slice(), room, awaited) {
            Got::Bytes(count) => {
                let piece = &self.piece[..count];
                self.connection
                    .take(rt, shared, pass, link, log, gate, clock, piece);
            }
            Got::End => self.connection.end_here(),
            Got::Failed => end_by(&mut self.connection.end, Stop::LinkFault),
        }
    }
}

// Takes the end that was written.
#[cold]
#[inline(never)]
fn take_end(end: &mut Option<ServeEnd>) -> ServeEnd
    requires { is_some end.old ≡ true }
    ensures { end.old ≡ Some result }
{
    match end.take() {
        Some(end) => end,
        None => unreachable!(),
    }
}
