//! One piece.
ghost use Rattle.std.specs.Prelude.{◌≡◌, ◌≤◌, ◌<◌, Option, None, IfNone};
ghost use Rattle.ldm_intake.specs.declared.end.RecvEnd.{RecvEnd};
ghost use Rattle.std.specs.Vec.{vec_len};
ghost use Rattle.ldm_outside.specs.Link.{IsNotClosed};
ghost use Rattle.ldm_shared.specs.Passes.{IsPassOf, IsSamePass};
ghost use Rattle.ldm_downstream.specs.Pushing.{answer_of};
ghost use Rattle.ldm_shared.specs.Reader.{HasCursor};
ghost use Rattle.ldm_gather.specs.Scene.{KeepsGatherCounts, lent_of, moment_of, scene_of};
ghost use Rattle.ldm_gather.specs.Turning.{IfGoesOn, IsReady, SameButCourse, TellsBy, Turns, turned};

use crate::end::{GatherEnd, Handled};
use crate::gatherer::Gatherer;
use crate::handler::Handler;
use ldm_downstream::Pushed;
use ldm_intake::RecvEnd;
use ldm_outside::{Awaited, Clock, Got, Link, Sink, send_all, write_all};
use std::sync::Wait;

// What one turn came to.
#[derive(Drop)]
pub(crate) enum Turned {
    // A piece was taken, and it goes on.
    On,
    // The stream is at its end.
    AtEnd,
    // It is over.
    Over(GatherEnd),
}

impl Gatherer<'_> {
    // Receives a piece, pushes it, sends and writes what it made, and has the handler handle what is queued then.
    pub(crate) fn turn<H: Wait, K: Link, E: Sink, C: Clock, A, B, W: Handler<A, B>>(
        &mut self,
        rt: &H,
        link: &mut K,
        log: &mut E,
        clock: &mut C,
        handler: &mut W,
        first: &mut A,
        second: &mut B,
    ) -> Turned
        requires of { IsPassOf self.old.shared self.old.pass }
        requires not_closed { IsNotClosed (K.tells link.old) }
        requires live { self.old.receiver.end ≡ None }
        requires ready { IsReady self.old.buffers.out.items self.old.buffers.notes.items }
        requires room { 0 < vec_len self.old.buffers.piece }
        requires has_cursor { HasCursor self.old.pass (W.cursor handler.old) None }
        requires may { W.begins handler.old first.old second.old }
        ensures others { SameButCourse self.old self.new }
        ensures kept { IsSamePass self.old.pass self.new.pass }
        ensures still_open { IsNotClosed (K.tells link.new) }
        ensures counts { KeepsGatherCounts
            (lent_of (scene_of handler.old first.old second.old self.old.pass (E.tells log.old)) (K.tells link.old)
            (C.tells clock.old))
            (lent_of (scene_of handler.new first.new second.new self.new.pass (E.tells log.new)) (K.tells link.new)
            (C.tells clock.new)) }
        ensures ready { IfGoesOn result (IsReady self.new.buffers.out.items self.new.buffers.notes.items) }
        ensures room { 0 < vec_len self.new.buffers.piece }
        ensures still_has_cursor { IfGoesOn result (HasCursor self.new.pass (W.cursor handler.new) None) }
        ensures may_again { IfGoesOn result (W.begins handler.new first.new second.new) }
        ensures turns { Turns W.handles result
            (moment_of self.old.receiver
            (lent_of (scene_of handler.old first.old second.old self.old.pass (E.tells log.old)) (K.tells link.old)
            (C.tells clock.old)))
            (moment_of self.new.receiver
            (lent_of (scene_of handler.new first.new second.new self.new.pass (E.tells log.new)) (K.tells link.new)
            (C.tells clock.new))) }
    {
        let awaited = Awaited::Feed.or_rest(self.receiver.is_within());
        let count = match link.recv(self.buffers.piece.as_mut_slice(), awaited) {
            Got::Bytes(count) => count,
            Got::End => return Turned::AtEnd,
            Got::Failed => return Turned::Over(GatherEnd::Received(RecvEnd::LinkFault)),
        };
        let now = clock.now();
        let pushed = self.receiver.push(
            &self.shared,
            rt,
            &mut self.pass,
            &self.buffers.piece[..count],
            now,
            &mut self.buffers.out,
            &mut self.buffers.notes,
        );
        if let Some(fault) = tell(link, log, &mut self.buffers.out, &mut self.buffers.notes) {
            return Turned::Over(GatherEnd::Received(fault));
        }
        let handled = handler.handle(rt, &self.shared, &mut self.pass, first, second, log);
        behind_piece(handled, over(pushed))
    }
}

// Sends what the peer is owed, and writes the log lines.
fn tell<K: Link, E: Sink>(
    link: &mut K,
    log: &mut E,
    out: &mut Vec<u8>,
    notes: &mut Vec<u8>,
) -> Option<RecvEnd>
    requires { IsNotClosed (K.tells link.old) }
    ensures tells { TellsBy result out.old.items notes.old.items (K.tells link.old) (K.tells link.new) (E.tells log.old)
        (E.tells log.new) }
    ensures ready { IfNone result (IsReady out.new.items notes.new.items) }
    ensures link_kept { (K.tells link.old).faults ≤ (K.tells link.new).faults }
    ensures ends_kept { (K.tells link.old).ends ≤ (K.tells link.new).ends }
    ensures log_kept { (E.tells log.old).faults ≤ (E.tells log.new).faults }
    ensures still_open { IsNotClosed (K.tells link.new) }
{
    if send_all(link, out.as_slice()).is_err() {
        return Some(RecvEnd::LinkFault);
    }
    out.clear();
    if write_all(log, notes.as_slice()).is_err() {
        return Some(RecvEnd::LogFault);
    }
    notes.clear();
    None
}

// How the receiver ended, if it did, by what a push answered.
fn over(pushed: Pushed) -> Option<RecvEnd>
    ensures { (end : Option RecvEnd) → pushed ≡ answer_of end → result ≡ end }
{
    match pushed {
        Pushed::On => None,
        Pushed::Over(end) => Some(end),
        Pushed::OutOfMemory => Some(RecvEnd::OutOfMemory),
    }
}

fn behind_piece(handled: Handled, over: Option<RecvEnd>) -> Turned
    ensures { result ≡ turned handled over }
{
    match handled {
        Handled::On => match over {
            None => Turned::On,
            Some(end) => Turned::Over(GatherEnd::Received(end)),
        },
        Handled::Enough => Turned::Over(GatherEnd::Enough),
        Handled::Stopped => Turned::Over(GatherEnd::Stopped),
    }
}
