//! Receiving, and handling what is queued after each piece.
ghost use Rattle.std.specs.Prelude.{◌≡◌, ◌≤◌, ◌<◌, None, IfNone};
ghost use Rattle.std.specs.Vec.{vec_len};
ghost use Rattle.ldm_outside.specs.Link.{IsNotClosed};
ghost use Rattle.ldm_shared.specs.Passes.{IsPassOf, IsSamePass, PassView};
ghost use Rattle.ldm_shared.specs.Reader.{HasCursor};
ghost use Rattle.ldm_gather.specs.Orders.{asks_for, order_view};
ghost use Rattle.ldm_gather.specs.Queue.{IsOpen};
ghost use Rattle.ldm_gather.specs.Runs.{Gathered};
ghost use Rattle.ldm_gather.specs.Scene.{KeepsGatherCounts, lent_of, moment_of, scene_of};
ghost use Rattle.ldm_gather.specs.Turning.{IsReady, Runs, SameButCourse};

use crate::end::GatherEnd;
use crate::gatherer::Gatherer;
use crate::handler::Handler;
use crate::turn::Turned;
use ldm_intake::RecvEnd;
use ldm_outside::{Clock, Link, Sink, send_all};
use std::sync::Wait;

impl Gatherer<'_> {
    // Asks a peer for the products, and receives what it feeds.
    //
    // A piece that ends the receiving is handled too, and then that is the end. Where the handler has enough or was
    // stopped, or the link or the log failed, it ends at once: a reservation that is open stays so. Pieces have at most
    // `LONGEST_PIECE` bytes, and the clock is asked once for each.
    pub(crate) fn receive<H: Wait, K: Link, E: Sink, C: Clock, A, B, W: Handler<A, B>>(
        self,
        rt: &H,
        link: &mut K,
        log: &mut E,
        clock: &mut C,
        handler: &mut W,
        first: &mut A,
        second: &mut B,
    ) -> GatherEnd
        requires open { IsOpen self }
        requires cursor { W.cursor handler.old ≡ self.reader.k }
        requires may { W.begins handler.old first.old second.old }
        requires not_closed { IsNotClosed (K.tells link.old) }
        ensures still_open { IsNotClosed (K.tells link.new) }
        ensures counts { KeepsGatherCounts
            (lent_of (scene_of handler.old first.old second.old self.entry.pass (E.tells log.old)) (K.tells link.old)
            (C.tells clock.old))
            (lent_of (scene_of handler.new first.new second.new self.entry.pass (E.tells log.new)) (K.tells link.new)
            (C.tells clock.new)) }
        ensures gathered { (last : PassView) × Gathered W.handles result (asks_for (order_view self.entry.order))
            (lent_of (scene_of handler.old first.old second.old self.entry.pass (E.tells log.old)) (K.tells link.old)
            (C.tells clock.old))
            (lent_of (scene_of handler.new first.new second.new last (E.tells log.new)) (K.tells link.new)
            (C.tells clock.new)) }
    {
        let mut it = self;
        if send_all(link, it.buffers.out.as_slice()).is_err() {
            return GatherEnd::Received(RecvEnd::LinkFault);
        }
        it.buffers.out.clear();
        let ended = it.run(rt, link, log, clock, handler, first, second);
        match ended {
            Some(end) => end,
            None => {
                let shared = it.shared;
                let mut pass = it.pass;
                GatherEnd::Received(it.receiver.end(&shared, rt, &mut pass))
            }
        }
    }

    // Takes pieces until it is over, or until the stream is at its end.
    fn run<H: Wait, K: Link, E: Sink, C: Clock, A, B, W: Handler<A, B>>(
        &mut self,
        rt: &H,
        link: &mut K,
        log: &mut E,
        clock: &mut C,
        handler: &mut W,
        first: &mut A,
        second: &mut B,
    ) -> Option<GatherEnd>
        requires of { IsPassOf self.old.shared self.old.pass }
        requires not_closed { IsNotClosed (K.tells link.old) }
        requires live { self.old.receiver.end ≡ None }
        requires ready { IsReady self.old.buffers.out.items self.old.buffers.notes.items }
        requires room { 0 < vec_len self.old.buffers.piece }
        requires has_cursor { HasCursor self.old.pass (W.cursor handler.old) None }
        requires may { W.begins handler.old first.old second.old }
        ensures others { SameButCourse self.old self.new }
        ensures kept { IsSamePass self.old.pass self.new.pass }
        ensures still_open { IsNotClosed (K.tells link.new) }
        ensures counts { KeepsGatherCounts
            (lent_of (scene_of handler.old first.old second.old self.old.pass (E.tells log.old)) (K.tells link.old)
            (C.tells clock.old))
            (lent_of (scene_of handler.new first.new second.new self.new.pass (E.tells log.new)) (K.tells link.new)
            (C.tells clock.new)) }
        ensures live { IfNone result (self.new.receiver.end ≡ None) }
        ensures runs { Runs W.handles result
            (moment_of self.old.receiver
            (lent_of (scene_of handler.old first.old second.old self.old.pass (E.tells log.old)) (K.tells link.old)
            (C.tells clock.old)))
            (moment_of self.new.receiver
            (lent_of (scene_of handler.new first.new second.new self.new.pass (E.tells log.new)) (K.tells link.new)
            (C.tells clock.new))) }
    {
        for _ in rt.forever() {
            match self.turn(rt, link, log, clock, handler, first, second) {
                Turned::On => {}
                Turned::AtEnd => return None,
                Turned::Over(end) => return Some(end),
            }
        }
        unreachable!()
    }
}
