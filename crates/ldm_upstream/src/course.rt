//! The turns of a feeding: steps of the cursor, and what follows each.
ghost use Rattle.ldm_outside.specs.Link.{IsNotClosed};
ghost use Rattle.ldm_book.specs.Limits.{IsGoodArena};
ghost use Rattle.ldm_shared.specs.Passes.{IsPassOf, IsSamePass};
ghost use Rattle.ldm_sender.specs.Acts.{situation_of};
ghost use Rattle.ldm_sender.specs.Does.{moment_of};
ghost use Rattle.ldm_upstream.specs.Course.{EndsTurns};
ghost use Rattle.ldm_upstream.specs.Feeder.{CanTurn, IsSameFeeder, asked_by};

use crate::feeder::Feeder;
use ldm_outside::{Clock, Gate, Link, Sink};
use ldm_sender::SendEnd;
use ldm_shared::{Pass, Shared, products_stay};
use std::sync::Wait;

impl Feeder<'_> {
    // Turns, until the gate says to stop or something ends them.
    pub(crate) fn turns<H: Wait, K: Link, E: Sink, G: Gate, C: Clock>(
        &mut self,
        rt: &H,
        shared: &Shared,
        pass: &mut Pass,
        link: &mut K,
        log: &mut E,
        gate: &mut G,
        clock: &mut C,
    ) -> SendEnd
        requires of { IsPassOf shared.now pass.old }
        requires arena { IsGoodArena shared.now.arena }
        requires ready { CanTurn self.old pass.old }
        requires not_closed { IsNotClosed (K.tells link.old) }
        ensures kept { IsSamePass pass.old pass.new }
        ensures still_open { IsNotClosed (K.tells link.new) }
        ensures same { IsSameFeeder self.old self.new }
        ensures turns { EndsTurns result (asked_by self.old) self.old.reader.k self.old.standing
            (situation_of (moment_of pass.old (K.tells link.old) (C.tells clock.old) self.old.out.items)
            (E.tells log.old) (G.tells gate.old))
            (situation_of (moment_of pass.new (K.tells link.new) (C.tells clock.new) self.new.out.items)
            (E.tells log.new) (G.tells gate.new))
            self.old.replies }
    {
        products_stay();
        for _ in rt.forever() {
            match self.turn(rt, shared, pass, link, log, gate, clock) {
                Ok(()) => {}
                Err(end) => return end,
            }
        }
        unreachable!()
    }
}
