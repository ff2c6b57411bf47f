//! One turn of a feeding.
ghost use Rattle.ldm_outside.specs.Link.{IsNotClosed};
ghost use Rattle.ldm_book.specs.Limits.{IsGoodArena};
ghost use Rattle.ldm_shared.specs.Passes.{IsPassOf, IsSamePass};
ghost use Rattle.ldm_sender.specs.Acts.{situation_of};
ghost use Rattle.ldm_sender.specs.Does.{moment_of};
ghost use Rattle.ldm_upstream.specs.Course.{TurnsBy};
ghost use Rattle.ldm_upstream.specs.Feeder.{CanTurn, IsSameFeeder, asked_by};

use crate::feeder::Feeder;
use ldm_outside::{Clock, Gate, Link, Sink};
use ldm_sender::{SendEnd, wait_idle};
use ldm_session::write_gap;
use ldm_shared::{Came, Pass, Shared, Turn, products_stay};
use std::sync::Wait;

impl Feeder<'_> {
    // One step of the cursor, and what follows it.
    pub(crate) fn turn<H: Wait, K: Link, E: Sink, G: Gate, C: Clock>(
        &mut self,
        rt: &H,
        shared: &Shared,
        pass: &mut Pass,
        link: &mut K,
        log: &mut E,
        gate: &mut G,
        clock: &mut C,
    ) -> Result<(), SendEnd>
        requires of { IsPassOf shared.now pass.old }
        requires arena { IsGoodArena shared.now.arena }
        requires ready { CanTurn self.old pass.old }
        requires not_closed { IsNotClosed (K.tells link.old) }
        ensures kept { IsSamePass pass.old pass.new }
        ensures still_open { IsNotClosed (K.tells link.new) }
        ensures same { IsSameFeeder self.old self.new }
        ensures turns { TurnsBy result (asked_by self.old) self.old.reader.k self.old.standing self.new.standing
            (situation_of (moment_of pass.old (K.tells link.old) (C.tells clock.old) self.old.out.items)
            (E.tells log.old) (G.tells gate.old))
            (situation_of (moment_of pass.new (K.tells link.new) (C.tells clock.new) self.new.out.items)
            (E.tells log.new) (G.tells gate.new))
            self.old.replies self.new.replies }
    {
        products_stay();
        match self.reader.step(shared, rt, pass) {
            Turn::Done(Came::Gap { count, first, last }) => {
                write_gap(log, self.rules.host(), count, first, last)?;
                Ok(())
            }
            Turn::Done(Came::Product(held)) => self.handle(rt, shared, pass, link, clock, held),
            Turn::Done(Came::End { .. }) => {
                wait_idle(&mut self.standing, &mut self.out, link, clock, gate)
            }
            Turn::Worn { .. } => Err(SendEnd::Worn),
        }
    }
}
