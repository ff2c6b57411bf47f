//! A product that the cursor gave.
ghost use Rattle.std.specs.Prelude.{◌≡◌, ℕ, List};
ghost use Rattle.ldm_outside.specs.Link.{IsNotClosed};
ghost use Rattle.ldm_relay.specs.Writable.{IsShortProduct};
ghost use Rattle.ldm_shared.specs.Passes.{IsPassOf, IsSamePass};
ghost use Rattle.ldm_shared.specs.Reader.{Holds};
ghost use Rattle.ldm_sender.specs.Does.{moment_of};
ghost use Rattle.ldm_upstream.specs.Feeder.{IsSameFeeder, asked_by};
ghost use Rattle.ldm_upstream.specs.Giving.{given_of};
ghost use Rattle.ldm_upstream.specs.Offering.{Handles, Offers};

use crate::feeder::Feeder;
use ldm_outside::{Clock, Link};
use ldm_sender::{SendEnd, is_due};
use ldm_shared::{Held, Pass, Shared, Turn};
use std::sync::Wait;

impl Feeder<'_> {
    // Offers the product that is held where it is due.
    pub(crate) fn offer_if_due<H: Wait, K: Link, C: Clock>(
        &mut self,
        rt: &H,
        shared: &Shared,
        pass: &mut Pass,
        link: &mut K,
        clock: &mut C,
        held: &Held,
    ) -> Result<(), SendEnd>
        requires of { IsPassOf shared.now pass.old }
        requires holds { (body : List ℕ) × Holds pass.old self.old.reader.k held.now body }
        requires short { IsShortProduct held.now.info held.now.info.size }
        requires to_is { self.old.to ≡ self.old.class.to }
        requires not_closed { IsNotClosed (K.tells link.old) }
        ensures kept { IsSamePass pass.old pass.new }
        ensures still_open { IsNotClosed (K.tells link.new) }
        ensures same { IsSameFeeder self.old self.new }
        ensures offers { (body : List ℕ) → Holds pass.old self.old.reader.k held.now body
            → Offers result (asked_by self.old) self.old.reader.k (given_of held.now body) self.old.standing
            self.new.standing
            (moment_of pass.old (K.tells link.old) (C.tells clock.old) self.old.out.items)
            (moment_of pass.new (K.tells link.new) (C.tells clock.new) self.new.out.items)
            self.old.replies self.new.replies }
    {
        if is_due(
            &mut self.class,
            &mut self.rules,
            self.to,
            held.time,
            &held.info,
        ) {
            return self.offer(rt, shared, pass, link, clock, held);
        }
        Ok(())
    }

    // A product that the cursor gave: it is offered where it is due, and let go.
    pub(crate) fn handle<H: Wait, K: Link, C: Clock>(
        &mut self,
        rt: &H,
        shared: &Shared,
        pass: &mut Pass,
        link: &mut K,
        clock: &mut C,
        held: Held,
    ) -> Result<(), SendEnd>
        requires of { IsPassOf shared.now pass.old }
        requires holds { (body : List ℕ) × Holds pass.old self.old.reader.k held body }
        requires short { IsShortProduct held.info held.info.size }
        requires to_is { self.old.to ≡ self.old.class.to }
        requires not_closed { IsNotClosed (K.tells link.old) }
        ensures kept { IsSamePass pass.old pass.new }
        ensures still_open { IsNotClosed (K.tells link.new) }
        ensures same { IsSameFeeder self.old self.new }
        ensures handles { (body : List ℕ) → Holds pass.old self.old.reader.k held body
            → Handles result (asked_by self.old) self.old.reader.k (given_of held body) self.old.standing
            self.new.standing
            (moment_of pass.old (K.tells link.old) (C.tells clock.old) self.old.out.items)
            (moment_of pass.new (K.tells link.new) (C.tells clock.new) self.new.out.items)
            self.old.replies self.new.replies }
    {
        let reader = self.reader;
        self.offer_if_due(rt, shared, pass, link, clock, &held)?;
        match reader.release(shared, rt, pass, held) {
            Turn::Done(()) => Ok(()),
            Turn::Worn { .. } => Err(SendEnd::Worn),
        }
    }
}
