//! A product that is due: it goes whole where the peer asked for that, and else it is announced.
ghost use Rattle.std.specs.Prelude.{◌≡◌, ℕ, List};
ghost use Rattle.ldm_outside.specs.Link.{IsNotClosed};
ghost use Rattle.ldm_relay.specs.Writable.{IsShortProduct};
ghost use Rattle.ldm_shared.specs.Passes.{IsPassOf, IsSamePass};
ghost use Rattle.ldm_shared.specs.Reader.{Holds};
ghost use Rattle.ldm_sender.specs.Asked.{Asked};
ghost use Rattle.ldm_sender.specs.Does.{moment_of};
ghost use Rattle.ldm_upstream.specs.Feeder.{IsSameFeeder};
ghost use Rattle.ldm_upstream.specs.Giving.{given_of};
ghost use Rattle.ldm_upstream.specs.Turn.{IsDue};
ghost use Rattle.ldm_upstream.specs.Offering.{Offers};

use crate::announcing::announce;
use crate::feeder::Feeder;
use crate::give::{give_blocks, give_whole};
use crate::lent::Lent;
use ldm_outside::{Clock, Link};
use ldm_relay::SoonAnswer;
use ldm_sender::SendEnd;
use ldm_shared::{Held, Pass, Shared};
use std::sync::Wait;

impl Feeder<'_> {
    // Gives a product that is due: whole, or in blocks where the peer wants them.
    pub(crate) fn offer<H: Wait, K: Link, C: Clock>(
        &mut self,
        rt: &H,
        shared: &Shared,
        pass: &mut Pass,
        link: &mut K,
        clock: &mut C,
        held: &Held,
    ) -> Result<(), SendEnd>
        requires of { IsPassOf shared.now pass.old }
        requires holds { (body : List ℕ) × Holds pass.old self.old.reader.k held.now body }
        requires short { IsShortProduct held.now.info held.now.info.size }
        requires not_closed { IsNotClosed (K.tells link.old) }
        ensures kept { IsSamePass pass.old pass.new }
        ensures still_open { IsNotClosed (K.tells link.new) }
        ensures same { IsSameFeeder self.old self.new }
        ensures offers { (asked : Asked) (body : List ℕ) → asked.max_hereis ≡ self.old.max_hereis
            → IsDue asked (given_of held.now body) → Holds pass.old self.old.reader.k held.now body
            → Offers result asked self.old.reader.k (given_of held.now body) self.old.standing self.new.standing
            (moment_of pass.old (K.tells link.old) (C.tells clock.old) self.old.out.items)
            (moment_of pass.new (K.tells link.new) (C.tells clock.new) self.new.out.items)
            self.old.replies self.new.replies }
    {
        let lent = Lent {
            reader: self.reader,
            held,
        };
        if held.info.size() <= self.max_hereis {
            return give_whole(
                rt,
                shared,
                pass,
                link,
                clock,
                &lent,
                &mut self.standing,
                &mut self.out,
            );
        }
        match announce(
            rt,
            link,
            clock,
            held,
            &mut self.standing,
            &mut self.out,
            &mut self.replies,
        )? {
            SoonAnswer::Ok => give_blocks(
                rt,
                shared,
                pass,
                link,
                clock,
                &lent,
                &mut self.standing,
                &mut self.out,
            ),
            SoonAnswer::DontSend => Ok(()),
        }
    }
}
