//! A product that the cursor gave.
ghost use Rattle.std.specs.Prelude.{◌≡◌, Some};
ghost use Rattle.ldm_outside.specs.Link.{IsNotClosed};
ghost use Rattle.ldm_shared.specs.Passes.{IsPassOf, IsSamePass};
ghost use Rattle.ldm_shared.specs.Reader.{HasCursor};
ghost use Rattle.ldm_sender.specs.Does.{moment_of};
ghost use Rattle.ldm_notify.specs.Notifier.{IsSameNotifier, asked_by};
ghost use Rattle.ldm_notify.specs.Telling.{Handles, row_of};

use crate::notifier::Notifier;
use ldm_outside::{Clock, Link};
use ldm_sender::SendEnd;
use ldm_session::send_where_full;
use ldm_shared::{Held, Pass, Shared, Turn};
use std::sync::Wait;

impl Notifier<'_> {
    // A product that the cursor gave: a notice of it is gathered where it is due, and it is let go before anything is
    // sent.
    pub(crate) fn handle<H: Wait, K: Link, C: Clock>(
        &mut self,
        rt: &H,
        shared: &Shared,
        pass: &mut Pass,
        link: &mut K,
        clock: &mut C,
        held: Held,
    ) -> Result<(), SendEnd>
        requires of { IsPassOf shared.now pass.old }
        requires holds { HasCursor pass.old self.old.reader.k (Some held.n) }
        requires to_is { self.old.to ≡ self.old.class.to }
        requires not_closed { IsNotClosed (K.tells link.old) }
        ensures kept { IsSamePass pass.old pass.new }
        ensures still_open { IsNotClosed (K.tells link.new) }
        ensures same { IsSameNotifier self.old self.new }
        ensures handles { Handles result (asked_by self.old) self.old.reader.k (row_of held) self.old.standing
            self.new.standing
            (moment_of pass.old (K.tells link.old) (C.tells clock.old) self.old.out.items)
            (moment_of pass.new (K.tells link.new) (C.tells clock.new) self.new.out.items) }
    {
        let reader = self.reader;
        self.tell_if_due(clock, &held)?;
        if let Turn::Worn { .. } = reader.release(shared, rt, pass, held) {
            return Err(SendEnd::Worn);
        }
        send_where_full(&mut self.out, link)?;
        Ok(())
    }
}
