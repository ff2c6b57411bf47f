//! The notice of a product.
ghost use Rattle.std.specs.Prelude.{◌≡◌};
ghost use Rattle.ldm_outside.specs.Link.{LinkRecord, IsNotClosed};
ghost use Rattle.ldm_shared.specs.Passes.{PassView};
ghost use Rattle.ldm_sender.specs.Does.{moment_of};
ghost use Rattle.ldm_notify.specs.Notifier.{IsSameNotifier, asked_by};
ghost use Rattle.ldm_notify.specs.Telling.{Tells, row_of};

use crate::notifier::Notifier;
use ldm_outside::Clock;
use ldm_relay::{Message, Notification, write_message};
use ldm_sender::{count_call, is_due};
use ldm_shared::Held;
use ldm_types::OutOfMemory;

impl Notifier<'_> {
    // Gathers a notice of the product that is held, where it is due.
    pub(crate) fn tell_if_due<C: Clock>(
        &mut self,
        clock: &mut C,
        held: &Held,
    ) -> Result<(), OutOfMemory>
        requires { self.old.to ≡ self.old.class.to }
        ensures same { IsSameNotifier self.old self.new }
        ensures tells { (pass : PassView) (link : LinkRecord) → IsNotClosed link
            → Tells result (asked_by self.old) (row_of held.now) self.old.standing self.new.standing
            (moment_of pass link (C.tells clock.old) self.old.out.items)
            (moment_of pass link (C.tells clock.new) self.new.out.items) }
    {
        if !is_due(
            &mut self.class,
            &mut self.rules,
            self.to,
            held.time,
            &held.info,
        ) {
            return Ok(());
        }
        let message = Message::Notification(Notification {
            xid: self.standing.next,
            info: held.info.copy(),
        });
        write_message(&message, &mut self.out)?;
        count_call(&mut self.standing, clock);
        Ok(())
    }
}
