//! The messages of a feed.
ghost use Rattle.std.specs.Prelude.{◌≡◌, ℕ, List, true, length};
ghost use Rattle.ldm_shared.specs.Passes.{IsPassOf, IsSamePass};
ghost use Rattle.ldm_intake.specs.Products.{hereis, hereis_wanted};
ghost use Rattle.ldm_intake.specs.Record.{record_course};
ghost use Rattle.ldm_intake.specs.Room.{HasNoteRoom};
ghost use Rattle.ldm_intake.specs.Settled.{is_feeding};
ghost use Rattle.ldm_intake.specs.TakesRecord.{TakesRecord, stands};
ghost use Rattle.ldm_intake.specs.Turning.{end_of_turn};

use crate::intake::Intake;
use crate::notes::{note_insert, put_unwanted};
use crate::record_end::{MessageEnd, end_of};
use crate::room::note_room;
use ldm_relay::{FeedCall, Hereis, read_feed_call};
use ldm_shared::{Pass, Shared, Turn};
use ldm_types::Micros;
use std::sync::Wait;

impl Intake<'_> {
    /// Takes one record of a feed that has begun, which was complete at the moment `now`: asks the queue what
    /// `record_course` says, and appends the messages that the peer is owed to `out`, and the log lines to `notes`.
    ///
    /// Memory is taken before the queue is called, so what it answered is never lost.
    #[tactic(auto, using(crate::proofs::FeedCourses::takes_call, crate::proofs::FeedCourses::takes_other))]
    pub fn take_message<H: Wait>(
        &mut self,
        shared: &Shared,
        rt: &H,
        pass: &mut Pass,
        content: &[u8],
        now: Micros,
        out: &mut Vec<u8>,
        notes: &mut Vec<u8>,
    ) -> MessageEnd
        requires of { IsPassOf shared.now pass.old }
        requires feeding { is_feeding self.old.phase ≡ true }
        ensures kept { IsSamePass pass.old pass.new }
        ensures took { TakesRecord result (record_course self.old now content.now)
            (stands self.old pass.old out.old.items notes.old.items)
            (stands self.new pass.new out.new.items notes.new.items) }
    {
        match read_feed_call(content) {
            Some(FeedCall::Hereis(product)) => self.hereis(shared, rt, pass, &product, now, notes),
            Some(FeedCall::Comingsoon(soon)) => {
                self.comingsoon(shared, rt, pass, &soon, now, out, notes)
            }
            Some(FeedCall::Blkdata(part)) => self.blkdata(shared, rt, pass, &part, now, notes),
            Some(FeedCall::Isalive(_)) => MessageEnd::Goes,
            None => MessageEnd::Bad,
        }
    }

    // Takes a product that came whole.
    fn hereis<H: Wait>(
        &mut self,
        shared: &Shared,
        rt: &H,
        pass: &mut Pass,
        product: &Hereis,
        now: Micros,
        notes: &mut Vec<u8>,
    ) -> MessageEnd
        requires of { IsPassOf shared.now pass.old }
        requires sized { length product.now.body.now ≡ product.now.info.size }
        ensures { (out : List ℕ) → TakesRecord result (hereis self.old now product.now.info product.now.body.now)
            (stands self.old pass.old out notes.old.items) (stands self.new pass.new out notes.new.items) }
    {
        if !self.is_idle() {
            return MessageEnd::Bad;
        }
        if note_room(notes).is_err() {
            return MessageEnd::OutOfMemory;
        }
        match self.wants(&product.info) {
            Ok(true) => end_of(self.insert(shared, rt, pass, product, now, notes)),
            Ok(false) => {
                put_unwanted(notes, &product.info);
                self.pass_by(&product.info);
                MessageEnd::Goes
            }
            Err(_) => MessageEnd::OutOfMemory,
        }
    }

    // Offers a product to the queue.
    fn insert<H: Wait>(
        &mut self,
        shared: &Shared,
        rt: &H,
        pass: &mut Pass,
        product: &Hereis,
        now: Micros,
        notes: &mut Vec<u8>,
    ) -> Turn<()>
        requires of { IsPassOf shared.now pass.old }
        requires sized { length product.now.body.now ≡ product.now.info.size }
        requires room { HasNoteRoom notes.old }
        ensures { (out : List ℕ)
            → TakesRecord (end_of_turn result) (hereis_wanted self.old now product.now.info product.now.body.now)
            (stands self.old pass.old out notes.old.items) (stands self.new pass.new out notes.new.items) }
    {
        match shared.insert(rt, pass, now, &product.info, product.body) {
            Turn::Done(reply) => {
                note_insert(notes, &product.info, reply);
                self.pass_by(&product.info);
                Turn::Done(())
            }
            Turn::Worn { turns } => Turn::Worn { turns },
        }
    }
}
