//! The blocks of a product.
ghost use Rattle.std.specs.Prelude.{◌≡◌, ◌<◌, ◌+◌, [], ℕ, List, Some};
ghost use Rattle.ldm_shared.specs.Passes.{IsPassOf};
ghost use Rattle.ldm_intake.specs.Products.{blkdata, commits, fills};
ghost use Rattle.ldm_intake.specs.Receiving.{left_of};
ghost use Rattle.ldm_intake.specs.Room.{HasNoteRoom};
ghost use Rattle.ldm_intake.specs.TakesRecord.{TakesRecord, stands};
ghost use Rattle.ldm_intake.specs.Turning.{end_of_turn};

use crate::intake::Intake;
use crate::notes::note_commit;
use crate::phase::Pending;
use crate::record_end::{MessageEnd, end_of};
use crate::room::note_room;
use ldm_relay::Blkdata;
use ldm_shared::{Pass, Shared, Turn, calls_made};
use ldm_types::Micros;
use std::sync::Wait;

impl Intake<'_> {
    // Takes a block.
    pub(crate) fn blkdata<H: Wait>(
        &mut self,
        shared: &Shared,
        rt: &H,
        pass: &mut Pass,
        part: &Blkdata,
        now: Micros,
        notes: &mut Vec<u8>,
    ) -> MessageEnd
        requires { IsPassOf shared.now pass.old }
        ensures { (out : List ℕ)
            → TakesRecord result (blkdata self.old now part.now.signature.0 part.now.number part.now.block.now)
            (stands self.old pass.old out notes.old.items) (stands self.new pass.new out notes.new.items) }
    {
        let Some(pending) = self.awaited() else {
            return MessageEnd::Bad;
        };
        if !pending.is_next(part) {
            return MessageEnd::Bad;
        }
        if note_room(notes).is_err() {
            return MessageEnd::OutOfMemory;
        }
        end_of(self.fill(shared, rt, pass, pending, part.block, now, notes))
    }

    // Fills the next block of a product into its region, and behind the last one commits the product.
    fn fill<H: Wait>(
        &mut self,
        shared: &Shared,
        rt: &H,
        pass: &mut Pass,
        pending: Pending,
        block: &[u8],
        now: Micros,
        notes: &mut Vec<u8>,
    ) -> Turn<()>
        requires of { IsPassOf shared.now pass.old }
        requires room { HasNoteRoom notes.old }
        ensures { (out : List ℕ) → TakesRecord (end_of_turn result) (fills self.old now pending block.now)
            (stands self.old pass.old out notes.old.items) (stands self.new pass.new out notes.new.items) }
    {
        calls_made();
        match shared.fill(rt, pass, pending.r, block) {
            Turn::Done(_) => {
                if pending.left() <= block.len() {
                    self.commit(shared, rt, pass, &pending, now, notes)
                } else {
                    self.wait_for(Some(pending.next()));
                    Turn::Done(())
                }
            }
            Turn::Worn { turns } => Turn::Worn { turns },
        }
    }

    // Commits a product whose blocks all came.
    fn commit<H: Wait>(
        &mut self,
        shared: &Shared,
        rt: &H,
        pass: &mut Pass,
        pending: &Pending,
        now: Micros,
        notes: &mut Vec<u8>,
    ) -> Turn<()>
        requires of { IsPassOf shared.now pass.old }
        requires room { HasNoteRoom notes.old }
        ensures { (out : List ℕ)
            → TakesRecord (end_of_turn result) (commits self.old now [] pending.now.info pending.now.r)
            (stands self.old pass.old out notes.old.items) (stands self.new pass.new out notes.new.items) }
    {
        match shared.commit(rt, pass, pending.r, now) {
            Turn::Done(reply) => {
                note_commit(notes, &pending.info, reply);
                self.pass_by(&pending.info);
                Turn::Done(())
            }
            Turn::Worn { turns } => Turn::Worn { turns },
        }
    }
}
