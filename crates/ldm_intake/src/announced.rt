//! A product that is announced.
ghost use Rattle.std.specs.Prelude.{◌≡◌, ◌++◌, ◌∷◌, [], ℕ, List};
ghost use Rattle.ldm_model.specs.Answers.{reserve_answer};
ghost use Rattle.ldm_relay.specs.Sent as sent;
ghost use Rattle.ldm_relay.specs.declared.message.SoonAnswer.TheVariants as soon_answer;
ghost use Rattle.ldm_shared.specs.Passes.{IsPassOf};
ghost use Rattle.ldm_intake.specs.Notes.{note_lines};
ghost use Rattle.ldm_intake.specs.Products.{comingsoon, comingsoon_wanted, reserved, accepts, commits};
ghost use Rattle.ldm_intake.specs.Receiving.{with_last};
ghost use Rattle.ldm_intake.specs.Room.{HasNoteRoom, HasReplyRoom};
ghost use Rattle.ldm_relay.specs.Spelling.{records_of};
ghost use Rattle.ldm_intake.specs.TakesRecord.{TakesRecord, stands};
ghost use Rattle.ldm_intake.specs.Turning.{end_of_turn};

use crate::intake::Intake;
use crate::notes::{note_commit, note_reserve, put_unwanted};
use crate::phase::Pending;
use crate::record_end::{MessageEnd, end_of};
use crate::replies::put_soon;
use crate::room::{note_room, reply_room};
use ldm_model::{ReserveNo, ReserveReply};
use ldm_relay::{Comingsoon, LARGEST_BLOCK, SoonAnswer};
use ldm_shared::{Pass, Shared, Turn, calls_made};
use ldm_types::Micros;
use std::sync::Wait;

impl Intake<'_> {
    // Takes the announcement of a product.
    pub(crate) fn comingsoon<H: Wait>(
        &mut self,
        shared: &Shared,
        rt: &H,
        pass: &mut Pass,
        soon: &Comingsoon,
        now: Micros,
        out: &mut Vec<u8>,
        notes: &mut Vec<u8>,
    ) -> MessageEnd
        requires { IsPassOf shared.now pass.old }
        ensures { TakesRecord result (comingsoon self.old now soon.now.xid soon.now.info soon.now.block_size)
            (stands self.old pass.old out.old.items notes.old.items)
            (stands self.new pass.new out.new.items notes.new.items) }
    {
        if !self.is_idle() || soon.block_size as usize != LARGEST_BLOCK {
            return MessageEnd::Bad;
        }
        if note_room(notes).is_err() || reply_room(out).is_err() {
            return MessageEnd::OutOfMemory;
        }
        match self.wants(&soon.info) {
            Ok(true) => end_of(self.reserve(shared, rt, pass, soon, now, out, notes)),
            Ok(false) => {
                put_unwanted(notes, &soon.info);
                self.decline(soon, out);
                MessageEnd::Goes
            }
            Err(_) => MessageEnd::OutOfMemory,
        }
    }

    // Answers that the product is not to be sent.
    fn decline(&mut self, soon: &Comingsoon, out: &mut Vec<u8>)
        requires { HasReplyRoom out.old }
        ensures passed_by { self.new ≡ with_last self.old soon.now.info }
        ensures replied { out.new.items ≡ out.old.items ++ records_of
            (sent.ComingsoonReply soon.now.xid soon_answer.DontSend ∷ []) }
    {
        put_soon(out, soon.xid, SoonAnswer::DontSend);
        self.pass_by(&soon.info);
    }

    // Asks the queue for room, and answers by what it says.
    fn reserve<H: Wait>(
        &mut self,
        shared: &Shared,
        rt: &H,
        pass: &mut Pass,
        soon: &Comingsoon,
        now: Micros,
        out: &mut Vec<u8>,
        notes: &mut Vec<u8>,
    ) -> Turn<()>
        requires of { IsPassOf shared.now pass.old }
        requires reply_room { HasReplyRoom out.old }
        requires note_room { HasNoteRoom notes.old }
        ensures { TakesRecord (end_of_turn result) (comingsoon_wanted self.old now soon.now.xid soon.now.info)
            (stands self.old pass.old out.old.items notes.old.items)
            (stands self.new pass.new out.new.items notes.new.items) }
    {
        calls_made();
        match shared.reserve(rt, pass, &soon.info) {
            Turn::Done(reply) => match reply {
                ReserveReply::Reserved { r, .. } => {
                    self.accept_blocks(shared, rt, pass, soon, r, now, out, notes)
                }
                refusal => {
                    note_reserve(notes, &soon.info, refusal);
                    self.decline(soon, out);
                    Turn::Done(())
                }
            },
            Turn::Worn { turns } => Turn::Worn { turns },
        }
    }

    // A region was reserved: answers that the blocks may come, and where there are none, commits at once.
    fn accept_blocks<H: Wait>(
        &mut self,
        shared: &Shared,
        rt: &H,
        pass: &mut Pass,
        soon: &Comingsoon,
        r: ReserveNo,
        now: Micros,
        out: &mut Vec<u8>,
        notes: &mut Vec<u8>,
    ) -> Turn<()>
        requires of { IsPassOf shared.now pass.old }
        requires reply_room { HasReplyRoom out.old }
        requires note_room { HasNoteRoom notes.old }
        ensures { TakesRecord (end_of_turn result) (accepts self.old now soon.now.xid soon.now.info r)
            (stands self.old pass.old out.old.items notes.old.items)
            (stands self.new pass.new out.new.items notes.new.items) }
    {
        if soon.info.size() != 0 {
            put_soon(out, soon.xid, SoonAnswer::Ok);
            self.wait_for(Some(Pending {
                info: soon.info.copy(),
                r,
                blocks: 0,
            }));
            return Turn::Done(());
        }
        match shared.commit(rt, pass, r, now) {
            Turn::Done(reply) => {
                note_commit(notes, &soon.info, reply);
                put_soon(out, soon.xid, SoonAnswer::Ok);
                self.pass_by(&soon.info);
                Turn::Done(())
            }
            Turn::Worn { turns } => Turn::Worn { turns },
        }
    }
}
