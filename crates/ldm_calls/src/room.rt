//! The room in which lines are answered.
ghost use Rattle.std.specs.Prelude.{◌≡◌, ◌≤◌, length, OnOk, OnErr};
ghost use Rattle.ldm_answers.specs.Answer.{reply_of};
ghost use Rattle.ldm_script.specs.OrderView.{asked_of, act_with, IsWhole};
ghost use Rattle.ldm_script.specs.Resolve.{last_after};
ghost use Rattle.ldm_answers.specs.declared.answer.TheConstants.{LONGEST_ANSWER};
ghost use Rattle.ldm_calls.specs.Lines.{AnswersLine};

use crate::caller::{Caller, Unmade};
use ldm_answers::{Answer, LONGEST_READ, Text, write_answer, write_insert_reply};
use ldm_script::{Act, LONGEST_BODY, LastPlaces, LentAct};
use ldm_types::{Info, OutOfMemory};
use std::alloc::Global;
use std::marker::Model;

// Room for the bytes of the longest read.
const READ_ROOM: usize = LONGEST_READ as usize;

/// Room for the body of an insertion or a filling, for the bytes of a read, and for an answer line. Contracts see the
/// line.
#[derive(Drop)]
pub struct Room {
    body: Vec<u8>,
    read: [u8; READ_ROOM],
    text: Text,
}

impl Model for Room {
    ghost use Rattle.std.specs.Prelude.{◌≡◌, List, ℕ};
    ghost use Rattle.std.specs.Vec.{vec_len};
    ghost use Rattle.ldm_script.specs.declared.body.TheConstants.{LONGEST_BODY};

    ghost Value = { List ℕ };

    ghost view = { λ room. room.text.items };

    ghost invariant = { λ room. vec_len room.body ≡ LONGEST_BODY };
}

impl Room {
    /// Takes the memory for the longest body.
    pub fn new(alloc: Global) -> Result<Room, OutOfMemory> {
        Ok(Room {
            body: vec![in alloc; 0u8; LONGEST_BODY as usize]?,
            read: [0; READ_ROOM],
            text: Text::new(),
        })
    }

    /// Does what a line asks for: makes its call, writes the answer line with its newline, and notes in `last` the
    /// place that the actor was answered `opened` or `reserved`. Where `.` names no place yet, no call is made, and the
    /// answer is `nocursor` or `noreservation`.
    pub fn answer<C: Caller>(
        &mut self,
        caller: &C,
        queue: &mut C::Queue,
        last: &mut LastPlaces,
        act: &Act,
    ) -> Result<(), Unmade>
        requires may { C.may_call caller.now queue.old }
        requires whole { IsWhole act.now }
        ensures answered { OnOk result
            (AnswersLine (C.made caller.now) (asked_of act.now) queue.old last.old queue.new last.new self.new) }
        ensures unmade { OnErr result (C.unmade caller.now queue.old queue.new) }
        ensures kept { OnErr result (last.new ≡ last.old) }
    {
        let Some(call) = act.call(*last) else {
            write_answer(&act.unresolved(), &mut self.text);
            return Ok(());
        };
        let answer = caller.call(queue, &call, &mut self.body, &mut self.read)?;
        note_place(last, &answer);
        write_answer(&answer, &mut self.text);
        Ok(())
    }

    /// Does what a line asks for, as [`Room::answer`] does, with these metadata if it has any.
    #[tactic(auto, using(crate::proofs::Placing::insert_keeps))]
    pub fn answer_lent<C: Caller>(
        &mut self,
        caller: &C,
        queue: &mut C::Queue,
        last: &mut LastPlaces,
        act: &LentAct,
        info: &Info,
    ) -> Result<(), Unmade>
        requires may { C.may_call caller.now queue.old }
        requires whole { IsWhole (act_with info.now act.now) }
        ensures answered { OnOk result (AnswersLine (C.made caller.now) (asked_of (act_with info.now act.now))
            queue.old last.old queue.new last.new self.new) }
        ensures unmade { OnErr result (C.unmade caller.now queue.old queue.new) }
        ensures kept { OnErr result (last.new ≡ last.old) }
    {
        match act {
            LentAct::Insert { now, body } => {
                let reply = caller.insert(queue, *now, info, body, &mut self.body)?;
                write_insert_reply(reply, &mut self.text);
                Ok(())
            }
            _ => self.answer_call(caller, queue, last, act, info),
        }
    }

    // The same of any line: an answer has room for metadata, which is cleared and moved.
    #[inline(never)]
    fn answer_call<C: Caller>(
        &mut self,
        caller: &C,
        queue: &mut C::Queue,
        last: &mut LastPlaces,
        act: &LentAct,
        info: &Info,
    ) -> Result<(), Unmade>
        requires may { C.may_call caller.now queue.old }
        requires whole { IsWhole (act_with info.now act.now) }
        ensures answered { OnOk result (AnswersLine (C.made caller.now) (asked_of (act_with info.now act.now))
            queue.old last.old queue.new last.new self.new) }
        ensures unmade { OnErr result (C.unmade caller.now queue.old queue.new) }
        ensures kept { OnErr result (last.new ≡ last.old) }
    {
        let Some(call) = act.call(*last, info) else {
            write_answer(&act.unresolved(), &mut self.text);
            return Ok(());
        };
        let answer = caller.call(queue, &call, &mut self.body, &mut self.read)?;
        note_place(last, &answer);
        write_answer(&answer, &mut self.text);
        Ok(())
    }

    /// The answer line that was written last.
    pub fn text(&self) -> &[u8]
        ensures text { result.now ≡ self.now }
        ensures short { length result.now ≤ LONGEST_ANSWER }
    {
        self.text.as_slice()
    }
}

// Notes the place, where the answer is `opened` or `reserved`.
fn note_place(last: &mut LastPlaces, answer: &Answer)
    ensures { last.new ≡ last_after last.old (reply_of answer.now) }
{
    match answer {
        Answer::Opened { k } => last.opened = Some(*k),
        Answer::Reserved { r, .. } => last.reserved = Some(*r),
        _ => {}
    }
}
