//! A player, which plays the lines of one actor.
ghost use Rattle.std.specs.Prelude.{◌≡◌, ◌+◌, ◌<◌, ◌≤◌, ◌∷◌, ◌++◌, [], length, IfOk, IfErr, OnOk, OnErr};
ghost use Rattle.std.specs.Vec.{vec_len, vec_capacity};
ghost use Rattle.ldm_model.specs.declared.event.Reply.{Reply};
ghost use Rattle.ldm_answers.specs.Answer.{answer_line};
ghost use Rattle.ldm_script.specs.OrderView.{asked_of, act_with, IsWhole};
ghost use Rattle.ldm_script.specs.Resolve.{no_places};
ghost use Rattle.ldm_shared.specs.Passes.{IsPassOf, IsSamePass};
ghost use Rattle.ldm_crowd.specs.Interleaving.{crowd_line};
ghost use Rattle.ldm_crowd.specs.OrdersView.{asked_lines, script_in};
ghost use Rattle.ldm_crowd.specs.Players.{Begins, LineFails, PlaysLine, Plays, PlayerEnds, end_of_result};
ghost use Rattle.ldm_answers.specs.declared.answer.TheConstants.{LONGEST_ANSWER};
ghost use Rattle.ldm_crowd.specs.declared.player.TheConstants.{ANSWER_ROOM};

use crate::actor_lines::ActorLines;
use crate::orders::Orders;
use crate::outcome::CrowdEnd;
use crate::turns::Turns;
use itoa::Buffer;
use ldm_answers::LONGEST_ANSWER;
use ldm_calls::Room;
use ldm_outside::{Gate, Go};
use ldm_script::{LastPlaces, LentAct, blank_info};
use ldm_shared::{Pass, Shared, Work};
use ldm_types::{Actor, Info};
use std::alloc::Global;
use std::sync::Wait;

/// Room for the number of an actor, a blank, and the longest answer line.
pub(crate) const ANSWER_ROOM: usize = LONGEST_ANSWER + 41;

/// A player: its gate, what `.` stands for, and what was answered to its lines so far.
pub(crate) struct Player<G> {
    pub(crate) gate: G,
    pub(crate) last: LastPlaces,
    pub(crate) answers: Vec<u8>,
    /// How it ended.
    pub(crate) end: CrowdEnd,
}

/// A player with the room that it plays in.
pub(crate) struct Worker<G> {
    pub(crate) player: Player<G>,
    pub(crate) room: Room,
}

/// The work of a crowd: each plays the lines of its pass's actor.
#[derive(Clone, Copy)]
pub(crate) struct Playing<'a> {
    pub(crate) orders: &'a Orders<'a>,
}

impl<'a, G: Gate> Work<Worker<G>> for Playing<'a> {
    ghost use Rattle.ldm_shared.specs.Passes.{IsPassOf, IsSamePass};
    ghost use Rattle.ldm_crowd.specs.OrdersView.{script_in};
    ghost use Rattle.ldm_crowd.specs.Players.{Begins, Plays};

    ghost begins = { λ work pass worker. Begins (script_in work.orders.now) pass worker.player };

    ghost works = { λ work old_pass old new_pass new. Plays G.tells
        (script_in work.orders.now) old_pass old.player new_pass new.player };

    fn work<H: Wait>(&self, rt: &H, shared: &Shared, pass: &mut Pass, own: &mut Worker<G>) {
        own.player
            .play(rt, shared, pass, &mut own.room, self.orders);
    }
}

impl<G: Gate> Player<G> {
    /// Plays the lines of the pass's actor, and notes how it ended.
    pub(crate) fn play<H: Wait>(
        &mut self,
        rt: &H,
        shared: &Shared,
        pass: &mut Pass,
        room: &mut Room,
        orders: &Orders,
    )
        requires of { IsPassOf shared.now pass.old }
        requires begins { Begins (script_in orders.now) pass.old self.old }
        ensures same { IsSamePass pass.old pass.new }
        ensures plays { Plays G.tells (script_in orders.now) pass.old self.old pass.new self.new }
    {
        let lines = orders.of_actor(pass.actor());
        self.end = match self.play_lines(rt, shared, pass, room, lines) {
            Ok(()) => CrowdEnd::Done,
            Err(end) => end,
        };
    }

    // Plays these lines.
    fn play_lines<H: Wait>(
        &mut self,
        rt: &H,
        shared: &Shared,
        pass: &mut Pass,
        room: &mut Room,
        lines: &ActorLines,
    ) -> Result<(), CrowdEnd>
        requires of { IsPassOf shared.now pass.old }
        requires unseen { pass.old.seen ≡ [] }
        requires unopened { self.old.last ≡ no_places }
        requires unanswered { self.old.answers.items ≡ [] }
        ensures same { IsSamePass pass.old pass.new }
        ensures ended { PlayerEnds (end_of_result result) (asked_lines lines.now) pass.new self.new.answers.items
            (G.tells self.old.gate) (G.tells self.new.gate) }
        ensures stops_kept { (G.tells self.old.gate).stops ≤ (G.tells self.new.gate).stops }
    {
        let mut info = blank_info();
        for i in 0..lines.len() {
            let act = lines.act(i, &mut info);
            self.play_line(rt, shared, pass, room, i as u64, &act, &info)?;
        }
        Ok(())
    }

    // Plays the line of that number: takes room for its answer, asks the gate, makes the call, writes the answer, and
    // tells the gate.
    fn play_line<H: Wait>(
        &mut self,
        rt: &H,
        shared: &Shared,
        pass: &mut Pass,
        room: &mut Room,
        i: u64,
        act: &LentAct,
        info: &Info,
    ) -> Result<(), CrowdEnd>
        requires of { IsPassOf shared.now pass.old }
        requires whole { IsWhole (act_with info.now act.now) }
        ensures same { IsSamePass pass.old pass.new }
        ensures played { OnOk result
            (PlaysLine G.tells i (asked_of (act_with info.now act.now)) pass.old self.old pass.new self.new) }
        ensures failed { IfErr result (λ end. LineFails G.tells end i pass.old self.old pass.new self.new) }
        ensures unanswered { OnErr result (self.new.answers.items ≡ self.old.answers.items) }
        ensures stops_kept { (G.tells self.old.gate).stops ≤ (G.tells self.new.gate).stops }
    {
        let actor = pass.actor();
        if self.answers.reserve(ANSWER_ROOM).is_err() {
            return Err(CrowdEnd::OutOfMemory);
        }
        match self.gate.before(actor, i) {
            Go::On => {}
            Go::Stop => return Err(CrowdEnd::Stopped),
        }
        let turns = Turns { rt, shared };
        let Ok(()) = room.answer_lent(&turns, pass, &mut self.last, act, info) else {
            return Err(CrowdEnd::Worn);
        };
        append_answer(&mut self.answers, actor, room.text());
        self.gate.after(actor, i);
        Ok(())
    }
}

// Appends the actor, a blank, and an answer line with its newline. There is room for them.
fn append_answer(answers: &mut Vec<u8>, actor: Actor, line: &[u8])
    requires short { length line.now ≤ LONGEST_ANSWER }
    requires room { vec_len answers.old + ANSWER_ROOM ≤ vec_capacity answers.old }
    ensures { (reply : Reply) → line.now ≡ answer_line reply
        → answers.new.items ≡ answers.old.items ++ crowd_line actor reply }
{
    let mut digits = Buffer::new();
    append(answers, digits.format(actor.get()).as_bytes());
    answers.push_reserved(b' ');
    append(answers, line);
}

// Appends bytes, for which there is room.
fn append(to: &mut Vec<u8>, bytes: &[u8])
    requires { vec_len to.old + length bytes.now ≤ vec_capacity to.old }
    ensures items { to.new.items ≡ to.old.items ++ bytes.now }
    ensures len { vec_len to.new ≡ vec_len to.old + length bytes.now }
    ensures capacity { vec_capacity to.old ≤ vec_capacity to.new }
{
    let Ok(()) = to.extend_from_slice(bytes) else {
        unreachable!()
    };
}
