//! A pass, with which the calls of a shared queue are made.
ghost use Rattle.std.specs.Prelude.{◌≡◌, ℕ, IfOk, OnErr};

use ldm_answers::Answer;
use ldm_calls::{Caller, Unmade};
use ldm_model::InsertReply;
use ldm_script::{Body, Call, body_into};
use ldm_shared::{Pass, Shared, Turn};
use ldm_types::{Info, Micros};
use std::sync::Wait;

/// Who makes the calls of a shared queue, each in a turn of its own, and waits for it.
#[derive(Drop)]
pub(crate) struct Turns<'a, H: Wait> {
    pub(crate) rt: &'a H,
    pub(crate) shared: &'a Shared,
}

impl<'a, H: Wait> Caller for Turns<'a, H> {
    ghost use Rattle.std.specs.Prelude.{ℕ};
    ghost use Rattle.ldm_shared.specs.Passes.{IsPassOf, Grows, FindsWorn};

    type Queue = Pass;

    ghost may_call = { λ turns pass. IsPassOf turns.shared.now pass };

    ghost made = { λ _ old event reply new. Grows old new event reply };

    ghost unmade = { λ _ old new. (turns : ℕ) × FindsWorn old new turns };

    fn call<'r>(
        &self,
        pass: &mut Pass,
        call: &Call,
        body_room: &mut [u8],
        read_room: &'r mut [u8],
    ) -> Result<Answer<'r>, Unmade> {
        let rt = self.rt;
        let shared = self.shared;
        Ok(match call {
            Call::Insert { now, info, body } => {
                Answer::from(self.insert(pass, *now, info, body, body_room)?)
            }
            Call::OpenCursor { feed, start } => {
                Answer::from(done(shared.open_cursor(rt, pass, *feed, *start))?)
            }
            Call::Step { k } => Answer::from(done(shared.step(rt, pass, *k))?),
            Call::Read { k, offset, len } => {
                let into = &mut read_room[..*len as usize];
                Answer::from_read(done(shared.read(rt, pass, *k, *offset, into))?, into)
            }
            Call::Release { k } => Answer::from(done(shared.release(rt, pass, *k))?),
            Call::Close { k } => Answer::from(done(shared.close(rt, pass, *k))?),
            Call::Look { signature } => Answer::from(done(shared.look(rt, pass, signature))?),
            Call::Expire => Answer::from(done(shared.expire(rt, pass))?),
            Call::Tally { k } => Answer::from(done(shared.tally(rt, pass, *k))?),
            Call::Stat => Answer::from(done(shared.stat(rt, pass))?),
            Call::Reserve { info } => Answer::from(done(shared.reserve(rt, pass, info))?),
            Call::Fill { r, body } => {
                let len = body_into(body, body_room);
                Answer::from(done(shared.fill(rt, pass, *r, &body_room[..len]))?)
            }
            Call::Commit { r, now } => Answer::from(done(shared.commit(rt, pass, *r, *now))?),
            Call::Discard { r } => Answer::from(done(shared.discard(rt, pass, *r))?),
        })
    }

    fn insert(
        &self,
        pass: &mut Pass,
        now: Micros,
        info: &Info,
        body: &Body,
        body_room: &mut [u8],
    ) -> Result<InsertReply, Unmade> {
        let rt = self.rt;
        let shared = self.shared;
        let len = body_into(body, body_room);
        done(shared.insert(rt, pass, now, info, &body_room[..len]))
    }
}

// What the call of a turn was answered.
fn done<R>(turn: Turn<R>) -> Result<R, Unmade>
    ensures done { IfOk result (λ reply. turn ≡ Turn.Done reply) }
    ensures worn { OnErr result ((turns : ℕ) × (turn ≡ Turn.Worn turns)) }
{
    match turn {
        Turn::Done(reply) => Ok(reply),
        Turn::Worn { .. } => Err(Unmade),
    }
}
