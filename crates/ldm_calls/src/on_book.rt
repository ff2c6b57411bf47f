//! An actor, which calls a book. The book answers every call.

use crate::caller::{Caller, Unmade};
use ldm_answers::Answer;
use ldm_book::Book;
use ldm_model::{
    InsertReply, actor_is_possible, commit_is_possible, feed_is_possible, fill_is_possible,
    info_is_possible, insert_is_possible, place_is_possible, reservation_is_possible,
    signature_is_possible, start_is_possible,
};
use ldm_script::{Body, Call, body_into};
use ldm_types::{Actor, Info, Micros};

impl Caller for Actor {
    ghost use Rattle.ldm_calls.specs.OnBook.{BookAnswers};

    type Queue = Book;

    ghost may_call = { λ _ _. Unit {0} };

    ghost made = { λ actor book event reply new. BookAnswers actor book event reply new };

    ghost unmade = { λ _ _ _. ⊥ };

    fn call<'a>(
        &self,
        queue: &mut Book,
        call: &Call,
        body_room: &mut [u8],
        read_room: &'a mut [u8],
    ) -> Result<Answer<'a>, Unmade> {
        let actor = *self;
        actor_is_possible(actor);
        Ok(match call {
            Call::Insert { now, info, body } => {
                Answer::from(self.insert(queue, *now, info, body, body_room)?)
            }
            Call::OpenCursor { feed, start } => {
                feed_is_possible(*feed);
                start_is_possible(start);
                Answer::from(queue.open_cursor(actor, *feed, *start))
            }
            Call::Step { k } => {
                place_is_possible(*k);
                Answer::from(queue.step(actor, *k))
            }
            Call::Read { k, offset, len } => {
                place_is_possible(*k);
                let into = &mut read_room[..*len as usize];
                Answer::from_read(queue.read(actor, *k, *offset, into), into)
            }
            Call::Release { k } => {
                place_is_possible(*k);
                Answer::from(queue.release(actor, *k))
            }
            Call::Close { k } => {
                place_is_possible(*k);
                Answer::from(queue.close(actor, *k))
            }
            Call::Look { signature } => {
                signature_is_possible(signature);
                Answer::from(queue.look(actor, signature))
            }
            Call::Expire => Answer::from(queue.expire(actor)),
            Call::Tally { k } => {
                place_is_possible(*k);
                Answer::from(queue.tally(actor, *k))
            }
            Call::Stat => Answer::from(queue.stat(actor)),
            Call::Reserve { info } => {
                info_is_possible(info);
                Answer::from(queue.reserve(actor, info))
            }
            Call::Fill { r, body } => {
                let len = body_into(body, body_room);
                let bytes = &body_room[..len];
                fill_is_possible(*r, bytes);
                Answer::from(queue.fill(actor, *r, bytes))
            }
            Call::Commit { r, now } => {
                commit_is_possible(*r, *now);
                Answer::from(queue.commit(actor, *r, *now))
            }
            Call::Discard { r } => {
                reservation_is_possible(*r);
                Answer::from(queue.discard(actor, *r))
            }
        })
    }

    fn insert(
        &self,
        queue: &mut Book,
        now: Micros,
        info: &Info,
        body: &Body,
        body_room: &mut [u8],
    ) -> Result<InsertReply, Unmade> {
        let actor = *self;
        actor_is_possible(actor);
        let len = body_into(body, body_room);
        let bytes = &body_room[..len];
        insert_is_possible(now, info, bytes);
        Ok(queue.insert(actor, now, info, bytes))
    }
}
