//! The calls that the orders of an exercise ask for.
ghost use Rattle.std.specs.Prelude.{◌≡◌, ◌≤◌, length, IfOk, OnErr};
ghost use Rattle.ldm_calls.specs.OnBook.{BookAnswers};
ghost use Rattle.ldm_answers.specs.Answer.{reply_of, FitsAnswer};
ghost use Rattle.ldm_exercise.specs.OrderView.{event_of, IsShort};
ghost use Rattle.ldm_exercise.specs.declared.order.TheConstants.{BODY_LIMIT, READ_SIZE};

use crate::order::{BODY_LIMIT, Order, READ_SIZE, Request};
use ldm_answers::Answer;
use ldm_book::Book;
use ldm_calls::{Caller, Unmade};
use ldm_model::Start;
use ldm_script::{Body, Call};
use ldm_types::{CursorNo, Feed};

/// Makes the call of an order, and answers what the queue does. A body that is inserted is made in `body_room`, and the
/// bytes that are read stand in `read_room`.
pub fn call<'a>(
    order: &Order,
    book: &mut Book,
    body_room: &mut [u8],
    read_room: &'a mut [u8],
) -> Result<Answer<'a>, Unmade>
    requires short { IsShort order.now.request }
    requires body_room { BODY_LIMIT ≤ length body_room.old }
    requires read_room { READ_SIZE ≤ length read_room.old }
    ensures made { IfOk result
        (λ answer. BookAnswers order.now.actor book.old (event_of order.now.actor order.now.request)
        (reply_of answer) book.new) }
    ensures fits { IfOk result FitsAnswer }
    ensures unmade { OnErr result ⊥ }
{
    let actor = order.actor;
    let Some(k) = CursorNo::new(actor.get()) else {
        unreachable!()
    };
    match &order.request {
        Request::Open => {
            let feed = Feed(u32::MAX);
            let start = Start::Oldest;
            actor.call(
                book,
                &Call::OpenCursor { feed, start },
                body_room,
                read_room,
            )
        }
        Request::Insert { info, byte } => {
            let now = info.arrival();
            let count = info.size();
            let body = &Body::Fill { count, byte: *byte };
            actor.call(
                book,
                &Call::Insert { now, info, body },
                body_room,
                read_room,
            )
        }
        Request::Step => actor.call(book, &Call::Step { k }, body_room, read_room),
        Request::Read => {
            let len = READ_SIZE as u32;
            actor.call(
                book,
                &Call::Read { k, offset: 0, len },
                body_room,
                read_room,
            )
        }
        Request::Release => actor.call(book, &Call::Release { k }, body_room, read_room),
    }
}
