//! Who makes the calls of a queue.
ghost use Rattle.std.specs.Prelude.{◌≡◌, ◌≤◌, length, IfOk, OnErr};
ghost use Rattle.ldm_model.specs.Answers.{insert_answer};
ghost use Rattle.ldm_model.specs.declared.event.Event.{Event as Asked};
ghost use Rattle.ldm_model.specs.declared.event.Event.TheVariants as event;
ghost use Rattle.ldm_model.specs.declared.event.Reply.{Reply as Answered};
ghost use Rattle.ldm_answers.specs.Answer.{reply_of, FitsAnswer};
ghost use Rattle.ldm_script.specs.OrderView.{bytes_of, event_of, IsBody, IsWholeCall};
ghost use Rattle.ldm_calls.specs.Rooms.{bytes_asked, bytes_brought};

use ldm_answers::Answer;
use ldm_model::InsertReply;
use ldm_script::{Body, Call};
use ldm_types::{Info, Micros};

/// No call was made: the queue has had all that it can have.
#[derive(Clone, Copy, Debug, PartialEq, Eq)]
pub struct Unmade;

/// Who makes the calls of a queue, each of them an event with a reply.
pub trait Caller {
    /// What a call changes: the queue, or the caller's pass of it.
    type Queue;

    /// Whether the caller may call the queue.
    ghost may_call: { Self → Self.Queue → Type 0 };

    /// A call was made: from the queue, by an event and its reply, to the queue that is left.
    ghost made: { Self → Self.Queue → Asked → Answered → Self.Queue → Type 0 };

    /// A call was not made: from the queue to the one that is left.
    ghost unmade: { Self → Self.Queue → Self.Queue → Type 0 };

    /// Makes a call, and answers what the queue does. A body that is inserted or filled in is made at the front of
    /// `body_room`, and the bytes that are read stand at the front of `read_room`.
    fn call<'a>(
        &self,
        queue: &mut Self::Queue,
        call: &Call,
        body_room: &mut [u8],
        read_room: &'a mut [u8],
    ) -> Result<Answer<'a>, Unmade>
        requires may { may_call self.now queue.old }
        requires whole { IsWholeCall call.now }
        requires body_room { bytes_brought call.now ≤ length body_room.old }
        requires read_room { bytes_asked call.now ≤ length read_room.old }
        ensures done { IfOk result (λ answer. made self.now queue.old (event_of call.now) (reply_of answer) queue.new) }
        ensures fits { IfOk result FitsAnswer }
        ensures undone { OnErr result (unmade self.now queue.old queue.new) };

    /// Makes the call of an insertion, as [`Caller::call`] does. The reply itself is answered, which has no room for
    /// metadata, so that little is moved for each product of many.
    fn insert(
        &self,
        queue: &mut Self::Queue,
        now: Micros,
        info: &Info,
        body: &Body,
        body_room: &mut [u8],
    ) -> Result<InsertReply, Unmade>
        requires may { may_call self.now queue.old }
        requires body { IsBody body.now }
        requires size { length (bytes_of body.now) ≡ info.now.size }
        requires body_room { length (bytes_of body.now) ≤ length body_room.old }
        ensures done { IfOk result (λ reply.
            made self.now queue.old (event.Insert now info.now (bytes_of body.now)) (insert_answer reply) queue.new) }
        ensures undone { OnErr result (unmade self.now queue.old queue.new) };
}
