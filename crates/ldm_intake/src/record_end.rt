//! How the taking of one record ends, of a message of a feed and of a reply to a request.
ghost use Rattle.std.specs.Prelude.{◌≡◌};
ghost use Rattle.ldm_intake.specs.Turning.{end_of_turn};

use ldm_relay::ClassAnswer;
use ldm_shared::Turn;

/// How the taking of one message of a feed ends. It has no class in place.
#[derive(Clone, Copy, Debug)]
pub enum MessageEnd {
    /// The receiving goes on. What the peer is owed and what is logged was appended.
    Goes,
    /// The record is refused: it is not lawful where the receiving stands.
    Bad,
    /// The queue has had all the calls that it can have.
    Worn,
    /// There is no memory. The queue was not called.
    OutOfMemory,
}

/// How the taking of the reply to a request ends. The queue is not called.
#[derive(Drop)]
pub enum AnswerEnd {
    /// The receiving goes on. What the peer is owed was appended.
    Goes,
    /// The record is refused: it is no reply to the request, or it offers a class that has no meaning.
    Bad,
    /// The peer declined the request by this answer.
    Declined(ClassAnswer),
    /// There is no memory.
    OutOfMemory,
}

// How a message ends whose calls came to that.
pub(crate) fn end_of(turn: Turn<()>) -> MessageEnd
    ensures { result ≡ end_of_turn turn }
{
    match turn {
        Turn::Done(()) => MessageEnd::Goes,
        Turn::Worn { .. } => MessageEnd::Worn,
    }
}
