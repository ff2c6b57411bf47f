//! Ends, once more.
ghost use Rattle.std.specs.Prelude.{◌≡◌};
ghost use Rattle.ldm_downstream.specs.Pushing.{is_worn};

use ldm_intake::RecvEnd;
use ldm_relay::ClassAnswer;

fn copied_answer(answer: &ClassAnswer) -> ClassAnswer
    ensures { result ≡ answer.now }
{
    match answer {
        ClassAnswer::Ok => ClassAnswer::Ok,
        ClassAnswer::Reclass(class) => ClassAnswer::Reclass(class.copy()),
        ClassAnswer::Denied => ClassAnswer::Denied,
        ClassAnswer::BadPattern => ClassAnswer::BadPattern,
        ClassAnswer::Busy => ClassAnswer::Busy,
    }
}

/// The same end once more. It takes no memory.
pub(crate) fn copied_end(end: &RecvEnd) -> RecvEnd
    ensures { result ≡ end.now }
{
    match end {
        RecvEnd::Ended => RecvEnd::Ended,
        RecvEnd::Truncated { at } => RecvEnd::Truncated { at: *at },
        RecvEnd::BadFrame { at } => RecvEnd::BadFrame { at: *at },
        RecvEnd::Refused { answer } => RecvEnd::Refused {
            answer: copied_answer(answer),
        },
        RecvEnd::LinkFault => RecvEnd::LinkFault,
        RecvEnd::LogFault => RecvEnd::LogFault,
        RecvEnd::StreamLimit => RecvEnd::StreamLimit,
        RecvEnd::Worn => RecvEnd::Worn,
        RecvEnd::OutOfMemory => RecvEnd::OutOfMemory,
    }
}

/// Whether the queue could have no call more.
pub(crate) fn is_worn(end: &RecvEnd) -> bool
    ensures { result ≡ is_worn end.now }
{
    matches!(end, RecvEnd::Worn)
}
