//! Where a session stands between two messages.
ghost use Rattle.std.specs.Prelude.{◌≡◌};
ghost use Rattle.ldm_outside.specs.Clock.{Answers};
ghost use Rattle.ldm_sender.specs.Calls.{later_call};

use ldm_outside::Clock;
use ldm_types::Micros;

/// Where the sending end of a session stands: what its messages so far leave for the next.
#[derive(Clone, Copy, Debug, PartialEq, Eq)]
pub struct Standing {
    /// The number of its next call.
    pub next: u32,
    /// The answer of the clock after its last message.
    pub sent_at: Micros,
}

impl Standing {
    /// Where a session stands before its first message, which is said to be sent at the first instant.
    pub fn first() -> Standing
        ensures { result ≡ record { next = 1; sent_at = 0 } }
    {
        match Micros::new(0) {
            Some(sent_at) => Standing { next: 1, sent_at },
            None => unreachable!(),
        }
    }
}

/// A call is gathered: the next one has the next number, and the clock is asked.
pub fn count_call<C: Clock>(standing: &mut Standing, clock: &mut C)
    ensures next { standing.new.next ≡ later_call standing.old.next 1 }
    ensures answered { Answers standing.new.sent_at (C.tells clock.old) (C.tells clock.new) }
{
    standing.next = standing.next.wrapping_add(1);
    standing.sent_at = clock.now();
}
