//! When a session that has nothing to send says that it is there.
ghost use Rattle.std.specs.Prelude.{◌≡◌};
ghost use Rattle.ldm_session.specs.Idle.{is_silent_since};

use ldm_types::Micros;

/// How long a session may send nothing, in microseconds. It then sends an IS_ALIVE.
pub const LONGEST_SILENCE: u64 = 30_000_000;

/// Whether so much time has passed since the last message was sent, by two answers of one clock, which may go back.
pub fn is_silent_since(sent_at: Micros, now: Micros) -> bool
    ensures { result ≡ is_silent_since sent_at now }
{
    sent_at.get() + LONGEST_SILENCE <= now.get()
}
