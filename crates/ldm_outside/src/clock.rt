//! Clocks.
ghost use Rattle.ldm_outside.specs.Clock.{ClockRecord};

use ldm_types::Micros;

/// A clock.
pub trait Clock {
    ghost use Rattle.ldm_outside.specs.Clock.{Answers};

    /// What it tells: all instants that it answered, if it tells these.
    ghost tells: { Self → ClockRecord };

    /// The instant that it is now. Nothing says that a later answer is a later instant.
    fn now(&mut self) -> Micros
        ensures { Answers result (tells self.old) (tells self.new) };
}
