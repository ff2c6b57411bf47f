//! Clocks in memory, which answer from a list.
ghost use Rattle.std.specs.Prelude.{◌≡◌};
ghost use Rattle.ldm_outside_memory.specs.MemClock.{nth_instant};

use ldm_outside::{Clock, Rests};
use ldm_types::Micros;
use std::marker::Model;

/// A clock that answers the instants of a list, and then the last again each time.
#[derive(Drop)]
pub struct MemClock {
    instants: Vec<Micros>,
    calls: u64,
}

impl Model for MemClock {
    ghost use Rattle.ldm_outside_memory.specs.MemClock.{ClockState};

    ghost Value = { ClockState };

    ghost view = { λ s. record { instants = s.instants.items; calls = s.calls } };
}

impl MemClock {
    /// A clock that answers these instants. Where there is none it answers the instant 0.
    pub fn new(instants: Vec<Micros>) -> MemClock
        ensures { result ≡ record { instants = instants.items; calls = 0 } }
    {
        MemClock { instants, calls: 0 }
    }

    /// How often it was asked.
    pub fn calls(&self) -> u64
        ensures { result ≡ self.now.calls }
    {
        self.calls
    }
}

impl Clock for MemClock {
    ghost use Rattle.ldm_outside.specs.Clock.{Answers};
    ghost use Rattle.ldm_outside_memory.specs.MemClock.{told_by_clock, AnswersAsPlanned};

    ghost tells = { told_by_clock };

    fn now(&mut self) -> Micros
        ensures answered { Answers result (told_by_clock self.old) (told_by_clock self.new) }
        ensures planned { AnswersAsPlanned result self.old self.new }
    {
        let instant = instant_at(&self.instants, self.calls);
        self.calls = self.calls.saturating_add(1);
        instant
    }
}

/// Its instants tell how long it rests, so no time passes here.
impl Rests for MemClock {
    ghost use Rattle.ldm_outside_memory.specs.MemClock.{told_by_clock};

    fn rest(&mut self, _seconds: u32)
        ensures { told_by_clock self.new ≡ told_by_clock self.old }
    {}
}

// The answer to the question of that number, counted from 0.
fn instant_at(instants: &[Micros], i: u64) -> Micros
    ensures { result ≡ nth_instant instants.now i }
{
    let last = instants.len().saturating_sub(1);
    match instants.get((i as usize).min(last)) {
        Some(instant) => *instant,
        None => Micros::new(0).unwrap(),
    }
}
