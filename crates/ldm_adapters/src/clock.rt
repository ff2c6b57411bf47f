//! The clock of the system.
ghost use Rattle.std.specs.Prelude.{◌≡◌, ◌≤◌, min, None};
ghost use Rattle.ldm_types.specs.declared.limits.TheConstants.{GREATEST_INSTANT};

use ldm_outside::{Clock, Rests};
use ldm_types::Micros;
use std::rt::HostRuntime;
use std::time::{Clock as SystemClock, Duration};
use std::{io, thread};

/// The clock of the system, which it follows forward alone. It tells no answer.
///
/// Where the clock of the system was set back, it goes on from its last answer by the clock that is not set. So no
/// answer is an earlier instant than the one before.
///
/// An instant before 1970 is answered as the first instant, and one behind the last as the last. So is a clock that
/// cannot be read, as the first, where there was no answer before.
#[derive(Drop)]
pub struct RealClock {
    rt: HostRuntime,
    // the last answer
    last: Micros,
    // what the clock that is not set read then, in microseconds
    read: Option<u64>,
}

// A reading in microseconds.
fn micros(reading: io::Result<Duration>) -> Option<u64> {
    u64::try_from(reading.ok()?.as_micros()).ok()
}

// The instant of so many microseconds, or the last.
fn instant(n: u64) -> Micros
    ensures { result ≡ min n GREATEST_INSTANT }
{
    Micros::new(n.min(Micros::MAX)).unwrap()
}

impl RealClock {
    /// The clock of this system.
    pub fn new(rt: HostRuntime) -> RealClock
        ensures { result ≡ record { rt = rt; last = 0; read = None } }
    {
        RealClock {
            rt,
            last: instant(0),
            read: None,
        }
    }

    // How long ago the last answer was, by the clock that is not set, if it reads so much now.
    fn passed(&self, read: Option<u64>) -> u64 {
        match (self.read, read) {
            (Some(before), Some(now)) => now.saturating_sub(before),
            _ => 0,
        }
    }
}

impl Clock for RealClock {
    ghost use Rattle.ldm_adapters.specs.Told.{told_by_clock};

    ghost tells = { told_by_clock };

    fn now(&mut self) -> Micros
        ensures kept { self.new.last ≡ result }
        ensures forward { self.old.last ≤ result }
    {
        // in this order, so that what passes between the two readings does not count twice
        let system = micros(self.rt.since_1970()).unwrap_or(0);
        let read = micros(self.rt.monotonic());
        let going = self.last.get().saturating_add(self.passed(read));
        self.last = instant(system.max(going));
        self.read = read;
        self.last
    }
}

/// It sleeps, and a sleep that a signal interrupted goes on. So the next answer is later by that much at least.
impl Rests for RealClock {
    ghost use Rattle.ldm_adapters.specs.Told.{told_by_clock};

    fn rest(&mut self, seconds: u32)
        ensures { told_by_clock self.new ≡ told_by_clock self.old }
    {
        thread::sleep(&self.rt, Duration::from_secs(u64::from(seconds)));
    }
}
