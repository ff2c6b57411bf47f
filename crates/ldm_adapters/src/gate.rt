//! A gate for a program that runs by itself.
ghost use Rattle.std.specs.Prelude.{◌≡◌, ◌≤◌, true};
ghost use Rattle.ldm_outside.specs.Count.{Rose};
ghost use Rattle.ldm_outside.specs.declared.gate.Go.{Go};

use crate::resting::{IDLE_MILLISECONDS, Resting};
use ldm_outside::{Gate, Go};
use ldm_types::Actor;
use std::rt::HostRuntime;
use std::thread;
use std::time::Duration;

/// A gate that lets every call of an actor pass. An idle call sleeps for [`IDLE_MILLISECONDS`]; after so many of these,
/// where a number was given, it stops. It tells after how many more.
///
/// A gate with no number, of a station whose dial tried in vain, sleeps so long after the first of these tries, and
/// after each further one in a row twice as long, but no longer than
/// [`LONGEST_REST_SECONDS`](crate::LONGEST_REST_SECONDS). A try is in vain that does not come to a session of
/// [`SESSION_SECONDS`](crate::SESSION_SECONDS).
///
/// A gate with no number, of a station whose door let a peer in, sleeps for
/// [`QUIET_MILLISECONDS`](crate::QUIET_MILLISECONDS) at most, and is woken where a link of its net has done with bytes
/// that came. Where one had since its last idle call, it sleeps no longer than
/// [`BUSY_MILLISECONDS`](crate::BUSY_MILLISECONDS), for those that come behind.
///
/// A gate of a net that stops with the input of the program does not tell after how many idle calls it stops. It stops
/// at the first where the input has ended.
///
/// That of a desk tells none either. It stops behind all stations of the net: at the first where the workers of all have
/// stopped, as far as the net sees, and had at the one before. Where the input has ended it stops behind their links: at
/// the first where none may bring something, nor could at the one before.
#[derive(Drop)]
pub struct RealGate {
    rt: HostRuntime,
    idles: Option<u32>,
    stops: u64,
    resting: Option<Resting>,
    // Whether it may stop with its net.
    by_net: bool,
}

impl RealGate {
    ghost use Rattle.std.specs.Prelude.{ℕ, Option, Some, None};
    ghost use Rattle.ldm_outside.specs.Gate.{StopsAfter};
    ghost use Rattle.ldm_adapters.specs.Told.{told_by_gate};

    /// A gate that stops after so many idle calls, or never.
    pub fn new(rt: HostRuntime, idles: Option<u32>) -> RealGate
        ensures { told_by_gate result ≡ record { stops = 0; idles = Some idles; calls = None } }
    {
        RealGate {
            rt,
            idles,
            stops: 0,
            resting: None,
            by_net: false,
        }
    }

    /// The same of a station, which rests so where it has no number, and may stop with the input of the program.
    pub(crate) fn resting(rt: HostRuntime, idles: Option<u32>, resting: Resting) -> RealGate
        ensures stops { result.stops ≡ 0 }
        ensures stopping { StopsAfter idles (told_by_gate result) }
    {
        let by_net = resting.may_stop();
        RealGate {
            rt,
            idles,
            stops: 0,
            resting: Some(resting),
            by_net,
        }
    }

    /// That of a desk, which has no number, and stops behind the stations of its net.
    pub(crate) fn of_desk(rt: HostRuntime, resting: Resting) -> RealGate
        ensures stops { result.stops ≡ 0 }
        ensures stopping { (idles : Option ℕ) → StopsAfter idles (told_by_gate result) }
    {
        RealGate {
            rt,
            idles: None,
            stops: 0,
            resting: Some(resting),
            by_net: true,
        }
    }

    // Whether its net has it stop.
    fn is_over(&mut self) -> bool
        ensures by_net { result ≡ true → self.old.by_net ≡ true }
        ensures rest { self.new ≡ record self.old { resting = self.new.resting } }
    {
        match &mut self.resting {
            Some(resting) if self.by_net => resting.is_over(),
            _ => false,
        }
    }

    // Counts a stop, behind which its worker stops.
    fn stop(&mut self) -> Go
        ensures stop { result ≡ Go.Stop }
        ensures counted { self.new ≡ record self.old { stops = self.new.stops } }
        ensures rose { Rose self.old.stops self.new.stops }
    {
        if let Some(resting) = &self.resting {
            resting.leave();
        }
        self.stops = self.stops.saturating_add(1);
        Go::Stop
    }

    fn sleep(&self) {
        thread::sleep(&self.rt, Duration::from_millis(IDLE_MILLISECONDS));
    }
}

impl Gate for RealGate {
    ghost use Rattle.ldm_adapters.specs.Told.{told_by_gate};

    ghost tells = { told_by_gate };

    fn before(&mut self, _actor: Actor, _i: u64) -> Go
        ensures on { result ≡ Go.On }
        ensures kept { self.new ≡ self.old }
    {
        Go::On
    }

    fn after(&mut self, _actor: Actor, _i: u64) {}

    fn idle(&mut self) -> Go {
        if self.is_over() {
            return self.stop();
        }
        if let Some(left) = self.idles {
            if left == 0 {
                return self.stop();
            }
            self.idles = Some(left - 1);
            self.sleep();
        } else if let Some(resting) = &mut self.resting {
            resting.rest();
        } else {
            self.sleep();
        }
        Go::On
    }
}
