//! What a feeding within one process finds outside: a clock that stands still, and a gate that stops at once.
ghost use Rattle.std.specs.Prelude.{◌≡◌};

use ldm_outside::{Clock, Gate, Go};
use ldm_types::{Actor, Micros};

/// A clock that always answers one instant, and tells nothing.
#[derive(Clone, Copy)]
pub(crate) struct StillClock(pub(crate) Micros);

impl Clock for StillClock {
    ghost use Rattle.ldm_chain.specs.Outside.{untold_clock};

    ghost tells = { λ _. untold_clock };

    fn now(&mut self) -> Micros {
        self.0
    }
}

/// A gate that stops at each idle call.
#[derive(Drop)]
pub(crate) struct StopGate {
    pub(crate) stops: u64,
}

impl Gate for StopGate {
    ghost use Rattle.ldm_chain.specs.Outside.{stopping};

    ghost tells = { λ gate. stopping gate.stops };

    fn before(&mut self, _actor: Actor, _i: u64) -> Go {
        Go::On
    }

    fn after(&mut self, _actor: Actor, _i: u64) {}

    fn idle(&mut self) -> Go {
        self.stops = self.stops.saturating_add(1);
        Go::Stop
    }
}
