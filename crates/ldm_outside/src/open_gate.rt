//! The gate that never stops.
ghost use Rattle.std.specs.Prelude.{◌≡◌, Some, None};
ghost use Rattle.ldm_outside.specs.declared.gate.Go.{Go};

use crate::gate::{Gate, Go};
use ldm_types::Actor;

/// A gate that never stops, and lets no time pass.
#[derive(Clone, Copy)]
pub struct OpenGate;

impl Gate for OpenGate {
    ghost tells = { λ _. record { stops = 0; idles = Some None; calls = None } };

    fn before(&mut self, _actor: Actor, _i: u64) -> Go
        ensures on { result ≡ Go.On }
    {
        self.idle()
    }

    fn after(&mut self, _actor: Actor, _i: u64) {}

    fn idle(&mut self) -> Go
        ensures on { result ≡ Go.On }
    {
        Go::On
    }
}
