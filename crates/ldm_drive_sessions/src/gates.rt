//! A gate at which something happens meanwhile.
ghost use Rattle.ldm_shared.specs.Passes.{IsPassOf};

use crate::items::{Item, insert_all};
use ldm_outside::{Gate, Go};
use ldm_shared::{Pass, Shared};
use ldm_types::Actor;
use std::sync::Wait;

/// A gate whose idle calls of the given numbers, from 1, are answered Stop. At the first of them another pass inserts
/// products.
#[derive(Drop)]
pub struct BusyGate<'a, H: Wait> {
    rt: &'a H,
    shared: &'a Shared,
    pass: Pass,
    later: &'a [Item],
    stopping: Vec<u64>,
    asked: u64,
    stops: u64,
    ghost of: { IsPassOf shared.now pass },
}

impl<'a, H: Wait> BusyGate<'a, H> {
    /// A gate that was not asked yet.
    pub fn new(
        rt: &'a H,
        shared: &'a Shared,
        pass: Pass,
        later: &'a [Item],
        stopping: Vec<u64>,
    ) -> BusyGate<'a, H>
        requires { IsPassOf shared.now pass }
    {
        BusyGate {
            rt,
            shared,
            pass,
            later,
            stopping,
            asked: 0,
            stops: 0,
        }
    }
}

impl<H: Wait> Gate for BusyGate<'_, H> {
    ghost use Rattle.std.specs.Prelude.{None};

    ghost tells = { λ gate. record { stops = gate.stops; idles = None; calls = None } };

    fn before(&mut self, _actor: Actor, _i: u64) -> Go {
        Go::On
    }

    fn after(&mut self, _actor: Actor, _i: u64) {}

    fn idle(&mut self) -> Go {
        self.asked = self.asked.saturating_add(1);
        if self.asked == 1 {
            insert_all(self.rt, self.shared, &mut self.pass, self.later);
        }
        if self.stopping.contains(&self.asked) {
            self.stops = self.stops.saturating_add(1);
            return Go::Stop;
        }
        Go::On
    }
}
