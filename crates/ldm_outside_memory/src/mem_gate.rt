//! Gates in memory, which stop at chosen calls.
ghost use Rattle.std.specs.Prelude.{◌≡◌, ◌≤◌};

use crate::calls::Calls;
use ldm_outside::{Failed, Gate, GateCall, Go};
use ldm_types::Actor;
use std::alloc::Global;
use std::marker::Model;

/// A gate that keeps which calls it let pass, and of which it was told. Its calls of `before` and `idle` are numbered
/// together, from 1, and exactly those of the numbers in a list are answered [`Go::Stop`].
///
/// Without memory for what it is to keep of a call, before and after it, it stops too.
#[derive(Drop)]
pub struct MemGate {
    // Behind a call that was let pass there is room for one more.
    told: Vec<GateCall>,
    // A call that fails stops.
    calls: Calls,
}

impl Model for MemGate {
    ghost use Rattle.std.specs.Prelude.{◌<◌};
    ghost use Rattle.std.specs.Vec.{vec_len, vec_capacity};
    ghost use Rattle.ldm_outside_memory.specs.MemGate.{GateState, AwaitsAfter};

    ghost Value = { GateState };

    ghost view = { λ s. record {
      told = s.told.items;
      stops = s.calls.faults;
      plan = s.calls.plan;
    } };

    ghost invariant = { λ s. AwaitsAfter s.told.items → vec_len s.told < vec_capacity s.told };
}

impl MemGate {
    ghost use Rattle.ldm_outside_memory.specs.MemGate.{first_gate};

    /// A gate whose calls of the given numbers are answered [`Go::Stop`]. The numbers are in any order.
    pub fn new(alloc: Global, stopping: Vec<u64>) -> MemGate
        ensures { result ≡ first_gate stopping.items }
    {
        MemGate {
            told: Vec::new(alloc),
            calls: Calls::new(stopping),
        }
    }

    /// The calls that it let pass, and those that it was told of, in order.
    pub fn told(&self) -> &[GateCall]
        ensures { result.now ≡ self.now.told }
    {
        self.told.as_slice()
    }

    /// How often it stopped.
    pub fn stops(&self) -> u64
        ensures { result ≡ self.now.stops }
    {
        self.calls.faults()
    }
}

impl Gate for MemGate {
    ghost use Rattle.std.specs.Prelude.{◌∷◌, [], ◌++◌};
    ghost use Rattle.ldm_outside.specs.Gate.{LetsPass, Idles, IsLastCall};
    ghost use Rattle.ldm_outside_memory.specs.MemGate.{told_by_gate, PassesAsPlanned, IdlesAsPlanned};

    ghost tells = { told_by_gate };

    fn before(&mut self, actor: Actor, i: u64) -> Go
        ensures answered { LetsPass result (GateCall.Before actor i) (told_by_gate self.old) (told_by_gate self.new) }
        ensures stops_kept { self.old.stops ≤ self.new.stops }
        ensures planned { PassesAsPlanned result (GateCall.Before actor i) self.old self.new }
    {
        if self.calls.begin().is_err() {
            return Go::Stop;
        }
        if self.told.reserve(2).is_err() {
            self.calls.fail();
            return Go::Stop;
        }
        self.told.push_reserved(GateCall::Before { actor, i });
        Go::On
    }

    fn after(&mut self, actor: Actor, i: u64)
        requires { IsLastCall (GateCall.Before actor i) (told_by_gate self.old) }
        ensures planned { self.new ≡ record self.old { told = self.old.told ++ GateCall.After actor i ∷ [] } }
    {
        self.told.push_reserved(GateCall::After { actor, i });
    }

    fn idle(&mut self) -> Go
        ensures answered { Idles result (told_by_gate self.old) (told_by_gate self.new) }
        ensures stops_kept { self.old.stops ≤ self.new.stops }
        ensures planned { IdlesAsPlanned result self.old self.new }
    {
        match self.calls.begin() {
            Ok(()) => Go::On,
            Err(Failed) => Go::Stop,
        }
    }
}
