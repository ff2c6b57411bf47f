//! Gates, which say when a worker goes on and when it stops.
ghost use Rattle.std.specs.Prelude.{◌≡◌, ◌≤◌, ◌∷◌, []};
ghost use Rattle.ldm_outside.specs.Gate.{GateRecord};

use ldm_types::Actor;

/// Whether to go on.
#[derive(Clone, Copy, Debug, PartialEq, Eq)]
pub enum Go {
    /// Go on.
    On,
    /// Stop: the gate's count of stops rose.
    Stop,
}

/// A call of an actor, before or after it was made.
#[derive(Clone, Copy, Debug, PartialEq, Eq)]
pub enum GateCall {
    /// The gate let the call of that number pass.
    Before { actor: Actor, i: u64 },
    /// The gate was told that the call of that number was made.
    After { actor: Actor, i: u64 },
}

/// What a worker asks before it goes on.
pub trait Gate {
    ghost use Rattle.ldm_outside.specs.Gate.{LetsPass, Idles, IsLastCall, with_calls};

    /// What it tells: how often it answered [`Go::Stop`]; after how many idle calls more it stops, if it tells this;
    /// and the calls that it let pass and that it was told of, if it tells these. The count stands still at the end of
    /// `u64`.
    ///
    /// A gate that counts its calls is not `Copy`: a copy would count for itself.
    ghost tells: { Self → GateRecord };

    /// Asked before the actor makes its call of that number.
    fn before(&mut self, actor: Actor, i: u64) -> Go
        ensures answered { LetsPass result (GateCall.Before actor i) (tells self.old) (tells self.new) }
        ensures stops_kept { (tells self.old).stops ≤ (tells self.new).stops };

    /// Told after the actor made its call of that number, which is the last that was let pass.
    fn after(&mut self, actor: Actor, i: u64)
        requires { IsLastCall (GateCall.Before actor i) (tells self.old) }
        ensures { tells self.new ≡ with_calls (GateCall.After actor i ∷ []) (tells self.old) };

    /// Asked where there is nothing to do. It may let time pass.
    fn idle(&mut self) -> Go
        ensures answered { Idles result (tells self.old) (tells self.new) }
        ensures stops_kept { (tells self.old).stops ≤ (tells self.new).stops };
}
