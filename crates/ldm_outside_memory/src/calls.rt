//! The calls of a form in memory: which of them fail, and how often it failed.

use ldm_outside::Failed;
use std::marker::Model;

/// The calls of an object so far, the numbers of those that fail, how much a call moves at most, and how often the
/// object failed.
#[derive(Drop)]
pub(crate) struct Calls {
    made: u64,
    failing: Vec<u64>,
    most: usize,
    faults: u64,
}

impl Model for Calls {
    ghost use Rattle.std.specs.Prelude.{◌<◌};
    ghost use Rattle.ldm_outside_memory.specs.MemCalls.{CallsState};

    ghost Value = { CallsState };

    ghost view = { λ s. record {
      plan = record { calls = s.made; failing = s.failing.items; most = s.most };
      faults = s.faults;
    } };

    ghost invariant = { λ s. 0 < s.most };
}

impl Calls {
    ghost use Rattle.std.specs.Prelude.{◌≡◌, ◌<◌, ◌≤◌, OnErr};
    ghost use Rattle.ldm_outside.specs.Count.{Rose};
    ghost use Rattle.ldm_outside_memory.specs.Memory.{with_most, next_fails, after_call};
    ghost use Rattle.ldm_outside.specs.Count.{raised};
    ghost use Rattle.ldm_outside_memory.specs.MemCalls.{first_calls, Begins};

    pub(crate) fn new(failing: Vec<u64>) -> Calls
        ensures { result ≡ first_calls failing.items }
    {
        Calls {
            made: 0,
            failing,
            most: usize::MAX,
            faults: 0,
        }
    }

    pub(crate) fn limit_pieces(&mut self, most: usize)
        ensures { self.new ≡ record self.old { plan = with_most most self.old.plan } }
    {
        self.most = most.max(1);
    }

    pub(crate) fn most(&self) -> usize
        ensures value { result ≡ self.now.plan.most }
        ensures some { 0 < result }
    {
        self.most
    }

    pub(crate) fn faults(&self) -> u64
        ensures { result ≡ self.now.faults }
    {
        self.faults
    }

    /// Counts a call, and tells whether it fails.
    pub(crate) fn next(&mut self) -> bool
        ensures answer { result ≡ next_fails self.old.plan }
        ensures counted { self.new ≡ record self.old { plan = after_call self.old.plan } }
    {
        self.made = self.made.saturating_add(1);
        self.failing.contains(&self.made)
    }

    /// Counts a fault.
    pub(crate) fn fail(&mut self) -> Failed
        ensures counted { self.new ≡ record self.old { faults = raised self.old.faults } }
        ensures rose { Rose self.old.faults self.new.faults }
        ensures faults_kept { self.old.faults ≤ self.new.faults }
    {
        self.faults = self.faults.saturating_add(1);
        Failed
    }

    /// Counts a call, and the fault where it fails.
    pub(crate) fn begin(&mut self) -> Result<(), Failed>
        ensures begun { Begins result self.old self.new }
        ensures rose { OnErr result (Rose self.old.faults self.new.faults) }
        ensures faults_kept { self.old.faults ≤ self.new.faults }
    {
        if self.next() {
            return Err(self.fail());
        }
        Ok(())
    }
}
