//! The calls of a disk in memory: which of them fail, and which were made.
ghost use Rattle.std.specs.Prelude.{◌≡◌};
ghost use Rattle.ldm_disk_memory.specs.MemDisk.{first_schedule, raised, next_fails, Begins};

use ldm_outside::Failed;
use std::alloc::Global;
use std::marker::Model;

/// A call of a disk.
#[derive(Clone, Copy, Debug, PartialEq, Eq)]
pub enum DiskCall {
    /// The file was attached.
    Attach,
    /// Its length was asked for.
    Len,
    /// It was read at a place, into a buffer of that many bytes.
    Read { at: u64, len: usize },
    /// That many bytes were written at a place.
    Write { at: u64, len: usize },
    /// It was cut to a length.
    Cut { len: u64 },
    /// It was synced.
    Sync,
}

/// The calls so far, the numbers of those that fail, and how often the disk failed.
#[derive(Drop)]
pub(crate) struct Schedule {
    made: u64,
    failing: Vec<u64>,
    stop: Option<u64>,
    calls: Vec<DiskCall>,
    faults: u64,
}

impl Model for Schedule {
    ghost use Rattle.ldm_disk_memory.specs.MemDisk.{ScheduleState};

    ghost Value = { ScheduleState };

    ghost view = { λ s. record {
      made = s.made;
      failing = s.failing.items;
      stop = s.stop;
      calls = s.calls.items;
      faults = s.faults;
    } };
}

impl Schedule {
    ghost use Rattle.std.specs.Prelude.{◌≤◌, Some, OnErr, is_ok};
    ghost use Rattle.ldm_outside.specs.Count.{Rose};

    pub(crate) fn new(alloc: Global, failing: Vec<u64>) -> Schedule
        ensures { result ≡ first_schedule failing.items }
    {
        Schedule {
            made: 0,
            failing,
            stop: None,
            calls: Vec::new(alloc),
            faults: 0,
        }
    }

    pub(crate) fn stop_at(&mut self, call: u64)
        ensures { self.new ≡ record self.old { stop = Some call } }
    {
        self.stop = Some(call);
    }

    pub(crate) fn calls(&self) -> &[DiskCall]
        ensures { result.now ≡ self.now.calls }
    {
        self.calls.as_slice()
    }

    pub(crate) fn faults(&self) -> u64
        ensures { result ≡ self.now.faults }
    {
        self.faults
    }

    // Whether a call of that number is to fail.
    fn fails(&self) -> bool
        ensures { result ≡ next_fails self.now }
    {
        let number = self.made.saturating_add(1);
        let stopped = match self.stop {
            Some(first) => first <= number,
            None => false,
        };
        self.failing.contains(&number) || stopped
    }

    /// Counts a fault.
    pub(crate) fn fail(&mut self) -> Failed
        ensures counted { self.new ≡ record self.old { faults = raised self.old.faults } }
        ensures rose { Rose self.old.faults self.new.faults }
        ensures kept { self.old.faults ≤ self.new.faults }
    {
        self.faults = self.faults.saturating_add(1);
        Failed
    }

    /// Counts and notes a call, and counts the fault where it fails.
    pub(crate) fn begin(&mut self, call: DiskCall) -> Result<(), Failed>
        ensures begun { Begins (is_ok result) call self.old self.new }
        ensures rose { OnErr result (Rose self.old.faults self.new.faults) }
        ensures kept { self.old.faults ≤ self.new.faults }
    {
        let fails = self.fails();
        self.made = self.made.saturating_add(1);
        if self.calls.push(call).is_err() || fails {
            return Err(self.fail());
        }
        Ok(())
    }
}
