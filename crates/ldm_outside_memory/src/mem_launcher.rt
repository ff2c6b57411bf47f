//! A launcher in memory, which starts no program and fails at chosen calls.
ghost use Rattle.std.specs.Prelude.{◌≡◌, ◌≤◌, ◌<◌, ◌++◌, ◌∷◌, [], map, length, string_bytes};
ghost use Rattle.std.specs.Prelude.{is_ok, IfOk, OnOk, OnErr, if◌then◌else◌};
ghost use Rattle.ldm_outside_memory.specs.Memory.{with_most};
ghost use Rattle.ldm_outside.specs.Numbered.{at_number, with_number};
ghost use Rattle.ldm_outside.specs.Launcher.{spelled, new_child, new_running, is_piped as piped_of, with_shut};
ghost use Rattle.ldm_outside_memory.specs.MemLauncher.{first_launcher};

use crate::calls::Calls;
use ldm_outside::{ChildNo, Failed, Launcher, Put, Reasons};
use std::alloc::{AllocError, Global};
use std::collections::BTreeMap;
use std::marker::Model;

/// A child that a launcher in memory started: no program runs.
#[derive(Drop)]
pub struct MemChild {
    words: Vec<String>,
    piped: bool,
    given: Vec<u8>,
    shut: bool,
    waited: bool,
}

impl Model for MemChild {
    ghost use Rattle.ldm_outside.specs.Launcher.{Child, spelled};

    ghost Value = { Child };

    ghost view = { λ s. record {
      words = spelled s.words.items;
      piped = s.piped;
      given = s.given.items;
      shut = s.shut;
      waited = s.waited;
    } };
}

impl MemChild {
    ghost use Rattle.std.specs.Prelude.{true, false};
    ghost use Rattle.ldm_outside.specs.Launcher.{new_child};

    fn new(alloc: Global, words: Vec<String>, piped: bool) -> MemChild
        ensures { result ≡ new_child words.items piped }
    {
        MemChild {
            words,
            piped,
            given: Vec::new(alloc),
            shut: false,
            waited: false,
        }
    }

    /// All bytes that it was given.
    pub fn given(&self) -> &[u8]
        ensures { result.now ≡ self.now.given }
    {
        self.given.as_slice()
    }

    /// Whether its input was shut.
    pub fn is_shut(&self) -> bool
        ensures { result ≡ self.now.shut }
    {
        self.shut
    }

    /// Whether it was waited for.
    pub fn is_waited_for(&self) -> bool
        ensures { result ≡ self.now.waited }
    {
        self.waited
    }

    fn give(&mut self, bytes: &[u8]) -> Result<(), AllocError>
        ensures given { OnOk result (self.new ≡ record self.old { given = self.old.given ++ bytes.now }) }
        ensures kept { OnErr result (self.new ≡ self.old) }
    {
        self.given.extend_from_slice(bytes)
    }

    fn shut(&mut self)
        ensures { self.new ≡ record self.old { shut = true } }
    {
        self.shut = true;
    }

    fn wait(&mut self)
        ensures { self.new ≡ record self.old { waited = true } }
    {
        self.waited = true;
    }
}

// What is known of a child that was neither waited for nor detached.
#[derive(Drop)]
struct MemRunning {
    words: Vec<String>,
    piped: bool,
    shut: bool,
}

impl Model for MemRunning {
    ghost use Rattle.ldm_outside.specs.Launcher.{Running, spelled};

    ghost Value = { Running };

    ghost view = { λ s. record { words = spelled s.words.items; piped = s.piped; shut = s.shut } };
}

impl MemRunning {
    ghost use Rattle.std.specs.Prelude.{true, false};
    ghost use Rattle.ldm_outside.specs.Launcher.{new_running};

    fn new(words: Vec<String>, piped: bool) -> MemRunning
        ensures { result ≡ new_running words.items piped }
    {
        MemRunning {
            words,
            piped,
            shut: false,
        }
    }

    fn is_piped(&self) -> bool
        ensures { result ≡ self.now.piped }
    {
        self.piped
    }

    fn shut(&mut self)
        ensures { self.new ≡ record self.old { shut = true } }
    {
        self.shut = true;
    }
}

fn copied(alloc: Global, words: &[String]) -> Result<Vec<String>, AllocError>
    ensures { IfOk result (λ copies. spelled copies.items ≡ spelled words.now) }
{
    let mut copies = Vec::new(alloc);
    for word in words {
        copies.push(word.clone()?)?;
    }
    Ok(copies)
}

// The children that run, under their numbers, and all that were started.
#[derive(Drop)]
struct Started {
    now: BTreeMap<usize, MemRunning>,
    ever: Vec<MemChild>,
}

impl Started {
    // Adds a child that was given no byte.
    fn add(&mut self, words: &[String], piped: bool) -> Result<ChildNo, AllocError>
        ensures number { IfOk result (λ child. child.0 ≡ length self.old.ever.items) }
        ensures now { OnOk result
            (self.new.now.entries ≡ with_number (length self.old.ever.items)
            (new_running words.now piped) self.old.now.entries) }
        ensures ever { OnOk result (self.new.ever.items ≡ self.old.ever.items ++ new_child words.now piped ∷ []) }
        ensures now_kept { OnErr result (self.new.now.entries ≡ self.old.now.entries) }
        ensures ever_kept { OnErr result (self.new.ever.items ≡ self.old.ever.items) }
    {
        let alloc = *self.ever.allocator();
        let number = self.ever.len();
        let now = MemRunning::new(copied(alloc, words)?, piped);
        let ever = MemChild::new(alloc, copied(alloc, words)?, piped);
        self.ever.reserve(1)?;
        self.now.insert(number, now)?;
        self.ever.push_reserved(ever);
        Ok(ChildNo(number))
    }
}

// Whether the child can be written to.
fn is_piped(running: &BTreeMap<usize, MemRunning>, child: ChildNo) -> bool
    ensures { result ≡ piped_of (at_number child.0 running.now.entries) }
{
    match running.get(&child.0) {
        Some(it) => it.is_piped(),
        None => false,
    }
}

// Notes that the input of the child was shut.
fn shut_input(running: &mut BTreeMap<usize, MemRunning>, child: ChildNo)
    ensures { running.new.entries ≡ with_shut child (at_number child.0 running.old.entries) running.old.entries }
{
    if let Some(it) = running.get_mut(&child.0) {
        it.shut();
    }
}

/// A launcher in memory: it starts no program, keeps what each child was given, and answers the statuses that it was
/// made with. Its calls are numbered from 1, and those of the numbers in a list fail; `detach` has no number.
///
/// A write to a child that is not piped fails, and so does a call without memory for what it is to keep. A write takes
/// as much of the piece as the limit allows.
#[derive(Drop)]
pub struct MemLauncher {
    started: Started,
    statuses: Vec<u32>,
    calls: Calls,
}

impl Model for MemLauncher {
    ghost use Rattle.ldm_outside_memory.specs.MemLauncher.{LauncherState};

    ghost Value = { LauncherState };

    ghost view = { λ s. record {
      faults = s.calls.faults;
      running = s.started.now.entries;
      children = s.started.ever.items;
      statuses = s.statuses.items;
      plan = s.calls.plan;
    } };
}

impl MemLauncher {
    /// A launcher whose child of number i ends with the i-th of these statuses, or with 0 behind the last, and whose
    /// calls of the given numbers fail. The numbers are in any order.
    pub fn new(alloc: Global, statuses: Vec<u32>, failing: Vec<u64>) -> MemLauncher
        ensures { result ≡ first_launcher statuses.items failing.items }
    {
        MemLauncher {
            started: Started {
                now: BTreeMap::new(alloc),
                ever: Vec::new(alloc),
            },
            statuses,
            calls: Calls::new(failing),
        }
    }

    /// From now on a write takes at most so many bytes, and at least one where there is one.
    pub fn limit_pieces(&mut self, most: usize)
        ensures { self.new ≡ record self.old { plan = with_most most self.old.plan } }
    {
        self.calls.limit_pieces(most);
    }

    /// All children that were ever started, in order.
    pub fn children(&self) -> &[MemChild]
        ensures { result.now ≡ self.now.children }
    {
        self.started.ever.as_slice()
    }

    /// How often it failed.
    pub fn faults(&self) -> u64
        ensures { result ≡ self.now.faults }
    {
        self.calls.faults()
    }
}

impl Launcher for MemLauncher {
    ghost use Rattle.ldm_outside.specs.Launcher.{StartsChild, IsTaking, FeedsChild, ShutsInput};
    ghost use Rattle.ldm_outside.specs.Launcher.{IsNotWaitedFor, WaitsForChild, DetachesChild};
    ghost use Rattle.ldm_outside_memory.specs.MemLauncher.{told_by_launcher, StartsChildAsPlanned, FeedsChildAsPlanned};
    ghost use Rattle.ldm_outside_memory.specs.MemLauncher.{ShutsInputAsPlanned, WaitsAsPlanned, DetachesAsPlanned};

    ghost tells = { told_by_launcher };

    fn start(&mut self, words: &[String], piped: bool) -> Result<ChildNo, Failed>
        requires { 0 < length words.now }
        ensures started { StartsChild result words.now piped (told_by_launcher self.old) (told_by_launcher self.new) }
        ensures faults_kept { self.old.faults ≤ self.new.faults }
        ensures planned { StartsChildAsPlanned result words.now piped self.old self.new }
    {
        self.calls.begin()?;
        match self.started.add(words, piped) {
            Ok(number) => Ok(number),
            Err(_) => Err(self.calls.fail()),
        }
    }

    fn write(&mut self, child: ChildNo, piece: &[u8]) -> Put
        requires { IsTaking child (told_by_launcher self.old) }
        ensures fed { FeedsChild result child piece.now (told_by_launcher self.old) (told_by_launcher self.new) }
        ensures faults_kept { self.old.faults ≤ self.new.faults }
        ensures running_kept { self.new.running ≡ self.old.running }
        ensures planned { FeedsChildAsPlanned result child piece.now self.old self.new }
    {
        if self.calls.begin().is_err() {
            return Put::Failed;
        }
        let n = piece.len().min(self.calls.most());
        if !is_piped(&self.started.now, child)
            || self.started.ever[child.0].give(&piece[..n]).is_err()
        {
            self.calls.fail();
            return Put::Failed;
        }
        Put::Took(n)
    }

    fn shut(&mut self, child: ChildNo) -> Result<(), Failed>
        requires { IsTaking child (told_by_launcher self.old) }
        ensures shut { ShutsInput result child (told_by_launcher self.old) (told_by_launcher self.new) }
        ensures faults_kept { self.old.faults ≤ self.new.faults }
        ensures planned { ShutsInputAsPlanned result child self.old self.new }
    {
        self.calls.begin()?;
        shut_input(&mut self.started.now, child);
        self.started.ever[child.0].shut();
        Ok(())
    }

    fn wait(&mut self, child: ChildNo) -> Result<u32, Failed>
        requires { IsNotWaitedFor child (told_by_launcher self.old) }
        ensures waited { WaitsForChild result child (told_by_launcher self.old) (told_by_launcher self.new) }
        ensures faults_kept { self.old.faults ≤ self.new.faults }
        ensures planned { WaitsAsPlanned result child self.old self.new }
    {
        self.calls.begin()?;
        self.started.now.remove(&child.0);
        self.started.ever[child.0].wait();
        Ok(self.statuses.get(child.0).copied().unwrap_or(0))
    }

    fn detach(&mut self, child: ChildNo)
        requires { IsNotWaitedFor child (told_by_launcher self.old) }
        ensures detached { DetachesChild child (told_by_launcher self.old) (told_by_launcher self.new) }
        ensures planned { DetachesAsPlanned child self.old self.new }
    {
        self.started.now.remove(&child.0);
    }
}

impl Reasons for MemLauncher {
    fn reason(&self) -> &[u8] {
        b"".as_slice()
    }
}
