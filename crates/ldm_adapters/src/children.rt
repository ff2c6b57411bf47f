//! Programs of the system.
ghost use Rattle.std.specs.Prelude.{◌≡◌, ◌≤◌, ◌<◌, ◌+◌, [], length, IfOk, OnOk, OnErr};
ghost use Rattle.ldm_outside.specs.Count.{Rose};
ghost use Rattle.ldm_outside.specs.Numbered.{at_number, with_number, without_number};
ghost use Rattle.ldm_outside.specs.Launcher.{spelled, is_piped, new_running, with_shut};
ghost use Rattle.ldm_adapters.specs.Front.{TakesPiped};

use crate::processes::Processes;
use crate::streams::write_some;
use crate::telling::tell;
use ldm_outside::{ChildNo, Failed, Launcher, Put, Reason, Reasons};
use std::alloc::{AllocError, Global};
use std::collections::BTreeMap;
use std::io::{self, ErrorKind};
use std::marker::Model;
use std::process::{Child, ChildStdin, Command, Stdio};
use std::rt::HostRuntime;

// A program that was neither waited for nor detached. Its input is closed where it is shut, waited for or detached.
#[derive(Drop)]
struct RealChild {
    words: Vec<String>,
    piped: bool,
    shut: bool,
    input: Option<ChildStdin>,
}

impl Model for RealChild {
    ghost use Rattle.ldm_outside.specs.Launcher.{Running, spelled};

    ghost Value = { Running };

    ghost view = { λ s. record { words = spelled s.words.items; piped = s.piped; shut = s.shut } };
}

impl RealChild {
    ghost use Rattle.std.specs.Prelude.{true, false};
    ghost use Rattle.ldm_outside.specs.Launcher.{new_running};

    fn new(words: Vec<String>, piped: bool, input: Option<ChildStdin>) -> RealChild
        ensures { result ≡ new_running words.items piped }
    {
        RealChild {
            words,
            piped,
            shut: false,
            input,
        }
    }

    fn write(&self, piece: &[u8]) -> io::Result<usize>
        ensures { IfOk result (λ n. TakesPiped n self.now.piped piece.now) }
    {
        match &self.input {
            Some(input) if self.piped => {
                let mut input = input;
                write_some(&mut input, piece)
            }
            _ => Err(io::Error::new(ErrorKind::BrokenPipe, "Has no input")),
        }
    }

    fn shut(&mut self)
        ensures { self.new ≡ record self.old { shut = true } }
    {
        self.input = None;
        self.shut = true;
    }

    // Closes its input, so that a program that reads to its end can end.
    fn close_input(&mut self)
        ensures { self.new ≡ self.old }
    {
        self.input = None;
    }
}

fn copied(alloc: Global, words: &[String]) -> Result<Vec<String>, AllocError>
    ensures { IfOk result (λ copies. spelled copies.items ≡ spelled words.now) }
{
    let mut copies = Vec::new(alloc);
    for word in words {
        copies.push(word.clone()?)?;
    }
    Ok(copies)
}

// Starts the program. Where it is not piped it has nothing to read.
fn spawn(rt: HostRuntime, words: &[String], piped: bool) -> io::Result<Child>
    requires { 0 < length words.now }
{
    let mut command = Command::new(rt.alloc(), words[0].as_str())?;
    for word in &words[1..] {
        command.arg(word.as_str())?;
    }
    command.stdin(if piped { Stdio::piped() } else { Stdio::null() });
    command.spawn(&rt)
}

// Ends a program that nobody will wait for.
fn end(process: &mut Child) {
    let _ = process.kill();
    let _ = process.wait();
}

// The programs that were neither waited for nor detached, under their numbers, and the next number.
#[derive(Drop)]
struct Running {
    children: BTreeMap<usize, RealChild>,
    processes: Processes,
    next: usize,
}

impl Running {
    // Starts a program.
    fn start(&mut self, rt: HostRuntime, words: &[String], piped: bool) -> io::Result<ChildNo>
        requires { 0 < length words.now }
        ensures number { IfOk result (λ child. child.0 ≡ self.old.next) }
        ensures next { OnOk result (self.new.next ≡ self.old.next + 1) }
        ensures children { OnOk result
            (self.new.children.entries ≡ with_number self.old.next
            (new_running words.now piped) self.old.children.entries) }
        ensures next_kept { OnErr result (self.new.next ≡ self.old.next) }
        ensures children_kept { OnErr result (self.new.children.entries ≡ self.old.children.entries) }
    {
        let number = self.next;
        let Some(next) = number.checked_add(1) else {
            return Err(io::Error::from(ErrorKind::QuotaExceeded));
        };
        let copies = copied(rt.alloc(), words)?;
        self.processes.reserve()?;
        let mut process = spawn(rt, words, piped)?;
        let child = RealChild::new(copies, piped, process.stdin.take());
        if let Err(error) = self.children.insert(number, child) {
            end(&mut process);
            return Err(AllocError::from(error).into());
        }
        self.processes.add(number, process);
        self.next = next;
        Ok(ChildNo(number))
    }

    // Waits for a program, and forgets it.
    fn wait(&mut self, child: ChildNo) -> io::Result<u32>
        ensures next_kept { self.new.next ≡ self.old.next }
        ensures forgotten { OnOk result (self.new.children.entries ≡ without_number child.0 self.old.children.entries) }
        ensures children_kept { OnErr result (self.new.children.entries ≡ self.old.children.entries) }
    {
        close_input(&mut self.children, child);
        let status = self.processes.wait(child.0)?;
        self.children.remove(&child.0);
        Ok(status)
    }

    // The name of a program: none where it was waited for or detached.
    fn program(&self, child: ChildNo) -> &[u8] {
        match self.children.get(&child.0) {
            Some(it) => program_of(it.words.as_slice()),
            None => b"".as_slice(),
        }
    }

    fn write(&self, child: ChildNo, piece: &[u8]) -> io::Result<usize>
        ensures { IfOk result (λ n. TakesPiped n (is_piped (at_number child.0 self.now.children.entries)) piece.now) }
    {
        match self.children.get(&child.0) {
            Some(it) => it.write(piece),
            None => Err(io::Error::from(ErrorKind::NotFound)),
        }
    }

    // Forgets a program, which runs on.
    fn detach(&mut self, child: ChildNo)
        ensures next_kept { self.new.next ≡ self.old.next }
        ensures forgotten { self.new.children.entries ≡ without_number child.0 self.old.children.entries }
    {
        self.processes.detach(child.0);
        self.children.remove(&child.0);
    }
}

// The name of the program of these words.
fn program_of(words: &[String]) -> &[u8] {
    match words {
        [program, ..] => program.as_bytes(),
        [] => b"".as_slice(),
    }
}

// Closes the input of a program that is to be waited for.
fn close_input(children: &mut BTreeMap<usize, RealChild>, child: ChildNo)
    ensures { children.new.entries ≡ children.old.entries }
{
    if let Some(it) = children.get_mut(&child.0) {
        it.close_input();
    }
}

// Shuts the input of a program.
fn shut_input(children: &mut BTreeMap<usize, RealChild>, child: ChildNo)
    ensures { children.new.entries ≡ with_shut child (at_number child.0 children.old.entries) children.old.entries }
{
    if let Some(it) = children.get_mut(&child.0) {
        it.shut();
    }
}

/// The programs of the system. It does not tell what they were given.
///
/// A program is found as the system's search path says. One that is not piped has nothing to read; what a program
/// writes goes where this program's own output goes. A program that a signal ended has the status 128 and the signal's
/// number. A program that ended is collected by the next call of `start` or `wait`, whichever program that is for, and
/// its status is kept until it is waited for. Nothing is kept of a program that was waited for, and of one that was
/// detached no more than what collects it once it ended.
#[derive(Drop)]
pub struct RealLauncher {
    rt: HostRuntime,
    running: Running,
    faults: u64,
    why: Reason,
}

impl RealLauncher {
    /// The programs of this system.
    pub fn new(rt: HostRuntime) -> RealLauncher
        ensures running { result.running.children.entries ≡ [] }
        ensures faults { result.faults ≡ 0 }
    {
        RealLauncher {
            rt,
            running: Running {
                children: BTreeMap::new(rt.alloc()),
                processes: Processes::new(rt.alloc()),
                next: 0,
            },
            faults: 0,
            why: Reason::new(),
        }
    }

    // Counts a fault at the program of these words, and keeps what the system said.
    fn fail(&mut self, words: &[String], error: &io::Error) -> Failed
        ensures counted { self.new ≡ record self.old { faults = self.new.faults; why = self.new.why } }
        ensures rose { Rose self.old.faults self.new.faults }
        ensures kept { self.old.faults ≤ self.new.faults }
    {
        tell(&mut self.why, program_of(words), error);
        self.faults = self.faults.saturating_add(1);
        Failed
    }

    // The same at a program that was started.
    fn fail_at(&mut self, child: ChildNo, error: &io::Error) -> Failed
        ensures counted { self.new ≡ record self.old { faults = self.new.faults; why = self.new.why } }
        ensures rose { Rose self.old.faults self.new.faults }
        ensures kept { self.old.faults ≤ self.new.faults }
    {
        tell(&mut self.why, self.running.program(child), error);
        self.faults = self.faults.saturating_add(1);
        Failed
    }

    /// How often it failed.
    pub fn faults(&self) -> u64
        ensures { result ≡ self.now.faults }
    {
        self.faults
    }
}

impl Launcher for RealLauncher {
    ghost use Rattle.std.specs.Prelude.{None};

    ghost tells = { λ s. record {
      faults = s.faults;
      next = s.running.next;
      running = s.running.children.entries;
      children = None;
    } };

    fn start(&mut self, words: &[String], piped: bool) -> Result<ChildNo, Failed> {
        self.running.processes.collect();
        match self.running.start(self.rt, words, piped) {
            Ok(number) => Ok(number),
            Err(error) => Err(self.fail(words, &error)),
        }
    }

    fn write(&mut self, child: ChildNo, piece: &[u8]) -> Put {
        match self.running.write(child, piece) {
            Ok(n) => Put::Took(n),
            Err(error) => {
                self.fail_at(child, &error);
                Put::Failed
            }
        }
    }

    fn shut(&mut self, child: ChildNo) -> Result<(), Failed> {
        shut_input(&mut self.running.children, child);
        Ok(())
    }

    fn wait(&mut self, child: ChildNo) -> Result<u32, Failed> {
        match self.running.wait(child) {
            Ok(status) => Ok(status),
            Err(error) => Err(self.fail_at(child, &error)),
        }
    }

    fn detach(&mut self, child: ChildNo) {
        self.running.detach(child);
    }
}

impl Reasons for RealLauncher {
    fn reason(&self) -> &[u8] {
        self.why.as_slice()
    }
}
