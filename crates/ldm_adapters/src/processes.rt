//! The processes of a launcher: those that run, and how those ended that were not waited for yet.
ghost use Rattle.std.specs.Prelude.{◌≡◌, ◌≢◌, ◌<◌, vec_len, vec_capacity, All, Some, OnOk};
ghost use Rattle.ldm_outside.specs.Numbered.{without_number};

use std::alloc::{AllocError, Global};
use std::collections::BTreeMap;
use std::io::{self, ErrorKind};
use std::os::unix::process::ExitStatusExt;
use std::process::{Child, ExitStatus};

// A process that was not collected yet, and the number under which it can be waited for: none, where it was detached.
#[derive(Drop)]
struct Process {
    number: Option<usize>,
    child: Child,
}

// A process that ended.
#[derive(Clone, Copy, Drop)]
struct Ended {
    number: Option<usize>,
    status: u32,
}

impl Process {
    // Its status, where it ended.
    fn status(&mut self) -> Option<u32> {
        let status = self.child.try_wait().ok()??;
        Some(number_of(status))
    }

    fn wait(&mut self) -> io::Result<u32> {
        Ok(number_of(self.child.wait()?))
    }
}

/// Processes under the numbers of a launcher's children.
///
/// A process that ended is collected, so that the system can forget it. Its status is kept until it is asked for, but
/// for a process that was detached.
#[derive(Drop)]
pub(crate) struct Processes {
    running: Vec<Process>,
    ended: BTreeMap<usize, u32>,
}

impl Processes {
    pub(crate) fn new(alloc: Global) -> Processes {
        Processes {
            running: Vec::new(alloc),
            ended: BTreeMap::new(alloc),
        }
    }

    /// Makes room for one process more.
    pub(crate) fn reserve(&mut self) -> Result<(), AllocError>
        ensures { OnOk result (vec_len self.new.running < vec_capacity self.new.running) }
    {
        self.running.reserve(1)
    }

    /// Adds a process, for which room was made.
    pub(crate) fn add(&mut self, number: usize, child: Child)
        requires { vec_len self.old.running < vec_capacity self.old.running }
    {
        self.running.push_reserved(Process {
            number: Some(number),
            child,
        });
    }

    /// Collects those that ended.
    pub(crate) fn collect(&mut self) {
        for at in (0..self.running.len()).rev() {
            if let Some(ended) = ended_at(&mut self.running, at)
                && keep_status(&mut self.ended, ended).is_ok()
                && at < self.running.len()
            {
                self.running.swap_remove(at);
            }
        }
    }

    /// Waits until the process of that number ends, if it did not yet, and answers its status.
    pub(crate) fn wait(&mut self, number: usize) -> io::Result<u32> {
        self.collect();
        if let Some(status) = self.ended.remove(&number) {
            return Ok(status);
        }
        for at in 0..self.running.len() {
            if self.running[at].number == Some(number) {
                let process = &mut self.running[at];
                let status = process.wait()?;
                if at < self.running.len() {
                    self.running.swap_remove(at);
                }
                return Ok(status);
            }
        }
        Err(io::Error::from(ErrorKind::NotFound))
    }

    /// Keeps nothing of the process of that number but what collects it once it ended.
    pub(crate) fn detach(&mut self, number: usize)
        ensures unnamed { All (λ process. process.number ≢ Some number) self.new.running.items }
        ensures forgotten { self.new.ended.entries ≡ without_number number self.old.ended.entries }
    {
        self.ended.remove(&number);
        forget_number(self.running.as_mut_slice(), number);
    }
}

// Takes the number from the process that has it.
fn forget_number(running: &mut [Process], number: usize)
    ensures { All (λ process. process.number ≢ Some number) running.new }
{
    for process in running.iter_mut() {
        if process.number == Some(number) {
            process.number = None;
        }
    }
}

// Keeps the status of a process that ended, where it can be asked for.
fn keep_status(kept: &mut BTreeMap<usize, u32>, ended: Ended) -> Result<(), AllocError> {
    if let Some(number) = ended.number {
        kept.insert(number, ended.status)?;
    }
    Ok(())
}

// The process at that place, where it ended.
fn ended_at(running: &mut Vec<Process>, at: usize) -> Option<Ended> {
    let process = running.get_mut(at)?;
    let number = process.number;
    let status = process.status()?;
    Some(Ended { number, status })
}

// The status that a shell gives: 128 and the signal's number where a signal ended the program.
fn number_of(status: ExitStatus) -> u32 {
    match status.code() {
        Some(code) => code.cast_unsigned(),
        None => status
            .signal()
            .unwrap_or(0)
            .cast_unsigned()
            .saturating_add(128),
    }
}
