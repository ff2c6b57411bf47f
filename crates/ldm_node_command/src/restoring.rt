//! The journal of a node's queue: what it kept is put back before the net listens.
ghost use Rattle.std.specs.Prelude.{◌≡◌, ◌+◌, ◌<◌, ◌≤◌, Some, IfOk, IfErr, OnOk, length};
ghost use Rattle.std.specs.Option.{option_copied, option_map};
ghost use Rattle.ldm_types.specs.declared.numbers.TheConstants.Actor.{COUNT};
ghost use Rattle.ldm_disk.specs.Desks.{desk_tells};
ghost use Rattle.ldm_shared.specs.Passes.{IsPassOf, IsSamePass};
ghost use Rattle.ldm_journal.specs.declared.places.TheConstants.{LARGEST_RING};
ghost use Rattle.ldm_conf.specs.Confs.{conf_view};
ghost use Rattle.ldm_node.specs.Clerks.{clerk_tells};
ghost use Rattle.ldm_node_command.specs.declared.progress.Step.TheVariants as step;
ghost use Rattle.ldm_node_command.specs.Lines.{noted};
ghost use Rattle.ldm_node_command.specs.Outside.{kept_desk_of};
ghost use Rattle.ldm_node_command.specs.Restoring.{FailsToRestore, HasJournal, PutsBackBy};
ghost use Rattle.ldm_node_command.specs.Restoring.{Restored, moment, restored_net};
ghost use Rattle.ldm_node_command.specs.Setup.{setup_of};

use crate::lines::{Lines, lines_of};
use crate::progress::{Step, Steps};
use crate::setup::NodeSetup;
use ldm_conf::Conf;
use ldm_disk::{Desks, Disk, Furnished};
use ldm_journal::{Journal, JournalFault};
use ldm_node::Clerk;
use ldm_outside::Net;
use ldm_recorder::{Line, Opened, Recorder, RestoreEnd, restore, take_note};
use ldm_shared::{Pass, Shared};
use ldm_types::{OutOfMemory, Signature};
use std::alloc::Global;
use std::sync::Wait;

/// Why what a journal kept was not put back.
#[derive(Clone, Copy, Debug, PartialEq, Eq)]
pub enum RestoreFault {
    /// The net failed, and gave no desk.
    NoDesk,
    /// There is no memory for the lines of requests, or for a desk.
    OutOfMemory,
    /// The file could not be attached.
    NotAttached,
    /// The file is no journal of this size, or could not be read.
    NotOpened(JournalFault),
    /// Not all that the journal keeps could be read.
    NotRead(JournalFault),
    /// The queue has had all the calls that it can have.
    Worn,
    /// There is no place for a cursor behind what was put back.
    AllBusy,
}

/// What a node goes on with.
#[derive(Drop)]
pub(crate) struct Resumed<F, E, C, G> {
    /// The clerk of its journal, if it keeps one.
    pub(crate) clerk: Option<Clerk<F, E, C, G>>,
    /// The last product of each request, where one is known. Without a journal there are none.
    pub(crate) lasts: Vec<Option<Signature>>,
}

/// A journal that was opened again, with what it kept put back.
#[derive(Drop)]
pub(crate) struct Reopened {
    /// What records from now on.
    pub(crate) recorder: Recorder,
    /// The last product of each line, where it was put back.
    pub(crate) lasts: Vec<Option<Signature>>,
}

/// Puts back what the journal of the setup kept, if it has one, finds the last product of each request in it, and opens
/// a recorder behind it, by the pass that no worker of a station has. Where that fails the net keeps the desk.
///
/// The gates that the net hands out from now on may stop with the input of the program, where the setup says so.
pub(crate) fn restore_queue<H: Wait, N: Desks>(
    rt: &H,
    alloc: Global,
    setup: &NodeSetup<'_>,
    conf: &Conf,
    shared: &Shared,
    pass: &mut Pass,
    net: &mut N,
    steps: &mut Steps,
) -> Result<Resumed<N::DeskDisk, N::StationLog, N::StationClock, N::StationGate>, RestoreFault>
    requires of { IsPassOf shared.now pass.old }
    requires few { setup.now.options.workers + length conf.now.requests.items < COUNT }
    requires some { 0 < setup.now.arena }
    requires sized { setup.now.arena ≤ LARGEST_RING }
    requires before { steps.old ≡ Some step.Queue }
    ensures kept { IsSamePass pass.old pass.new }
    ensures restored { IfOk result (λ resumed.
        Restored (setup_of setup.now) (conf_view conf.now) pass.old pass.new (option_map
        (clerk_tells (desk_tells N.DeskDisk.tells N.StationLog.tells N.StationClock.tells N.StationGate.tells))
        resumed.clerk) resumed.lasts.items) }
    ensures same { OnOk result (N.tells net.new ≡ N.tells net.old) }
    ensures fails { IfErr result (λ why. HasJournal (setup_of setup.now)
        × FailsToRestore (setup_of setup.now) (conf_view conf.now) why pass.old
        (restored_net (N.tells net.old) (kept_desk_of N.DeskDisk.tells N.StationLog.tells
        N.StationClock.tells N.StationGate.tells (N.kept_desk net.old)))
        (restored_net (N.tells net.new) (kept_desk_of N.DeskDisk.tells N.StationLog.tells
        N.StationClock.tells N.StationGate.tells (N.kept_desk net.new)))) }
    ensures stations { N.kept net.new ≡ N.kept net.old }
    ensures asked { N.port_asked net.new ≡ N.port_asked net.old }
    ensures noted { OnOk result (steps.new ≡ Some step.Restoring) }
    ensures faults_kept { (N.tells net.old).faults ≤ (N.tells net.new).faults }
{
    tell_stops(setup, net);
    match setup.journal {
        Some(path) => match furnish(rt, alloc, setup, path, conf, shared, pass, net) {
            Ok(resumed) => {
                steps.make(Step::Restoring);
                Ok(resumed)
            }
            Err(why) => Err(why),
        },
        None => {
            steps.make(Step::Restoring);
            Ok(Resumed {
                clerk: None,
                lasts: Vec::new(alloc),
            })
        }
    }
}

// Tells the net when the workers of what it hands out from now on stop, and has their gates stop with the input of the
// program, where the node is to end so.
fn tell_stops<N: Desks>(setup: &NodeSetup<'_>, net: &mut N)
    ensures same { N.tells net.new ≡ N.tells net.old }
    ensures stations { N.kept net.new ≡ N.kept net.old }
    ensures asked { N.port_asked net.new ≡ N.port_asked net.old }
    ensures desk { N.kept_desk net.new ≡ N.kept_desk net.old }
{
    net.limit_peers(setup.options.workers, setup.options.sessions);
    if setup.ends_with_input {
        net.stop_with_input();
    }
}

// Takes the lines of the configuration, has the net give a desk, and puts back what its file kept.
fn furnish<H: Wait, N: Desks>(
    rt: &H,
    alloc: Global,
    setup: &NodeSetup<'_>,
    path: &str,
    conf: &Conf,
    shared: &Shared,
    pass: &mut Pass,
    net: &mut N,
) -> Result<Resumed<N::DeskDisk, N::StationLog, N::StationClock, N::StationGate>, RestoreFault>
    requires of { IsPassOf shared.now pass.old }
    requires few { setup.now.options.workers + length conf.now.requests.items < COUNT }
    requires named { option_copied setup.now.journal ≡ Some path.now }
    requires some { 0 < setup.now.arena }
    requires sized { setup.now.arena ≤ LARGEST_RING }
    ensures kept { IsSamePass pass.old pass.new }
    ensures restored { IfOk result (λ resumed.
        Restored (setup_of setup.now) (conf_view conf.now) pass.old pass.new (option_map
        (clerk_tells (desk_tells N.DeskDisk.tells N.StationLog.tells N.StationClock.tells N.StationGate.tells))
        resumed.clerk) resumed.lasts.items) }
    ensures same { OnOk result (N.tells net.new ≡ N.tells net.old) }
    ensures fails { IfErr result (λ why. FailsToRestore (setup_of setup.now) (conf_view conf.now) why pass.old
        (restored_net (N.tells net.old) (kept_desk_of N.DeskDisk.tells N.StationLog.tells
        N.StationClock.tells N.StationGate.tells (N.kept_desk net.old)))
        (restored_net (N.tells net.new) (kept_desk_of N.DeskDisk.tells N.StationLog.tells
        N.StationClock.tells N.StationGate.tells (N.kept_desk net.new)))) }
    ensures stations { N.kept net.new ≡ N.kept net.old }
    ensures asked { N.port_asked net.new ≡ N.port_asked net.old }
    ensures faults_kept { (N.tells net.old).faults ≤ (N.tells net.new).faults }
{
    let lines = match lines_of(alloc, conf, setup.options.workers) {
        Ok(lines) => lines,
        Err(OutOfMemory) => return Err(RestoreFault::OutOfMemory),
    };
    let mut desk = match net.desk(setup.options.idles) {
        Furnished::Desk(desk) => desk,
        Furnished::Failed => return Err(RestoreFault::NoDesk),
        Furnished::OutOfMemory => return Err(RestoreFault::OutOfMemory),
    };
    match open_recorder(
        rt,
        alloc,
        shared,
        pass,
        path,
        setup.arena,
        lines,
        &mut desk.disk,
    ) {
        Ok(made) => {
            let Reopened { recorder, lasts } = made;
            Ok(Resumed {
                clerk: Some(Clerk { recorder, desk }),
                lasts,
            })
        }
        Err(why) => {
            net.keep_desk(desk);
            Err(why)
        }
    }
}

// Attaches the file of a journal with a ring of that size, puts back what it kept, finds the last product of each line,
// and opens a recorder behind it.
fn open_recorder<H: Wait, F: Disk>(
    rt: &H,
    alloc: Global,
    shared: &Shared,
    pass: &mut Pass,
    path: &str,
    ring: u64,
    known: Lines,
    disk: &mut F,
) -> Result<Reopened, RestoreFault>
    requires of { IsPassOf shared.now pass.old }
    requires one_each { length known.lasts.items ≡ length known.lines.items }
    requires some { 0 < ring }
    requires sized { ring ≤ LARGEST_RING }
    ensures kept { IsSamePass pass.old pass.new }
    ensures back { PutsBackBy result (record { ring = ring; lines = known.lines.items })
        (moment pass.old (F.tells disk.old)) (moment pass.new (F.tells disk.new)) }
{
    match disk.attach(path) {
        Ok(()) => {}
        Err(_) => return Err(RestoreFault::NotAttached),
    }
    let journal = match Journal::open(alloc, disk, ring) {
        Ok(journal) => journal,
        Err(why) => return Err(RestoreFault::NotOpened(why)),
    };
    let Lines { lines, mut lasts } = known;
    let lines = told_by(&journal, lines);
    let count = match restore(
        rt,
        alloc,
        shared,
        pass,
        &journal,
        disk,
        lines.as_slice(),
        lasts.as_mut_slice(),
    ) {
        RestoreEnd::Restored { count } => count,
        RestoreEnd::NotRead(why) => return Err(RestoreFault::NotRead(why)),
        RestoreEnd::Worn => return Err(RestoreFault::Worn),
    };
    match Recorder::open(rt, alloc, shared, pass, journal, lines, count) {
        Opened::Ready(recorder) => Ok(Reopened { recorder, lasts }),
        Opened::AllBusy => Err(RestoreFault::AllBusy),
        Opened::Worn => Err(RestoreFault::Worn),
    }
}

// The lines, each with what the note of a journal tells of it.
fn told_by(journal: &Journal, mut lines: Vec<Line>) -> Vec<Line>
    ensures { result.items ≡ noted journal.now.marks.note lines.items }
{
    take_note(lines.as_mut_slice(), journal.note());
    lines
}
