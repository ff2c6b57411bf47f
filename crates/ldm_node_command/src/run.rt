//! `ldm node`: a node, from its configuration to the line of its queue.
ghost use Rattle.std.specs.Prelude.{◌≡◌, ◌+◌, ◌-◌, ◌<◌, ◌≤◌, ◌^◌, length, map, slice_index_or, Some, None};
ghost use Rattle.std.specs.Prelude.{IfOk, IfErr, IfSome, OnOk};
ghost use Rattle.std.specs.Option.{option_map};
ghost use Rattle.std.specs.List.{All, range_with_len};
ghost use Rattle.std.specs.Vec.{vec_len};
ghost use Rattle.ldm_outside.specs.Io.{SinkRecord};
ghost use Rattle.ldm_outside.specs.Station.{IsNew, station_tells};
ghost use Rattle.ldm_model.specs.History.{after};
ghost use Rattle.ldm_book.specs.Stands.{StandsFor};
ghost use Rattle.ldm_shared.specs.Limits.{IsFaultOf};
ghost use Rattle.ldm_disk.specs.Desks.{desk_tells};
ghost use Rattle.ldm_shared.specs.Passes.{PassView, new_pass};
ghost use Rattle.ldm_node.specs.Clerks.{ArePassesFor, LeavesBehind, RecordCause, clerk_tells, left_tells};
ghost use Rattle.ldm_conf.specs.Confs.{conf_view};
ghost use Rattle.ldm_node_command.specs.declared.progress.Step.TheVariants as step;
ghost use Rattle.ldm_node_command.specs.Complete.{NodeCompletes};
ghost use Rattle.ldm_node_command.specs.Ending.{NodeEnds};
ghost use Rattle.ldm_node_command.specs.Law.{ObeysNodeLaw};
ghost use Rattle.ldm_node_command.specs.Node.{IsMade, Works};
ghost use Rattle.ldm_node_command.specs.Outside.{KeepsFaults, kept_desk_of, outside_of};
ghost use Rattle.ldm_node_command.specs.Restoring.{FailsToRestore, HasJournal, restored_net};
ghost use Rattle.ldm_node_command.specs.Putting.{IsPutBack};
ghost use Rattle.ldm_node_command.specs.Run.{NodeRuns};
ghost use Rattle.ldm_node_command.specs.Setup.{IsGoodSize, passes_for, setup_of};
ghost use Rattle.ldm_node_command.specs.Told.{TellsCommands};

use crate::commands::{start_commands, wait_for_commands};
use crate::ending::{NodeFault, Ran};
use crate::listening::listen;
use crate::passes::count_passes;
use crate::progress::{Step, Steps};
use crate::restoring::{RestoreFault, Resumed, restore_queue};
use crate::setup::NodeSetup;
use crate::stat_line::write_stat;
use crate::statuses::report;
use ldm_conf::Conf;
use ldm_disk::{Desks, Disk};
use ldm_node::{Clerk, NodeEnd, Recorded, node};
use ldm_outside::{Clock, Dial, Door, Gate, Launcher, Net, Reasons, Sink, Station, Store};
use ldm_recorder::RecordEnd;
use ldm_shared::{CreateFault, Pass, Shared};
use std::alloc::Global;
use std::sync::Wait;
use std::thread::Threads;

/// Runs a node: takes its configuration, makes its queue, puts back what its journal kept if it has one, has the net
/// listen, starts the commands of the configuration, and has the workers of the node do their work until all have
/// stopped; one of them records what is inserted into the journal. Then the net keeps the stations and the desk of the
/// journal, the commands are waited for, and the line of the queue is written to the sink. Answers the number that the
/// program ends with, and writes its line to the log.
///
/// Each step comes only where all before it went well, but what comes behind the workers' work comes at each of its
/// ends. Where a command cannot be started, those before it run on, nobody waits for them, and the net keeps the
/// stations as it gave them. The clause `ends` gives each status its cause, and what was done then: see `NodeEnds`.
/// Where the log of a worker failed the number is [`LOG_FAULT`](ldm_status::LOG_FAULT), and no line is written to the
/// log. The clause `commands` says which children a launcher tells that tells any.
pub fn run_node<
    H: Threads + Wait + Sync,
    K: Sink,
    E: Sink,
    F: Store + Reasons,
    L: Launcher + Reasons,
    N: Desks + Reasons,
>(
    rt: &H,
    alloc: Global,
    setup: &NodeSetup<'_>,
    sink: &mut K,
    log: &mut E,
    store: &mut F,
    launcher: &mut L,
    net: &mut N,
) -> u8
where
    <N::StationDoor as Door>::Link: Send,
    <N::StationDial as Dial>::Link: Send,
    ensures ends { NodeRuns
        (station_tells N.StationDoor.tells N.StationDial.tells N.StationLog.tells N.StationClock.tells
        N.StationGate.tells)
        (setup_of setup.now) result
        (outside_of (K.tells sink.old) (E.tells log.old) (F.tells store.old) (L.tells launcher.old) (N.tells net.old)
        (N.kept net.old) (N.port_asked net.old) (kept_desk_of N.DeskDisk.tells N.StationLog.tells N.StationClock.tells
        N.StationGate.tells (N.kept_desk net.old)))
        (outside_of (K.tells sink.new) (E.tells log.new) (F.tells store.new) (L.tells launcher.new) (N.tells net.new)
        (N.kept net.new) (N.port_asked net.new) (kept_desk_of N.DeskDisk.tells N.StationLog.tells N.StationClock.tells
        N.StationGate.tells (N.kept_desk net.new))) }
    ensures law { ObeysNodeLaw
        (station_tells N.StationDoor.tells N.StationDial.tells N.StationLog.tells N.StationClock.tells
        N.StationGate.tells)
        (setup_of setup.now) result
        (outside_of (K.tells sink.old) (E.tells log.old) (F.tells store.old) (L.tells launcher.old) (N.tells net.old)
        (N.kept net.old) (N.port_asked net.old) (kept_desk_of N.DeskDisk.tells N.StationLog.tells N.StationClock.tells
        N.StationGate.tells (N.kept_desk net.old)))
        (outside_of (K.tells sink.new) (E.tells log.new) (F.tells store.new) (L.tells launcher.new) (N.tells net.new)
        (N.kept net.new) (N.port_asked net.new) (kept_desk_of N.DeskDisk.tells N.StationLog.tells N.StationClock.tells
        N.StationGate.tells (N.kept_desk net.new))) }
    ensures completes { NodeCompletes
        (station_tells N.StationDoor.tells N.StationDial.tells N.StationLog.tells N.StationClock.tells
        N.StationGate.tells)
        (setup_of setup.now) result
        (outside_of (K.tells sink.old) (E.tells log.old) (F.tells store.old) (L.tells launcher.old) (N.tells net.old)
        (N.kept net.old) (N.port_asked net.old) (kept_desk_of N.DeskDisk.tells N.StationLog.tells N.StationClock.tells
        N.StationGate.tells (N.kept_desk net.old)))
        (outside_of (K.tells sink.new) (E.tells log.new) (F.tells store.new) (L.tells launcher.new) (N.tells net.new)
        (N.kept net.new) (N.port_asked net.new) (kept_desk_of N.DeskDisk.tells N.StationLog.tells N.StationClock.tells
        N.StationGate.tells (N.kept_desk net.new))) }
    ensures commands { TellsCommands
        (station_tells N.StationDoor.tells N.StationDial.tells N.StationLog.tells N.StationClock.tells
        N.StationGate.tells)
        (setup_of setup.now) result
        (outside_of (K.tells sink.old) (E.tells log.old) (F.tells store.old) (L.tells launcher.old) (N.tells net.old)
        (N.kept net.old) (N.port_asked net.old) (kept_desk_of N.DeskDisk.tells N.StationLog.tells N.StationClock.tells
        N.StationGate.tells (N.kept_desk net.old)))
        (outside_of (K.tells sink.new) (E.tells log.new) (F.tells store.new) (L.tells launcher.new) (N.tells net.new)
        (N.kept net.new) (N.port_asked net.new) (kept_desk_of N.DeskDisk.tells N.StationLog.tells N.StationClock.tells
        N.StationGate.tells (N.kept_desk net.new))) }
    ensures faults_kept { KeepsFaults
        (outside_of (K.tells sink.old) (E.tells log.old) (F.tells store.old) (L.tells launcher.old) (N.tells net.old)
        (N.kept net.old) (N.port_asked net.old) (kept_desk_of N.DeskDisk.tells N.StationLog.tells N.StationClock.tells
        N.StationGate.tells (N.kept_desk net.old)))
        (outside_of (K.tells sink.new) (E.tells log.new) (F.tells store.new) (L.tells launcher.new) (N.tells net.new)
        (N.kept net.new) (N.port_asked net.new) (kept_desk_of N.DeskDisk.tells N.StationLog.tells N.StationClock.tells
        N.StationGate.tells (N.kept_desk net.new))) }
{
    let mut steps = Steps::new();
    let ending = run_steps(rt, alloc, setup, sink, store, launcher, net, &mut steps);
    report(
        ending,
        steps.reason(),
        store.reason(),
        net.reason(),
        launcher.reason(),
        log,
    )
}

/// Makes the steps of a node, from its configuration to the line of its queue. A node that was run has made all of
/// them, in the order of [`Step`] and each once.
pub fn run_steps<H: Threads + Wait + Sync, K: Sink, F: Store, L: Launcher, N: Desks>(
    rt: &H,
    alloc: Global,
    setup: &NodeSetup<'_>,
    sink: &mut K,
    store: &mut F,
    launcher: &mut L,
    net: &mut N,
    steps: &mut Steps,
) -> Result<Ran, NodeFault>
where
    <N::StationDoor as Door>::Link: Send,
    <N::StationDial as Dial>::Link: Send,
    requires first { steps.old ≡ None }
    ensures ends { (log_before log_after : SinkRecord) →
        NodeEnds (station_tells N.StationDoor.tells N.StationDial.tells N.StationLog.tells N.StationClock.tells
        N.StationGate.tells) result
        (setup_of setup.now)
        (outside_of (K.tells sink.old) log_before (F.tells store.old) (L.tells launcher.old) (N.tells net.old)
        (N.kept net.old) (N.port_asked net.old) (kept_desk_of N.DeskDisk.tells N.StationLog.tells N.StationClock.tells
        N.StationGate.tells (N.kept_desk net.old)))
        (outside_of (K.tells sink.new) log_after (F.tells store.new) (L.tells launcher.new) (N.tells net.new)
        (N.kept net.new) (N.port_asked net.new) (kept_desk_of N.DeskDisk.tells N.StationLog.tells N.StationClock.tells
        N.StationGate.tells (N.kept_desk net.new))) }
    ensures order { OnOk result (steps.new ≡ Some step.Line) }
    ensures sink_kept { (K.tells sink.old).faults ≤ (K.tells sink.new).faults }
    ensures store_kept { (F.tells store.old).faults ≤ (F.tells store.new).faults }
    ensures long_kept { (F.tells store.old).long ≤ (F.tells store.new).long }
    ensures launcher_kept { (L.tells launcher.old).faults ≤ (L.tells launcher.new).faults }
    ensures net_kept { (N.tells net.old).faults ≤ (N.tells net.new).faults }
{
    let conf = steps.take_conf(alloc, store, setup.conf)?;
    steps.make(Step::Configuration);
    let (shared, mut passes) = make_queue(alloc, setup, &conf)?;
    steps.make(Step::Queue);
    let resumed = put_back(rt, alloc, setup, &conf, &shared, &mut passes, net, steps)?;
    let stations = match listen(setup, &conf, net, steps) {
        Ok(stations) => stations,
        Err(why) => {
            keep_clerk(net, resumed);
            return Err(NodeFault::NotListening(why));
        }
    };
    let children = match start_commands(alloc, launcher, conf.commands.as_slice(), steps) {
        Ok(children) => children,
        Err(why) => {
            net.keep(stations);
            keep_clerk(net, resumed);
            return Err(NodeFault::NotStarted(why));
        }
    };
    steps.make(Step::Workers);
    let NodeEnd {
        mut book,
        stations,
        recorded,
        end: stop,
        ..
    } = work(rt, alloc, setup, conf, shared, passes, stations, resumed);
    keep_stations(net, stations, steps);
    let recorded = keep_recorded(net, recorded);
    let waited = wait_for_commands(launcher, children.as_slice(), steps);
    let written = write_stat(&mut book, sink, steps);
    Ok(Ran {
        stop,
        recorded,
        waited,
        written,
    })
}

// Puts back what the journal of the setup kept, by the last pass, if it has one. The other passes stay new.
fn put_back<H: Wait, N: Desks>(
    rt: &H,
    alloc: Global,
    setup: &NodeSetup<'_>,
    conf: &Conf,
    shared: &Shared,
    passes: &mut Vec<Pass>,
    net: &mut N,
    steps: &mut Steps,
) -> Result<Resumed<N::DeskDisk, N::StationLog, N::StationClock, N::StationGate>, RestoreFault>
    requires passes { passes.old.items ≡ map (new_pass shared.now) (range_with_len 0 shared.now.passes) }
    requires count { shared.now.passes ≡ setup.now.options.workers + length conf.now.requests.items + 1 }
    requires good { IsGoodSize (setup_of setup.now) (conf_view conf.now) }
    requires before { steps.old ≡ Some step.Queue }
    ensures back { IfOk result (λ resumed.
        IsPutBack (setup_of setup.now) (conf_view conf.now) shared.now passes.new.items (option_map
        (clerk_tells (desk_tells N.DeskDisk.tells N.StationLog.tells N.StationClock.tells N.StationGate.tells))
        resumed.clerk) resumed.lasts.items) }
    ensures same { OnOk result (N.tells net.new ≡ N.tells net.old) }
    ensures fails { IfErr result (λ why. HasJournal (setup_of setup.now)
        × FailsToRestore (setup_of setup.now) (conf_view conf.now) why (new_pass shared.now (shared.now.passes - 1))
        (restored_net (N.tells net.old) (kept_desk_of N.DeskDisk.tells N.StationLog.tells
        N.StationClock.tells N.StationGate.tells (N.kept_desk net.old)))
        (restored_net (N.tells net.new) (kept_desk_of N.DeskDisk.tells N.StationLog.tells
        N.StationClock.tells N.StationGate.tells (N.kept_desk net.new)))) }
    ensures stations { N.kept net.new ≡ N.kept net.old }
    ensures asked { N.port_asked net.new ≡ N.port_asked net.old }
    ensures noted { OnOk result (steps.new ≡ Some step.Restoring) }
    ensures faults_kept { (N.tells net.old).faults ≤ (N.tells net.new).faults }
{
    let Some(mut pass) = passes.pop() else {
        unreachable!()
    };
    match restore_queue(rt, alloc, setup, conf, shared, &mut pass, net, steps) {
        Ok(resumed) => {
            passes.push_reserved(pass);
            Ok(resumed)
        }
        Err(why) => Err(why),
    }
}

// Has the net keep the desk of a clerk, where there is one.
fn keep_clerk<N: Desks>(
    net: &mut N,
    resumed: Resumed<N::DeskDisk, N::StationLog, N::StationClock, N::StationGate>,
)
    ensures desk { IfSome
        (option_map
        (clerk_tells (desk_tells N.DeskDisk.tells N.StationLog.tells N.StationClock.tells N.StationGate.tells))
        resumed.clerk)
        (λ clerk. kept_desk_of N.DeskDisk.tells N.StationLog.tells N.StationClock.tells N.StationGate.tells
        (N.kept_desk net.new) ≡ Some clerk.desk) }
    ensures same { N.tells net.new ≡ N.tells net.old }
    ensures kept { N.kept net.new ≡ N.kept net.old }
    ensures asked { N.port_asked net.new ≡ N.port_asked net.old }
{
    let Resumed { clerk, lasts: _ } = resumed;
    match clerk {
        Some(clerk) => {
            let Clerk { recorder: _, desk } = clerk;
            net.keep_desk(desk);
        }
        None => {}
    }
}

// Has the net keep the desk of what was recorded, where there is one, and answers how recording ended.
fn keep_recorded<N: Desks>(
    net: &mut N,
    recorded: Option<Recorded<N::DeskDisk, N::StationLog, N::StationClock, N::StationGate>>,
) -> Option<RecordEnd>
    ensures desk { IfSome
        (option_map
        (left_tells (desk_tells N.DeskDisk.tells N.StationLog.tells N.StationClock.tells N.StationGate.tells))
        recorded)
        (λ left. kept_desk_of N.DeskDisk.tells N.StationLog.tells N.StationClock.tells N.StationGate.tells
        (N.kept_desk net.new) ≡ Some left.desk) }
    ensures end { result ≡ option_map (λ left. left.end) (option_map
        (left_tells (desk_tells N.DeskDisk.tells N.StationLog.tells N.StationClock.tells N.StationGate.tells))
        recorded) }
    ensures same { N.tells net.new ≡ N.tells net.old }
    ensures kept { N.kept net.new ≡ N.kept net.old }
    ensures asked { N.port_asked net.new ≡ N.port_asked net.old }
{
    match recorded {
        Some(recorded) => {
            let Recorded { desk, end } = recorded;
            net.keep_desk(desk);
            Some(end)
        }
        None => None,
    }
}

// Makes the queue of a node, with all its passes.
fn make_queue(
    alloc: Global,
    setup: &NodeSetup<'_>,
    conf: &Conf,
) -> Result<(Shared, Vec<Pass>), CreateFault>
    ensures made { IfOk result (λ made. IsMade (setup_of setup.now) (conf_view conf.now) made.0) }
    ensures passes { IfOk result (λ made. made.1.items ≡ map (new_pass made.0) (range_with_len 0 made.0.passes)) }
    ensures count { IfOk result
        (λ made. made.0.passes ≡ setup.now.options.workers + length conf.now.requests.items + 1) }
    ensures few { IfOk result (λ _. setup.now.options.workers + length conf.now.requests.items < 2 ^ 32) }
    ensures good { IfOk result (λ _. IsGoodSize (setup_of setup.now) (conf_view conf.now)) }
    ensures fault { IfErr result
        (IsFaultOf setup.now.arena setup.now.slots (passes_for (setup_of setup.now) (conf_view conf.now))) }
{
    let passes = count_passes(setup.options.workers, conf.requests.len());
    Shared::create_keyed(alloc, setup.arena, setup.slots, passes, setup.key)
}

// Has the workers of the node work at their stations until all have stopped, and the clerk behind them.
fn work<
    H: Threads + Wait + Sync,
    F: Disk + Send,
    D: Door + Send,
    I: Dial + Send,
    E: Sink + Send,
    C: Clock + Send,
    G: Gate + Send,
>(
    rt: &H,
    alloc: Global,
    setup: &NodeSetup<'_>,
    conf: Conf,
    shared: Shared,
    passes: Vec<Pass>,
    stations: Vec<Station<D, I, E, C, G>>,
    resumed: Resumed<F, E, C, G>,
) -> NodeEnd<F, D, I, E, C, G>
where
    D::Link: Send,
    I::Link: Send,
    requires made { IsMade (setup_of setup.now) (conf_view conf) shared }
    requires passes { ArePassesFor shared passes.items (option_map (λ clerk. clerk.recorder) resumed.clerk) }
    requires count { shared.passes ≡ setup.now.options.workers + length conf.requests.items + 1 }
    requires stations { vec_len stations ≡ setup.now.options.workers + length conf.requests.items }
    requires are_new { All
        (λ station. IsNew setup.now.options.idles (station_tells D.tells I.tells E.tells C.tells G.tells station))
        stations.items }
    ensures works { Works (station_tells D.tells I.tells E.tells C.tells G.tells) (setup_of setup.now) (conf_view conf)
        resumed.lasts.items stations.items
        (record { pass = result.pass; stations = result.stations.items; end = result.end }) }
    ensures recorded { (pass : PassView) → pass ≡ slice_index_or passes.items (vec_len stations) pass
        → LeavesBehind result.pass pass
        (option_map (clerk_tells (desk_tells F.tells E.tells C.tells G.tells)) resumed.clerk)
        (option_map (left_tells (desk_tells F.tells E.tells C.tells G.tells)) result.recorded) }
    ensures record_causes { IfSome
        (option_map (left_tells (desk_tells F.tells E.tells C.tells G.tells)) result.recorded)
        (λ left. RecordCause left.end left.desk result.pass) }
    ensures stands { StandsFor result.book (after setup.now.arena setup.now.slots result.pass.seen) }
{
    let Resumed { clerk, lasts } = resumed;
    node(
        rt,
        alloc,
        conf,
        shared,
        passes,
        stations,
        clerk,
        &lasts,
        &setup.options,
    )
}

// Has the net keep the stations, as their workers left them.
fn keep_stations<N: Net>(
    net: &mut N,
    stations: Vec<
        Station<N::StationDoor, N::StationDial, N::StationLog, N::StationClock, N::StationGate>,
    >,
    steps: &mut Steps,
)
    requires before { steps.old ≡ Some step.Workers }
    ensures kept { N.kept net.new ≡ stations.items }
    ensures same { N.tells net.new ≡ N.tells net.old }
    ensures asked { N.port_asked net.new ≡ N.port_asked net.old }
    ensures noted { steps.new ≡ Some step.Keeping }
{
    steps.make(Step::Keeping);
    net.keep(stations);
}
