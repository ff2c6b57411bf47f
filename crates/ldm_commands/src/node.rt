//! A node.
ghost use Rattle.ldm_outside.specs.Station.{station_tells};
ghost use Rattle.ldm_words.specs.Views.{node_view};
ghost use Rattle.ldm_commands.specs.Command as form;
ghost use Rattle.ldm_commands.specs.Doing.{Done};
ghost use Rattle.ldm_commands.specs.World.{kept_desk_of, tells_of, world_view};
ghost use Rattle.ldm_disk.specs.Desks.{desk_tells};

use crate::world::World;
use ldm_disk::{Desks, Disk};
use ldm_node::NodeOptions;
use ldm_node_command::{NodeSetup, run_node};
use ldm_outside::{Clock, Dial, Door, Launcher, Reasons, Sink, Source, Store};
use ldm_words::NodeWords;
use std::alloc::Global;
use std::sync::Wait;
use std::thread::Threads;

/// Runs a node, as its words say.
#[inline(never)]
pub(crate) fn run_words<
    H: Threads + Wait + Sync,
    S: Source,
    K: Sink,
    E: Sink,
    C: Clock,
    F: Store + Reasons,
    L: Launcher + Reasons,
    N: Desks + Reasons,
    D: Disk,
>(rt: &H, alloc: Global, words: &NodeWords<'_>, world: &mut World<S, K, E, C, F, L, N, D>) -> u8
where
    <N::StationDoor as Door>::Link: Send,
    <N::StationDial as Dial>::Link: Send,
    ensures { let tells = tells_of K.tells F.tells L.tells
        (station_tells N.StationDoor.tells N.StationDial.tells N.StationLog.tells N.StationClock.tells
        N.StationGate.tells) in
        Done tells (form.Node (node_view words.now)) result
        (world_view S.tells E.tells C.tells N.tells N.kept N.port_asked
        (kept_desk_of N.kept_desk
        (desk_tells N.DeskDisk.tells N.StationLog.tells N.StationClock.tells N.StationGate.tells)) D.tells world.old)
        (world_view S.tells E.tells C.tells N.tells N.kept N.port_asked
        (kept_desk_of N.kept_desk
        (desk_tells N.DeskDisk.tells N.StationLog.tells N.StationClock.tells N.StationGate.tells)) D.tells world.new) }
{
    let setup = NodeSetup {
        arena: words.arena,
        slots: words.slots,
        options: NodeOptions {
            port: words.port,
            workers: words.workers,
            sessions: words.sessions,
            idles: words.idles,
        },
        key: world.secret,
        conf: words.conf,
        journal: words.journal,
        ends_with_input: words.ends_with_input,
    };
    run_node(
        rt,
        alloc,
        &setup,
        &mut world.streams.sink,
        &mut world.streams.log,
        &mut world.store,
        &mut world.launcher,
        &mut world.net,
    )
}
