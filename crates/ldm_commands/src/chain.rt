//! A chain of queues.
ghost use Rattle.ldm_outside.specs.Station.{station_tells};
ghost use Rattle.ldm_words.specs.Views.{chain_view};
ghost use Rattle.ldm_commands.specs.Command as form;
ghost use Rattle.ldm_commands.specs.Doing.{Done};
ghost use Rattle.ldm_commands.specs.World.{kept_desk_of, tells_of, world_view};
ghost use Rattle.ldm_disk.specs.Desks.{desk_tells};

use crate::world::World;
use ldm_chain::{ChainSetup, run_chain};
use ldm_disk::{Desks, Disk};
use ldm_outside::{Clock, Launcher, Sink, Source, Store};
use ldm_words::ChainWords;
use std::alloc::Global;
use std::sync::Wait;

/// Feeds a chain of queues from a script, as its words say.
#[inline(never)]
pub(crate) fn feed_chain<
    H: Wait,
    S: Source,
    K: Sink,
    E: Sink,
    C: Clock,
    F: Store,
    L: Launcher,
    N: Desks,
    D: Disk,
>(rt: &H, alloc: Global, words: ChainWords<'_>, world: &mut World<S, K, E, C, F, L, N, D>) -> u8
    ensures { let tells = tells_of K.tells F.tells L.tells
        (station_tells N.StationDoor.tells N.StationDial.tells N.StationLog.tells N.StationClock.tells
        N.StationGate.tells) in
        Done tells (form.Chain (chain_view words.entry)) result
        (world_view S.tells E.tells C.tells N.tells N.kept N.port_asked
        (kept_desk_of N.kept_desk
        (desk_tells N.DeskDisk.tells N.StationLog.tells N.StationClock.tells N.StationGate.tells)) D.tells world.old)
        (world_view S.tells E.tells C.tells N.tells N.kept N.port_asked
        (kept_desk_of N.kept_desk
        (desk_tells N.DeskDisk.tells N.StationLog.tells N.StationClock.tells N.StationGate.tells)) D.tells world.new) }
{
    let setup = ChainSetup {
        conf: words.conf,
        arena: words.arena,
        slots: words.slots,
        max_hereis: words.max_hereis,
        classes: words.classes,
    };
    run_chain(
        rt,
        alloc,
        setup,
        &mut world.streams,
        &mut world.clock,
        &mut world.store,
    )
}
