//! Configuration files.
ghost use Rattle.ldm_outside.specs.Station.{station_tells};
ghost use Rattle.ldm_words.specs.Checking.{check_view};
ghost use Rattle.ldm_commands.specs.Command as form;
ghost use Rattle.ldm_commands.specs.Doing.{Done};
ghost use Rattle.ldm_commands.specs.World.{kept_desk_of, tells_of, world_view};
ghost use Rattle.ldm_disk.specs.Desks.{desk_tells};

use crate::world::World;
use ldm_check::{CheckAsked, check};
use ldm_disk::{Desks, Disk};
use ldm_outside::{Clock, Launcher, Reasons, Sink, Source, Store};
use ldm_words::CheckWords;
use std::alloc::Global;

/// Writes what is wrong with configuration files.
#[inline(never)]
pub(crate) fn check_files<
    S: Source,
    K: Sink,
    E: Sink,
    C: Clock,
    F: Store + Reasons,
    L: Launcher,
    N: Desks,
    D: Disk,
>(alloc: Global, words: &CheckWords<'_>, world: &mut World<S, K, E, C, F, L, N, D>) -> u8
    ensures { let tells = tells_of K.tells F.tells L.tells
        (station_tells N.StationDoor.tells N.StationDial.tells N.StationLog.tells N.StationClock.tells
        N.StationGate.tells) in
        Done tells (form.Check (check_view words.now)) result
        (world_view S.tells E.tells C.tells N.tells N.kept N.port_asked
        (kept_desk_of N.kept_desk
        (desk_tells N.DeskDisk.tells N.StationLog.tells N.StationClock.tells N.StationGate.tells)) D.tells world.old)
        (world_view S.tells E.tells C.tells N.tells N.kept N.port_asked
        (kept_desk_of N.kept_desk
        (desk_tells N.DeskDisk.tells N.StationLog.tells N.StationClock.tells N.StationGate.tells)) D.tells world.new) }
{
    let asked = CheckAsked {
        confs: words.confs.as_slice(),
        pqacts: words.pqacts.as_slice(),
    };
    check(
        alloc,
        asked,
        &mut world.store,
        &mut world.streams.sink,
        &mut world.streams.log,
    )
}
