//! The commands over the file of a queue.
ghost use Rattle.ldm_outside.specs.Station.{station_tells};
ghost use Rattle.ldm_words.specs.Views.{save_view};
ghost use Rattle.ldm_commands.specs.Command as form;
ghost use Rattle.ldm_commands.specs.Doing.{Done};
ghost use Rattle.ldm_commands.specs.World.{kept_desk_of, tells_of, world_view};
ghost use Rattle.ldm_disk.specs.Desks.{desk_tells};

use crate::world::World;
use ldm_disk::{Desks, Disk};
use ldm_outside::{Clock, Launcher, Sink, Source, Store};
use ldm_play::{pqcheck, resume, save};
use ldm_words::SaveWords;
use std::alloc::Global;

/// Plays a script over a queue, and saves the queue in a file, as its words say.
#[inline(never)]
pub(crate) fn save_queue<
    S: Source,
    K: Sink,
    E: Sink,
    C: Clock,
    F: Store,
    L: Launcher,
    N: Desks,
    D: Disk,
>(alloc: Global, words: &SaveWords<'_>, world: &mut World<S, K, E, C, F, L, N, D>) -> u8
    ensures { let tells = tells_of K.tells F.tells L.tells
        (station_tells N.StationDoor.tells N.StationDial.tells N.StationLog.tells N.StationClock.tells
        N.StationGate.tells) in
        Done tells (form.Save (save_view words.now)) result
        (world_view S.tells E.tells C.tells N.tells N.kept N.port_asked
        (kept_desk_of N.kept_desk
        (desk_tells N.DeskDisk.tells N.StationLog.tells N.StationClock.tells N.StationGate.tells)) D.tells world.old)
        (world_view S.tells E.tells C.tells N.tells N.kept N.port_asked
        (kept_desk_of N.kept_desk
        (desk_tells N.DeskDisk.tells N.StationLog.tells N.StationClock.tells N.StationGate.tells)) D.tells world.new) }
{
    save(
        alloc,
        words.file,
        words.arena,
        words.slots,
        &mut world.streams,
        &mut world.disk,
    )
}

/// Opens the queue in a file, plays a script over it, and saves it there.
#[inline(never)]
pub(crate) fn resume_queue<
    S: Source,
    K: Sink,
    E: Sink,
    C: Clock,
    F: Store,
    L: Launcher,
    N: Desks,
    D: Disk,
>(alloc: Global, path: &str, world: &mut World<S, K, E, C, F, L, N, D>) -> u8
    ensures { let tells = tells_of K.tells F.tells L.tells
        (station_tells N.StationDoor.tells N.StationDial.tells N.StationLog.tells N.StationClock.tells
        N.StationGate.tells) in
        Done tells (form.Resume path.now) result
        (world_view S.tells E.tells C.tells N.tells N.kept N.port_asked
        (kept_desk_of N.kept_desk
        (desk_tells N.DeskDisk.tells N.StationLog.tells N.StationClock.tells N.StationGate.tells)) D.tells world.old)
        (world_view S.tells E.tells C.tells N.tells N.kept N.port_asked
        (kept_desk_of N.kept_desk
        (desk_tells N.DeskDisk.tells N.StationLog.tells N.StationClock.tells N.StationGate.tells)) D.tells world.new) }
{
    resume(alloc, path, &mut world.streams, &mut world.disk)
}

/// Writes the figures of the queue in a file.
#[inline(never)]
pub(crate) fn check_queue<
    S: Source,
    K: Sink,
    E: Sink,
    C: Clock,
    F: Store,
    L: Launcher,
    N: Desks,
    D: Disk,
>(alloc: Global, path: &str, world: &mut World<S, K, E, C, F, L, N, D>) -> u8
    ensures { let tells = tells_of K.tells F.tells L.tells
        (station_tells N.StationDoor.tells N.StationDial.tells N.StationLog.tells N.StationClock.tells
        N.StationGate.tells) in
        Done tells (form.Pqcheck path.now) result
        (world_view S.tells E.tells C.tells N.tells N.kept N.port_asked
        (kept_desk_of N.kept_desk
        (desk_tells N.DeskDisk.tells N.StationLog.tells N.StationClock.tells N.StationGate.tells)) D.tells world.old)
        (world_view S.tells E.tells C.tells N.tells N.kept N.port_asked
        (kept_desk_of N.kept_desk
        (desk_tells N.DeskDisk.tells N.StationLog.tells N.StationClock.tells N.StationGate.tells)) D.tells world.new) }
{
    pqcheck(
        alloc,
        path,
        &mut world.streams.sink,
        &mut world.streams.log,
        &mut world.disk,
    )
}
