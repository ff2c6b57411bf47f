//! The top call: does what the words of the program ask for.
ghost use Rattle.std.specs.Prelude.{◌≡◌, false, map, string_bytes};
ghost use Rattle.ldm_outside.specs.Station.{station_tells};
ghost use Rattle.ldm_commands.specs.Command.{command_of, take_memory};
ghost use Rattle.ldm_commands.specs.Complete.{RunCompletes};
ghost use Rattle.ldm_commands.specs.Doing.{Done};
ghost use Rattle.ldm_commands.specs.Law.{RunObeysLaw};
ghost use Rattle.ldm_commands.specs.Run.{RunEnds};
ghost use Rattle.ldm_commands.specs.Views.{IsWithin, form_of};
ghost use Rattle.ldm_commands.specs.World.{KeepsAllFaults, kept_desk_of, tells_of, world_view};
ghost use Rattle.ldm_disk.specs.Desks.{desk_tells};

use crate::chain::feed_chain;
use crate::command::{Command, read_command};
use crate::files::check_files;
use crate::node::run_words;
use crate::saving::{check_queue, resume_queue, save_queue};
use crate::tools::{
    act_on_products, count_products, put_bulletins, put_files, tell_figures, tell_products,
    write_bodies,
};
use crate::usage::report_usage;
use crate::world::World;
use ldm_crowd::crowd;
use ldm_disk::{Desks, Disk};
use ldm_exercise::exercise;
use ldm_outside::{Dial, Door, Launcher, Reasons, Rests, Sink, Source, Store};
use ldm_play::play;
use ldm_status::Status;
use ldm_words::WordsFault;
use std::alloc::Global;
use std::sync::Wait;
use std::thread::Threads;

/// Does what the words ask for, the program's name apart, and answers the number that the program ends with. A crowd
/// and a node start threads and wait.
///
/// The clause `ends` gives each status its cause, and what was read, written, sent, started and kept then: see
/// `RunEnds`. The clause `law` says that what a command writes of its own queue are answers of a history that obeys the
/// law of the queue, or for what cause a crowd or a chain writes nothing: see `RunObeysLaw`. The clause `completes`
/// says when all is read and answered: see `RunCompletes`.
pub fn run_ldm<
    H: Threads + Wait + Sync,
    S: Source,
    K: Sink,
    E: Sink,
    C: Rests,
    F: Store + Reasons,
    L: Launcher + Reasons,
    N: Desks + Reasons,
    D: Disk,
>(rt: &H, alloc: Global, words: &[String], world: &mut World<S, K, E, C, F, L, N, D>) -> u8
where
    <N::StationDoor as Door>::Link: Send,
    <N::StationDial as Dial>::Link: Send,
    requires none_out { (N.tells world.old.net).links.out ≡ false }
    ensures ends { let tells = tells_of K.tells F.tells L.tells
        (station_tells N.StationDoor.tells N.StationDial.tells N.StationLog.tells N.StationClock.tells
        N.StationGate.tells) in
        RunEnds tells (command_of (map string_bytes words.now)) (map string_bytes words.now) result
        (world_view S.tells E.tells C.tells N.tells N.kept N.port_asked
        (kept_desk_of N.kept_desk
        (desk_tells N.DeskDisk.tells N.StationLog.tells N.StationClock.tells N.StationGate.tells)) D.tells world.old)
        (world_view S.tells E.tells C.tells N.tells N.kept N.port_asked
        (kept_desk_of N.kept_desk
        (desk_tells N.DeskDisk.tells N.StationLog.tells N.StationClock.tells N.StationGate.tells)) D.tells world.new) }
    ensures law { let tells = tells_of K.tells F.tells L.tells
        (station_tells N.StationDoor.tells N.StationDial.tells N.StationLog.tells N.StationClock.tells
        N.StationGate.tells) in
        RunObeysLaw tells (command_of (map string_bytes words.now)) (take_memory (map string_bytes words.now)) result
        (world_view S.tells E.tells C.tells N.tells N.kept N.port_asked
        (kept_desk_of N.kept_desk
        (desk_tells N.DeskDisk.tells N.StationLog.tells N.StationClock.tells N.StationGate.tells)) D.tells world.old)
        (world_view S.tells E.tells C.tells N.tells N.kept N.port_asked
        (kept_desk_of N.kept_desk
        (desk_tells N.DeskDisk.tells N.StationLog.tells N.StationClock.tells N.StationGate.tells)) D.tells world.new) }
    ensures completes { let tells = tells_of K.tells F.tells L.tells
        (station_tells N.StationDoor.tells N.StationDial.tells N.StationLog.tells N.StationClock.tells
        N.StationGate.tells) in
        RunCompletes tells (command_of (map string_bytes words.now)) result
        (world_view S.tells E.tells C.tells N.tells N.kept N.port_asked
        (kept_desk_of N.kept_desk
        (desk_tells N.DeskDisk.tells N.StationLog.tells N.StationClock.tells N.StationGate.tells)) D.tells world.old)
        (world_view S.tells E.tells C.tells N.tells N.kept N.port_asked
        (kept_desk_of N.kept_desk
        (desk_tells N.DeskDisk.tells N.StationLog.tells N.StationClock.tells N.StationGate.tells)) D.tells world.new) }
    ensures faults_kept { let tells = tells_of K.tells F.tells L.tells
        (station_tells N.StationDoor.tells N.StationDial.tells N.StationLog.tells N.StationClock.tells
        N.StationGate.tells) in
        KeepsAllFaults tells (world_view S.tells E.tells C.tells N.tells N.kept N.port_asked
        (kept_desk_of N.kept_desk
        (desk_tells N.DeskDisk.tells N.StationLog.tells N.StationClock.tells N.StationGate.tells)) D.tells world.old)
        (world_view S.tells E.tells C.tells N.tells N.kept N.port_asked
        (kept_desk_of N.kept_desk
        (desk_tells N.DeskDisk.tells N.StationLog.tells N.StationClock.tells N.StationGate.tells)) D.tells world.new) }
{
    match read_command(alloc, words) {
        Ok(command) => run(rt, alloc, command, world),
        Err(WordsFault::Usage) => report_usage(alloc, words, &mut world.streams.log),
        Err(WordsFault::OutOfMemory) => Status::NoMemory.report(&mut world.streams.log),
    }
}

// Does a command. What most of them do stands in functions that are not inlined here, so that none has the room on the
// stack that the others need.
fn run<
    H: Threads + Wait + Sync,
    S: Source,
    K: Sink,
    E: Sink,
    C: Rests,
    F: Store + Reasons,
    L: Launcher + Reasons,
    N: Desks + Reasons,
    D: Disk,
>(rt: &H, alloc: Global, command: Command<'_>, world: &mut World<S, K, E, C, F, L, N, D>) -> u8
where
    <N::StationDoor as Door>::Link: Send,
    <N::StationDial as Dial>::Link: Send,
    requires none_out { (N.tells world.old.net).links.out ≡ false }
    requires within { IsWithin (form_of command) }
    ensures { let tells = tells_of K.tells F.tells L.tells
        (station_tells N.StationDoor.tells N.StationDial.tells N.StationLog.tells N.StationClock.tells
        N.StationGate.tells) in
        Done tells (form_of command.entry) result
        (world_view S.tells E.tells C.tells N.tells N.kept N.port_asked
        (kept_desk_of N.kept_desk
        (desk_tells N.DeskDisk.tells N.StationLog.tells N.StationClock.tells N.StationGate.tells)) D.tells world.old)
        (world_view S.tells E.tells C.tells N.tells N.kept N.port_asked
        (kept_desk_of N.kept_desk
        (desk_tells N.DeskDisk.tells N.StationLog.tells N.StationClock.tells N.StationGate.tells)) D.tells world.new) }
{
    match command {
        Command::Play { arena, slots } => play(alloc, arena, slots, &mut world.streams),
        Command::Crowd {
            arena,
            slots,
            workers,
        } => crowd(rt, alloc, arena, slots, workers, &mut world.streams),
        Command::Exercise { number, count } => {
            exercise(alloc, number, count, &mut world.streams)
        }
        Command::Chain(words) => feed_chain(rt, alloc, words, world),
        Command::Node(words) => run_words(rt, alloc, &words, world),
        Command::Pqact(words) => act_on_products(rt, alloc, &words, world),
        Command::Pqinsert(words) => put_files(alloc, &words, world),
        Command::Pqcat(words) => write_bodies(rt, alloc, &words, world),
        Command::Notifyme(words) => tell_products(alloc, &words, world),
        Command::Pqmon(words) => tell_figures(alloc, &words, world),
        Command::Wmo(words) => put_bulletins(alloc, &words, world),
        Command::Pqstats(words) => count_products(rt, alloc, &words, world),
        Command::Save(words) => save_queue(alloc, &words, world),
        Command::Resume(path) => resume_queue(alloc, path, world),
        Command::Pqcheck(path) => check_queue(alloc, path, world),
        Command::Check(words) => check_files(alloc, &words, world),
    }
}
