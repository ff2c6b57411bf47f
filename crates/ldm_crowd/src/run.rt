//! A script, played by as many threads as actors.
ghost use Rattle.std.specs.Prelude.{◌≡◌, ℕ, ◌<◌, ◌≤◌, [], length, map, IfOk, OnOk, OnErr};
ghost use Rattle.std.specs.List.{All, range_with_len};
ghost use Rattle.std.specs.Vec.{vec_len, vec_capacity};
ghost use Rattle.ldm_model.specs.History.{after};
ghost use Rattle.ldm_model.specs.Law.{ObeysLaw};
ghost use Rattle.ldm_book.specs.Stands.{StandsFor};
ghost use Rattle.ldm_shared.specs.Passes.{IsLast, new_pass};
ghost use Rattle.ldm_crowd.specs.OrdersView.{script_in};
ghost use Rattle.ldm_crowd.specs.Crowd.{CrowdEnds, StopsKept};
ghost use Rattle.ldm_crowd.specs.Players.{IsNew};
ghost use Rattle.ldm_crowd.specs.Ends.{first_end};

use crate::orders::Orders;
use crate::outcome::{Crowd, CrowdEnd};
use crate::player::{Player, Playing, Worker};
use ldm_book::fifo;
use ldm_calls::Room;
use ldm_outside::Gate;
use ldm_script::LastPlaces;
use ldm_shared::{Left, Pass, Shared, run_workers};
use ldm_types::OutOfMemory;
use std::alloc::Global;
use std::sync::Wait;
use std::thread::Threads;

/// Plays a script on a shared queue: each actor's lines in order, by a worker of its own. Worker i asks its gate before
/// the call of each line, by its actor and the line's number from 0, makes the call with pass i, keeps the answer, and
/// tells the gate.
///
/// The passes are all that the queue was made with, and no call was made with them; the script was read for as many
/// actors; and there are as many gates. Where no thread can be made the workers run one after another.
///
/// The memory that calls need is taken before the first line of any actor, and that for an answer before its line is
/// played: so each line that was played has its answer, however the crowd ends.
pub fn play_crowd<H: Threads + Wait + Sync, G: Gate + Send>(
    rt: &H,
    alloc: Global,
    orders: &Orders,
    shared: Shared,
    passes: Vec<Pass>,
    mut gates: Vec<G>,
) -> Crowd<G>
    requires passes { passes.items ≡ map (new_pass shared) (range_with_len 0 shared.passes) }
    requires actors { length (script_in orders.now) ≡ shared.passes }
    requires gates { vec_len gates ≡ shared.passes }
    ensures last { IsLast shared result.pass }
    ensures stands { StandsFor result.book (after shared.arena shared.slots result.pass.seen) }
    ensures law { ObeysLaw shared.arena shared.slots result.pass.seen }
    ensures ended { CrowdEnds result.end (script_in orders.now) (record {
      history = result.pass.seen;
      answers = map (λ text. text.items) result.answers.items;
      gates_before = map G.tells gates.items;
      gates = map G.tells result.gates.items;
    }) }
    ensures stops_kept { StopsKept (map G.tells gates.items) (map G.tells result.gates.items) }
{
    fifo();
    let Ok((mut workers, mut rooms, mut answers)) = take_room(alloc, passes.len()) else {
        let (book, pass) = shared.finish(passes);
        return Crowd {
            book,
            pass,
            gates,
            answers: Vec::new(alloc),
            end: CrowdEnd::OutOfMemory,
        };
    };
    equip(alloc, &mut gates, &mut rooms, &mut workers);
    let Left {
        book,
        pass,
        own,
        done,
    } = run_workers(rt, alloc, shared, passes, workers, &Playing { orders });
    let ended = dismiss(own, &mut gates, &mut answers);
    Crowd {
        book,
        pass,
        gates,
        answers,
        end: end_of(done, ended),
    }
}

// How the crowd ended, where the workers ended so; without memory for them none began.
fn end_of(done: Result<(), OutOfMemory>, ended: CrowdEnd) -> CrowdEnd
    ensures played { OnOk done (result ≡ ended) }
    ensures none_began { OnErr done (result ≡ CrowdEnd.OutOfMemory) }
{
    match done {
        Ok(()) => ended,
        Err(OutOfMemory) => CrowdEnd::OutOfMemory,
    }
}

// Room for so many workers to play in, for themselves, and for what they were answered.
fn take_room<G>(
    alloc: Global,
    count: usize,
) -> Result<(Vec<Worker<G>>, Vec<Room>, Vec<Vec<u8>>), OutOfMemory>
    ensures none { IfOk result (λ room. (room.0.items ≡ []) × (room.2.items ≡ [])) }
    ensures capacity { IfOk result (λ room. (count ≤ vec_capacity room.0) × (count ≤ vec_capacity room.2)) }
    ensures rooms { IfOk result (λ room. vec_len room.1 ≡ count) }
{
    let answers = Vec::with_capacity(alloc, count)?;
    let rooms = take_rooms(alloc, count)?;
    let workers = Vec::with_capacity(alloc, count)?;
    Ok((workers, rooms, answers))
}

// So many rooms to play in.
fn take_rooms(alloc: Global, count: usize) -> Result<Vec<Room>, OutOfMemory>
    ensures { IfOk result (λ rooms. vec_len rooms ≡ count) }
{
    let mut rooms = Vec::with_capacity(alloc, count)?;
    while rooms.len() < count {
        rooms.push_reserved(Room::new(alloc)?);
    }
    Ok(rooms)
}

// Makes a worker of each gate and room, in the order of the gates.
fn equip<G>(alloc: Global, gates: &mut Vec<G>, rooms: &mut Vec<Room>, workers: &mut Vec<Worker<G>>)
    requires counts { vec_len rooms.old ≡ vec_len gates.old }
    requires none { workers.old.items ≡ [] }
    requires room { vec_len gates.old ≤ vec_capacity workers.old }
    ensures emptied { gates.new.items ≡ [] }
    ensures room { vec_len workers.new ≤ vec_capacity gates.new }
    ensures gates { gates.old.items ≡ map (λ worker. worker.player.gate) workers.new.items }
    ensures new { All IsNew workers.new.items }
{
    gates.reverse();
    while let Some(gate) = gates.pop() {
        let Some(room) = rooms.pop() else {
            unreachable!()
        };
        let player = Player {
            gate,
            last: LastPlaces::NONE,
            answers: Vec::new(alloc),
            end: CrowdEnd::Done,
        };
        workers.push_reserved(Worker { player, room });
    }
}

// Takes the workers apart, in order, and answers how the first ended that did not play all its lines.
fn dismiss<G>(
    mut workers: Vec<Worker<G>>,
    gates: &mut Vec<G>,
    answers: &mut Vec<Vec<u8>>,
) -> CrowdEnd
    requires emptied { (gates.old.items ≡ []) × (answers.old.items ≡ []) }
    requires room { (vec_len workers ≤ vec_capacity gates.old) × (vec_len workers ≤ vec_capacity answers.old) }
    ensures gates { gates.new.items ≡ map (λ worker. worker.player.gate) workers.items }
    ensures answers { answers.new.items ≡ map (λ worker. worker.player.answers) workers.items }
    ensures end { result ≡ first_end (map (λ worker. worker.player.end) workers.items) }
{
    let mut first = CrowdEnd::Done;
    workers.reverse();
    while let Some(worker) = workers.pop() {
        let Worker { player, room: _ } = worker;
        let Player {
            gate,
            last: _,
            answers: text,
            end,
        } = player;
        gates.push_reserved(gate);
        answers.push_reserved(text);
        first = first.or(end);
    }
    workers.destroy_empty();
    first
}
