//! A worker for each pass of a queue.
ghost use Rattle.std.specs.Prelude.{◌≡◌, ℕ, ◌<◌, ◌≤◌, [], length, map, reverse, slice_index_or, OnOk, OnErr};
ghost use Rattle.std.specs.List.{All};
ghost use Rattle.std.specs.Vec.{vec_len, vec_capacity};
ghost use Rattle.ldm_model.specs.History.{after};
ghost use Rattle.ldm_book.specs.Stands.{StandsFor};
ghost use Rattle.ldm_shared.specs.Passes.{AreAllOf, HasAllOf, IsLast};
ghost use Rattle.ldm_shared.specs.Work.{AllBegin, AllWorked};
ghost use Rattle.ldm_shared.specs.Workers.{Begins, Works};

use crate::work::Work;
use crate::worker::Worker;
use crate::{Pass, Shared};
use ldm_book::Book;
use ldm_types::OutOfMemory;
use std::alloc::Global;
use std::sync::Wait;
use std::thread;
use std::thread::Threads;

/// What the workers of a queue leave.
#[derive(Drop)]
pub struct Left<T> {
    /// The queue, after all calls.
    pub book: Book,
    /// The pass that has seen all calls.
    pub pass: Pass,
    /// What each worker has of its own, in order, as it left it.
    pub own: Vec<T>,
    /// Whether the work was done. Without memory for the workers none begins.
    pub done: Result<(), OutOfMemory>,
}

/// Gives each pass of a queue to a worker of its own, with one of `own`, and has each do the work, in a thread of its
/// own. Then it ends the queue.
///
/// The passes are all that the queue was made with, and there are as many of `own`. Calls may have been made with them.
/// All memory for this is taken before the first worker begins. Where no thread can be made the workers work one after
/// another.
pub fn run_workers<H: Threads + Wait + Sync, T: Send, W: Work<T> + Sync>(
    rt: &H,
    alloc: Global,
    shared: Shared,
    mut passes: Vec<Pass>,
    mut own: Vec<T>,
    work: &W,
) -> Left<T>
    requires passes { AreAllOf shared passes.items }
    requires count { vec_len own ≡ vec_len passes }
    requires begins { AllBegin (W.begins work.now) passes.items own.items }
    ensures last { IsLast shared result.pass }
    ensures stands { StandsFor result.book (after shared.arena shared.slots result.pass.seen) }
    ensures count { vec_len result.own ≡ vec_len own }
    ensures worked { OnOk result.done
        (AllWorked (W.works work.now) result.pass passes.items own.items result.own.items) }
    ensures untouched { OnErr result.done (result.own.items ≡ own.items) }
    ensures uncalled { OnErr result.done (All (HasAllOf result.pass) passes.items) }
{
    let Ok(mut workers) = Vec::with_capacity(alloc, passes.len()) else {
        let (book, pass) = shared.finish(passes);
        return Left {
            book,
            pass,
            own,
            done: Err(OutOfMemory),
        };
    };
    hire(&mut passes, &mut own, &mut workers);
    run_all(rt, &shared, &mut workers, work);
    dismiss(workers, &mut passes, &mut own);
    let (book, pass) = shared.finish(passes);
    Left {
        book,
        pass,
        own,
        done: Ok(()),
    }
}

// Makes a worker of each pass and what is its own. They stand in the vector the last one first.
fn hire<T>(passes: &mut Vec<Pass>, own: &mut Vec<T>, workers: &mut Vec<Worker<T>>)
    requires counts { vec_len own.old ≡ vec_len passes.old }
    requires none { workers.old.items ≡ [] }
    requires room { vec_len passes.old ≤ vec_capacity workers.old }
    ensures emptied { (passes.new.items ≡ []) × (own.new.items ≡ []) }
    ensures room { (vec_len workers.new ≤ vec_capacity passes.new) × (vec_len workers.new ≤ vec_capacity own.new) }
    ensures passes { passes.old.items ≡ map (λ worker. worker.pass) (reverse workers.new.items) }
    ensures own { own.old.items ≡ map (λ worker. worker.own) (reverse workers.new.items) }
{
    while let Some(pass) = passes.pop() {
        let Some(its) = own.pop() else { unreachable!() };
        workers.push_reserved(Worker { pass, own: its });
    }
}

// All workers work, each in a thread of its own where one can be made.
fn run_all<H: Threads + Wait + Sync, T: Send, W: Work<T> + Sync>(
    rt: &H,
    shared: &Shared,
    workers: &mut [Worker<T>],
    work: &W,
)
    requires { All (Begins (W.begins work.now) shared.now) workers.old }
    ensures { (i : ℕ) (d : _) → i < length workers.old
        → Works (W.works work.now) (slice_index_or workers.old i d) (slice_index_or workers.new i d) }
{
    let threads = workers.len().max(1);
    thread::for_each_mut(
        rt,
        workers,
        threads,
        &|_, worker| { worker.run(rt, shared, work) },
    );
}

// Takes the workers apart, the last one first.
fn dismiss<T>(mut workers: Vec<Worker<T>>, passes: &mut Vec<Pass>, own: &mut Vec<T>)
    requires emptied { (passes.old.items ≡ []) × (own.old.items ≡ []) }
    requires room { (vec_len workers ≤ vec_capacity passes.old) × (vec_len workers ≤ vec_capacity own.old) }
    ensures passes { passes.new.items ≡ map (λ worker. worker.pass) (reverse workers.items) }
    ensures own { own.new.items ≡ map (λ worker. worker.own) (reverse workers.items) }
{
    while let Some(worker) = workers.pop() {
        let Worker { pass, own: left } = worker;
        passes.push_reserved(pass);
        own.push_reserved(left);
    }
    workers.destroy_empty();
}
