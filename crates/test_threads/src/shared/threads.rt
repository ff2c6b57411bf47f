//! Threads that call one queue, and what their replies say of each other.
ghost use Rattle.std.specs.Prelude.{◌≡◌, ◌<◌, ◌≤◌};
ghost use Rattle.ldm_shared.specs.Passes.{AreAllOf, IsPassOf, IsSamePass};

use super::told::{Named, Told};
use super::worker::Worker;
use ldm_model::Stat;
use ldm_shared::{Pass, Shared};
use ldm_types::Micros;
use std::alloc::Global;
use std::process::Abort;
use std::sync::{Mutex, Wait};
use std::test::*;
use std::thread;
use std::thread::Threads;

const THREADS: usize = 8;

// A queue, how many calls each thread makes, and the greatest size of a body.
#[derive(Clone, Copy)]
struct Plan {
    arena: u64,
    slots: u32,
    calls: u32,
    largest: u32,
}

// A small queue, one whose threads all want its one slot, and one whose calls take so long that threads sleep.
const PLANS: [Plan; 3] = [
    Plan {
        arena: 16_384,
        slots: 64,
        calls: 20_000,
        largest: 400,
    },
    Plan {
        arena: 16_384,
        slots: 1,
        calls: 5_000,
        largest: 400,
    },
    Plan {
        arena: 8_000_000,
        slots: 64,
        calls: 40,
        largest: 1_000_000,
    },
];

#[test]
fn threads_have_one_history(rt: HostRuntime) -> Result<(), Fail> {
    for plan in PLANS {
        let (stat, all) = run(&rt, rt.alloc(), &plan)?;
        assert!(rt; all.len() == THREADS);
        assert!(rt; are_right(&all));
        assert!(rt; is_counted(&stat, &all));
        let admitted = admitted(rt.alloc(), stat.admitted, &all).ok_or(
            "the first numbers, each once",
        )?;
        assert!(rt; times_rise(&admitted));
        assert!(rt; are_named(&admitted, &all));
    }
    Ok(())
}

// How the queue is in the end, and what each thread was told.
fn run<R: Threads + Wait + Sync>(
    rt: &R,
    alloc: Global,
    plan: &Plan,
) -> Result<(Stat, Vec<Told>), Fail> {
    let (shared, mut passes) = Shared::create(alloc, plan.arena, plan.slots, THREADS as u32)?;
    let all = Mutex::new(Vec::new(alloc));
    call_in_threads(rt, alloc, &shared, &mut passes, plan, &all);
    let (mut book, last) = shared.finish(passes);
    Ok((book.stat(last.actor()), all.into_inner()))
}

// Each pass makes its calls in a thread of its own.
fn call_in_threads<R: Threads + Wait + Sync>(
    rt: &R,
    alloc: Global,
    shared: &Shared,
    passes: &mut [Pass],
    plan: &Plan,
    all: &Mutex<Vec<Told>>,
)
    requires { AreAllOf shared.now passes.old }
    ensures { AreAllOf shared.now passes.new }
{
    thread::for_each_mut(
        rt,
        passes,
        THREADS,
        &|i: usize, pass: &mut Pass|
            requires { IsPassOf shared.now pass.old }
            ensures { IsSamePass pass.old pass.new }
        {
            if let Some(told) = calls(rt, alloc, shared, pass, i as u64, plan) {
                // where memory is short, the thread is missed in the end
                let _ = all.lock(rt).push(told);
            }
        },
    );
}

fn calls<R: Wait>(
    rt: &R,
    alloc: Global,
    shared: &Shared,
    pass: &mut Pass,
    seed: u64,
    plan: &Plan,
) -> Option<Told>
    requires { IsPassOf shared.now pass.old }
    ensures { IsSamePass pass.old pass.new }
{
    let mut worker = Worker::new(alloc, seed, plan.largest)?;
    for _ in 0..plan.calls {
        worker.call(rt, shared, pass);
    }
    worker.close(rt, shared, pass);
    Some(worker.into_told())
}

// Whether each thread was told what it may be told.
fn are_right(all: &[Told]) -> bool {
    for told in all {
        if told.is_wrong {
            return false;
        }
    }
    true
}

// Whether the products that are queued and those that are gone are all that were admitted, and none is held.
fn is_counted(stat: &Stat, all: &[Told]) -> bool {
    let mut gone = 0u64;
    for told in all {
        gone = gone.saturating_add(told.gone);
    }
    stat.held == 0 && stat.queued.saturating_add(gone) == stat.admitted
}

// A product that was admitted: its byte and its time.
type Place = Option<(u8, Micros)>;

// The byte and the time of each admitted product, in the order of their numbers, where these are the first ones, each
// once.
fn admitted(alloc: Global, count: u64, all: &[Told]) -> Option<Vec<Place>> {
    let mut admitted = vec![in alloc; None; count as usize].ok()?;
    for told in all {
        note(admitted.as_mut_slice(), told)?;
    }
    Some(admitted)
}

// Notes the products that a thread inserted.
fn note(admitted: &mut [Place], told: &Told) -> Option<()> {
    for product in &told.admitted {
        let place = admitted.get_mut(product.n as usize)?;
        if place.is_some() {
            return None;
        }
        *place = Some((product.byte, product.time));
    }
    Some(())
}

// Whether each number is one of a product, and the times rise.
fn times_rise(admitted: &[Place]) -> bool {
    let mut least = 0u64;
    for place in admitted {
        let Some((_, time)) = place else {
            return false;
        };
        if time.get() < least {
            return false;
        }
        least = time.get().saturating_add(1);
    }
    true
}

// Whether each product that a reply names was admitted, with that signature and at that time.
fn are_named(admitted: &[Place], all: &[Told]) -> bool {
    for told in all {
        for named in &told.named {
            if !is_one(admitted, named) {
                return false;
            }
        }
    }
    true
}

fn is_one(admitted: &[Place], named: &Named) -> bool {
    match admitted.get(named.n as usize) {
        Some(Some((byte, time))) => match named.time {
            Some(at) => *byte == named.byte && time.get() == at.get(),
            None => *byte == named.byte,
        },
        _ => false,
    }
}
