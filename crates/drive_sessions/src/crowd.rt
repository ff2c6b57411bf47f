//! Four feeders and two others that insert, in threads on one queue.
ghost use Rattle.std.specs.Prelude.{◌<◌};
ghost use Rattle.ldm_shared.specs.Passes.{AreAllOf, IsPassOf, IsSamePass};

use ldm_class::{Class, Policy};
use ldm_drive::Trial;
use ldm_drive_sessions::Case;
use ldm_outside::{Gate, Go, Way};
use ldm_outside_memory::{LinkScript, MemClock, MemLink, MemSink};
use ldm_relay::{Feedme, Message, read_call};
use ldm_shared::{CreateFault, Pass, Shared};
use ldm_types::{Actor, Feed, Info, Micros, Signature};
use ldm_upstream::{FeedEnd, feed};
use std::alloc::Global;
use std::sync::atomic::{AtomicU32, Ordering};
use std::sync::{Mutex, Wait};
use std::thread;
use std::thread::Threads;

const INSERTERS: u32 = 2;

const FEEDERS: u32 = 4;

const PASSES: u32 = 6;

// How often a pass looks whether the others are ready, or done, before it goes on without them.
const LOOKS: u32 = 1_000_000_000;

/// `crowd COUNT NAME=VALUE ..`: two passes insert so many products each, of drawn sizes, while four feed. Tells of each
/// feeding whether it was sent whole bodies alone, each product at most once and those of one pass in order, and was
/// told of all others as losses.
pub fn crowd<H: Threads + Wait + Sync>(rt: &H, trial: &mut Trial) {
    let count = trial.small();
    let case = Case::of(trial);
    match told_by_all(rt, trial.alloc(), &case, count) {
        Ok(told) => {
            for is_right in &told {
                trial.tell(if *is_right { "right " } else { "wrong " });
            }
            trial.tell_number(told.len() as u64);
        }
        Err(_) => trial.refuse("no queue"),
    }
}

// What became of each feeding.
fn told_by_all<H: Threads + Wait + Sync>(
    rt: &H,
    alloc: Global,
    case: &Case,
    count: u32,
) -> Result<Vec<bool>, CreateFault> {
    let (shared, mut passes) = Shared::create(alloc, case.arena, case.slots, PASSES)?;
    let work = Work {
        alloc,
        count,
        ready: AtomicU32::new(0),
        done: AtomicU32::new(0),
        told: Mutex::new(Vec::new(alloc)),
    };
    run(rt, case, &shared, &mut passes, &work);
    Ok(work.told.into_inner())
}

// What the threads share: how many products are inserted by each that inserts, how many feeders have come to the end of
// the empty queue, how many of those that insert are done, and what became of each feeding.
#[derive(Drop)]
struct Work {
    alloc: Global,
    count: u32,
    ready: AtomicU32,
    done: AtomicU32,
    told: Mutex<Vec<bool>>,
}

fn run<H: Threads + Wait + Sync>(
    rt: &H,
    case: &Case,
    shared: &Shared,
    passes: &mut [Pass],
    work: &Work,
)
    requires { AreAllOf shared.now passes.old }
{
    thread::for_each_mut(
        rt,
        passes,
        PASSES as usize,
        &|i: usize, pass: &mut Pass|
            requires { IsPassOf shared.now pass.old }
            ensures { IsSamePass pass.old pass.new }
        {
            if i < INSERTERS as usize {
                wait_for(&work.ready, FEEDERS);
                insert_many(rt, shared, pass, i as u8, work.count);
                work.done.fetch_add(1, Ordering::SeqCst);
            } else if let Some(is_right) = feed_all(rt, case, shared, pass, work) {
                let _ = work.told.lock(rt).push(is_right);
            }
        },
    );
}

// Waits until a number is so large, or for long.
fn wait_for(number: &AtomicU32, least: u32) {
    for _ in 0..LOOKS {
        if number.load(Ordering::SeqCst) >= least {
            return;
        }
    }
}

// Inserts products of one pass: the sequence number tells the body, and the ident the pass.
fn insert_many<H: Wait>(rt: &H, shared: &Shared, pass: &mut Pass, who: u8, count: u32)
    requires { IsPassOf shared.now pass.old }
    ensures { IsSamePass pass.old pass.new }
{
    for n in 0..count {
        let body = body_of(n);
        let body = &body[..size_of(n)];
        if let Some(info) = info_of(who, n)
            && body.len() == info.size() as usize
        {
            let _ = shared.insert(rt, pass, info.arrival(), &info, body);
        }
    }
}

fn size_of(n: u32) -> usize
    ensures { result < 200 }
{
    (n.wrapping_mul(37) % 200) as usize
}

fn body_of(n: u32) -> [u8; 200] {
    [(n % 251) as u8; 200]
}

fn info_of(who: u8, n: u32) -> Option<Info> {
    let mut signature = [who; 16];
    signature[..4].copy_from_slice(&n.to_be_bytes());
    let size = size_of(n) as u32;
    Info::new(
        Micros::new(100)?,
        Signature(signature),
        b"h",
        Feed(2),
        n,
        &[b'a' + who % 2],
        size,
    )
    .ok()
}

// A gate that tells that its feeder is ready, and says to stop once all was inserted and the cursor came to the end
// once more.
#[derive(Drop)]
struct LastGate<'a> {
    work: &'a Work,
    idles: u32,
    is_last: bool,
    stops: u64,
}

impl Gate for LastGate<'_> {
    ghost use Rattle.std.specs.Prelude.{None};

    ghost tells = { λ gate. record { stops = gate.stops; idles = None; calls = None } };

    fn before(&mut self, _actor: Actor, _i: u64) -> Go {
        Go::On
    }

    fn after(&mut self, _actor: Actor, _i: u64) {}

    fn idle(&mut self) -> Go {
        if self.idles == 0 {
            self.work.ready.fetch_add(1, Ordering::SeqCst);
        }
        self.idles = self.idles.saturating_add(1);
        if self.is_last || self.idles > LOOKS {
            self.stops = self.stops.saturating_add(1);
            return Go::Stop;
        }
        self.is_last = self.work.done.load(Ordering::SeqCst) >= INSERTERS;
        Go::On
    }
}

// Whether a feeding of all that is inserted is right.
fn feed_all<H: Wait>(
    rt: &H,
    case: &Case,
    shared: &Shared,
    pass: &mut Pass,
    work: &Work,
) -> Option<bool>
    requires { IsPassOf shared.now pass.old }
    ensures { IsSamePass pass.old pass.new }
{
    let alloc = work.alloc;
    let ask = Feedme {
        xid: 1,
        class: case.class.copy(),
        max_hereis: case.max_hereis,
    };
    let class = Class::build(alloc, &ask.class).ok()?;
    let policy = Policy::all(alloc).ok()?;
    let mut link = MemLink::new(
        alloc,
        LinkScript {
            bytes: Vec::new(alloc),
            pieces: Vec::new(alloc),
            has_end: true,
            most_sent: usize::MAX,
            failing: Vec::new(alloc),
        },
    );
    let mut log = MemSink::new(alloc, Vec::new(alloc));
    let mut clock = MemClock::new(Vec::new(alloc));
    let mut gate = LastGate {
        work,
        idles: 0,
        is_last: false,
        stops: 0,
    };
    let end = feed(
        rt, alloc, shared, pass, &mut link, &mut log, &mut gate, &mut clock, b"h", &ask, &class,
        &policy,
    );
    let mut sent = Vec::new(alloc);
    for passed in link.passed() {
        if passed.way == Way::Sent {
            sent.push(passed.byte).ok()?;
        }
    }
    let all = u64::from(work.count).saturating_mul(u64::from(INSERTERS));
    let given = given_in(&sent)?;
    Some(end == FeedEnd::Stopped && given.saturating_add(lost_in(log.written())) == all)
}

// How many products were sent behind the answer to the request; nothing where a body is not that of its number, or
// where the products of one pass do not rise.
fn given_in(sent: &[u8]) -> Option<u64> {
    let (_, mut rest) = sent.split_at_checked(32)?;
    let mut given = 0u64;
    let mut least = [0u32; 2];
    for _ in 0..u32::MAX {
        if rest.is_empty() {
            return Some(given);
        }
        let (header, behind) = rest.split_at_checked(4)?;
        let len = header.iter().skip(1).fold(0usize, |len, byte| {
            len.wrapping_mul(256).wrapping_add(usize::from(*byte))
        });
        let (content, left) = behind.split_at_checked(len)?;
        let Ok(Message::Hereis(product)) = read_call(content) else {
            return None;
        };
        let who = usize::from(*product.info.ident().first()? == b'b');
        let n = product.info.seqno();
        if n < least[who] || product.body != &body_of(n)[..size_of(n)] {
            return None;
        }
        least[who] = n.saturating_add(1);
        given = given.saturating_add(1);
        rest = left;
    }
    None
}

// How many losses the lines of a log tell: `gap HOST COUNT FIRST LAST`.
fn lost_in(log: &[u8]) -> u64 {
    let mut lost = 0u64;
    for line in str::from_utf8(log).unwrap_or("").lines() {
        let count = line.split(' ').nth(2).unwrap_or("0");
        lost = lost.saturating_add(count.parse::<u64>().unwrap_or(0));
    }
    lost
}
