ghost use Rattle.std.specs.Prelude.{◌≡◌, ◌<◌, ◌≤◌, length};
ghost use Rattle.std.specs.Vec.{vec_len};
ghost use Rattle.ldm_outside.specs.declared.gate.Go.{Go};

use ldm_crowd::{Crowd, CrowdEnd, Orders, play_crowd};
use ldm_model::Stat;
use ldm_outside::{Gate, Go, OpenGate};
use ldm_outside_memory::MemGate;
use ldm_shared::Shared;
use ldm_status::LONGEST_SCRIPT;
use ldm_types::Actor;
use std::alloc::Global;
use std::process::Abort;
use std::sync::Wait;
use std::sync::atomic::{AtomicBool, Ordering};
use std::test::*;
use std::thread::Threads;

// A script of two actors: an insertion, and a look for another product.
const ROW: &[u8] = b"0 insert 100 01010101010101010101010101010101 2 1 h p 4*41
1 look 02020202020202020202020202020202
";

// A script of eight actors. Three have regions reserved, each a third of the queue, fill them in parts and commit. The
// others read, and hold what they are given.
const RESERVERS_AND_READERS: &[u8] = b"0 reserve 1 01010101010101010101010101010101 2 1 h p 4
1 reserve 1 02020202020202020202020202020202 2 1 h p 4
2 reserve 1 03030303030303030303030303030303 2 1 h p 4
3 open 2 oldest
4 open 2 oldest
5 open 2 oldest
6 open 2 oldest
7 open 2 oldest
0 fill . 2*41
1 fill . 3*42
2 fill . 1*43
3 step .
4 step .
5 step .
6 step .
7 step .
0 fill . 2*44
1 fill . 1*45
2 fill . 3*46
0 commit . 100
1 commit . 100
2 commit . 100
3 read . 0 4
4 read . 0 4
5 read . 0 4
6 read . 0 4
7 read . 0 4
3 close .
4 close .
5 close .
6 close .
7 close .
";

// How often a gate looks for the flag of the other worker.
const TURNS: u32 = 1_000_000_000;

// A gate that raises a flag of its own, and holds until that of another gate is raised, for so many turns at most.
#[derive(Drop)]
struct MeetingGate<'a> {
    own: &'a AtomicBool,
    other: &'a AtomicBool,
    stops: u64,
}

impl Gate for MeetingGate<'_> {
    ghost use Rattle.std.specs.Prelude.{None};

    ghost tells = { λ gate. record { stops = gate.stops; idles = None; calls = None } };

    fn before(&mut self, _actor: Actor, _i: u64) -> Go {
        self.own.store(true, Ordering::SeqCst);
        for _ in 0..TURNS {
            if self.other.load(Ordering::SeqCst) {
                return Go::On;
            }
        }
        self.stops = self.stops.saturating_add(1);
        Go::Stop
    }

    fn after(&mut self, _actor: Actor, _i: u64) {}

    fn idle(&mut self) -> Go {
        Go::On
    }
}

// Whether so many products were admitted and are queued, none is held, and so many bytes of 168 are used, with one gap
// behind them.
fn is_full(stat: &Stat, count: u64, used: u64) -> bool {
    stat.admitted == count
        && stat.queued == count
        && stat.held == 0
        && stat.used == used
        && stat.largest_free == 168u64.saturating_sub(used)
}

// Plays a script on a new queue of 168 bytes and ten slots.
fn played<H: Threads + Wait + Sync, G: Gate + Send + Drop>(
    rt: &H,
    alloc: Global,
    text: &[u8],
    actors: u32,
    gates: Vec<G>,
) -> Result<Crowd<G>, Fail>
    requires actors { actors ≤ 64 }
    requires gates { vec_len gates ≡ actors }
{
    if text.len() > LONGEST_SCRIPT as usize {
        return Err("a script".into());
    }
    let orders = Orders::read(alloc, text, actors)?;
    let (shared, passes) = Shared::create(alloc, 168, 10, actors)?;
    Ok(play_crowd(rt, alloc, &orders, shared, passes, gates))
}

#[test]
fn two_workers_play_at_once(rt: HostRuntime) -> Result<(), Fail> {
    let alloc = rt.alloc();
    let (first, second) = (AtomicBool::new(false), AtomicBool::new(false));
    let mut gates = Vec::new(alloc);
    gates.push(MeetingGate {
        own: &first,
        other: &second,
        stops: 0,
    })?;
    gates.push(MeetingGate {
        own: &second,
        other: &first,
        stops: 0,
    })?;
    let Crowd {
        mut book,
        pass,
        gates: _,
        answers,
        end,
    } = played(&rt, alloc, ROW, 2, gates)?;
    assert!(rt; end == CrowdEnd::Done);
    assert!(rt; answers.len() == 2);
    assert!(rt; answers[0].as_slice() == b"0 admitted 0 100 0\n".as_slice());
    assert!(rt; answers[1].as_slice() == b"1 absent\n".as_slice());
    assert!(rt; is_full(&book.stat(pass.actor()), 1, 56));
    Ok(())
}

#[test]
fn reservations_are_committed_beside_readers(rt: HostRuntime) -> Result<(), Fail> {
    let alloc = rt.alloc();
    let gates = vec![in alloc; OpenGate; 8]?;
    let Crowd {
        mut book,
        pass,
        gates: _,
        answers: _,
        end,
    } = played(&rt, alloc, RESERVERS_AND_READERS, 8, gates)?;
    assert!(rt; end == CrowdEnd::Done);
    assert!(rt; is_full(&book.stat(pass.actor()), 3, 168));
    Ok(())
}

#[test]
fn a_gate_stops_its_worker(rt: HostRuntime) -> Result<(), Fail> {
    let alloc = rt.alloc();
    let mut gates = Vec::new(alloc);
    gates.push(MemGate::new(alloc, vec![in alloc; 2u64; 1]?))?;
    let crowd = played(&rt, alloc, b"0 stat\n0 stat\n0 stat\n", 1, gates)?;
    assert!(rt; crowd.end == CrowdEnd::Stopped);
    assert!(rt; crowd.answers.len() == 1);
    assert!(rt; crowd.answers[0].as_slice() == b"0 stat 0 0 0 0 168\n".as_slice());
    assert!(rt; crowd.gates.len() == 1);
    assert!(rt; crowd.gates[0].stops() == 1 && crowd.gates[0].told().len() == 2);
    Ok(())
}
