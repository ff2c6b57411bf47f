//! Doors and dials.
ghost use Rattle.std.specs.Prelude.{◌≡◌, false};

use arrayvec::ArrayVec;
use ldm_drive::{
    Trial, copied, listen, numbers, push, tell_bytes, tell_count, tell_got, tell_number, tell_word,
};
use ldm_outside::{Came, Dial, Dialled, Door, Got};
use ldm_outside_memory::{LinkScript, MemDial, MemDoor, MemPeer};

fn script(trial: &mut Trial, bytes: &[u8], failing: &[u64]) -> LinkScript {
    LinkScript {
        bytes: copied(trial, bytes),
        pieces: Vec::new(trial.alloc()),
        has_end: true,
        most_sent: usize::MAX,
        failing: copied(trial, failing),
    }
}

// Of three links the first gives bytes, the second ends and the third fails.
fn scripts(trial: &mut Trial) -> Vec<LinkScript> {
    let first = script(trial, b"hello", &[]);
    let second = script(trial, b"", &[]);
    let third = script(trial, b"", &[1]);
    let mut scripts = Vec::new(trial.alloc());
    push(trial, &mut scripts, first);
    push(trial, &mut scripts, second);
    push(trial, &mut scripts, third);
    scripts
}

/// A dial of three links.
pub fn dial_of(trial: &mut Trial, failing: Vec<u64>) -> MemDial
    ensures { result.links.out ≡ false }
{
    let scripts = scripts(trial);
    MemDial::new(trial.alloc(), scripts, failing)
}

fn peers(trial: &mut Trial) -> Vec<MemPeer> {
    let mut peers = Vec::new(trial.alloc());
    for script in scripts(trial) {
        match ArrayVec::try_from(b"peer".as_slice()) {
            Ok(host) => push(trial, &mut peers, MemPeer { host, script }),
            Err(_) => trial.refuse("no such host"),
        }
    }
    peers
}

// Lets a peer in, for a session of one call of `recv`: what it gave, where a peer came.
fn visit<D: Door>(door: &mut D) -> Option<Got>
    requires { (D.tells door.old).links.out ≡ false }
    ensures { (D.tells door.new).links.out ≡ false }
{
    match door.accept() {
        Came::Peer { mut link, .. } => {
            let got = listen(&mut link);
            door.give_back(link);
            Some(got)
        }
        Came::Closed | Came::Failed => None,
    }
}

// Connects, for such a session.
fn call<I: Dial>(dial: &mut I) -> Option<Got>
    requires { (I.tells dial.old).links.out ≡ false }
    ensures { (I.tells dial.new).links.out ≡ false }
{
    match dial.connect(b"host", 388) {
        Dialled::Linked(mut link) => {
            let got = listen(&mut link);
            dial.give_back(link);
            Some(got)
        }
        Dialled::Failed => None,
    }
}

fn tell_session(trial: &mut Trial, got: Option<Got>) {
    match got {
        Some(got) => tell_got(trial, got),
        None => tell_word(trial, "none"),
    }
}

fn visits<D: Door>(trial: &mut Trial, door: &mut D, count: u64)
    requires { (D.tells door.old).links.out ≡ false }
{
    for _ in 0..count {
        tell_session(trial, visit(door));
    }
}

/// So many calls of a dial.
pub fn calls<I: Dial>(trial: &mut Trial, dial: &mut I, count: u64)
    requires { (I.tells dial.old).links.out ≡ false }
{
    for _ in 0..count {
        tell_session(trial, call(dial));
    }
}

/// `door FAILING COUNT`: so many visits of three peers.
pub fn door(trial: &mut Trial) {
    let peers = peers(trial);
    let mut door = MemDoor::new(trial.alloc(), peers, numbers(trial));
    let count = trial.number();
    visits(trial, &mut door, count);
    tell_count(trial, "peers", door.peers());
    tell_count(trial, "closings", door.closings());
    tell_count(trial, "faults", door.faults());
    tell_count(trial, "ended", door.ended());
    tell_count(trial, "failed", door.failed());
    tell_count(trial, "back", door.back().len() as u64);
    for host in door.hosts() {
        tell_bytes(trial, host.as_slice());
    }
}

/// What a dial keeps.
pub fn end_of_dial(trial: &mut Trial, dial: &MemDial) {
    tell_count(trial, "faults", dial.faults());
    tell_count(trial, "ended", dial.ended());
    tell_count(trial, "failed", dial.failed());
    tell_count(trial, "back", dial.back().len() as u64);
    for asked in dial.asked() {
        tell_bytes(trial, asked.host.as_slice());
        tell_number(trial, u64::from(asked.port));
    }
}

/// `dial FAILING COUNT`: so many calls, for three links.
pub fn dial(trial: &mut Trial) {
    let failing = numbers(trial);
    let mut dial = dial_of(trial, failing);
    let count = trial.number();
    calls(trial, &mut dial, count);
    end_of_dial(trial, &dial);
}
