//! Clocks and gates.

use ldm_drive::{Trial, ask, idle, numbers, push, tell_count, tell_go, tell_number};
use ldm_outside::{Gate, GateCall, Go, OpenGate};
use ldm_outside_memory::{MemClock, MemGate};
use ldm_types::{Actor, Micros};

fn instants(trial: &mut Trial) -> Vec<Micros> {
    let mut instants = Vec::new(trial.alloc());
    for instant in numbers(trial) {
        match Micros::new(instant) {
            Some(instant) => push(trial, &mut instants, instant),
            None => trial.refuse("a word is no instant"),
        }
    }
    instants
}

/// `clock INSTANTS COUNT`: what it answers.
pub fn clock(trial: &mut Trial) {
    let mut clock = MemClock::new(instants(trial));
    for _ in 0..trial.number() {
        tell_number(trial, ask(&mut clock).get());
    }
    tell_count(trial, "calls", clock.calls());
}

// Passes a gate, and tells it where it let the call pass.
fn pass<G: Gate>(gate: &mut G, actor: Actor, i: u64) -> Go {
    let go = gate.before(actor, i);
    if go == Go::On {
        gate.after(actor, i);
    }
    go
}

// Passes a gate twice, with an idle call in between.
fn pass_twice<G: Gate>(trial: &mut Trial, gate: &mut G) {
    let Some(actor) = Actor::new(3) else {
        return trial.refuse("no such actor");
    };
    tell_go(trial, pass(gate, actor, 0));
    tell_go(trial, idle(gate));
    tell_go(trial, pass(gate, actor, 1));
}

fn tell_call(trial: &mut Trial, call: &GateCall) {
    match call {
        GateCall::Before { actor, i } => {
            tell_count(trial, "before", u64::from(actor.get()));
            tell_number(trial, *i);
        }
        GateCall::After { actor, i } => {
            tell_count(trial, "after", u64::from(actor.get()));
            tell_number(trial, *i);
        }
    }
}

/// `gate STOPPING`: what it answers, and the calls that it was told of.
pub fn gate(trial: &mut Trial) {
    let mut gate = MemGate::new(trial.alloc(), numbers(trial));
    pass_twice(trial, &mut gate);
    tell_count(trial, "stops", gate.stops());
    for call in gate.told() {
        tell_call(trial, call);
    }
}

/// `open_gate`.
pub fn open_gate(trial: &mut Trial) {
    pass_twice(trial, &mut OpenGate);
}
