//! The clock and the gate of the system.

use ldm_adapters::{RealClock, RealGate};
use ldm_drive::{Trial, ask, idle, tell_go, tell_word};
use ldm_outside::Rests;
use std::rt::HostRuntime;

/// `time`: an idle call of the gate of the system, which stops after one, takes most of its time by the clock of the
/// system.
pub fn time(rt: HostRuntime, trial: &mut Trial) {
    let mut clock = RealClock::new(rt);
    let mut gate = RealGate::new(rt, Some(1));
    let before = ask(&mut clock).get();
    tell_go(trial, idle(&mut gate));
    let after = ask(&mut clock).get();
    tell_go(trial, idle(&mut gate));
    // 2020 has begun
    let is_now = before > 1_577_836_800_000_000;
    tell_word(trial, if is_now { "now" } else { "long_ago" });
    let slept = after.saturating_sub(before) >= 45_000;
    tell_word(trial, if slept { "slept" } else { "awake" });
}

/// `rest`: by its own answers the clock of the system rests for the second that it is asked for.
pub fn rest(rt: HostRuntime, trial: &mut Trial) {
    let mut clock = RealClock::new(rt);
    let before = ask(&mut clock).get();
    clock.rest(1);
    let rested = ask(&mut clock).get().saturating_sub(before) >= 1_000_000;
    tell_word(trial, if rested { "rested" } else { "awake" });
}
