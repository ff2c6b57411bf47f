//! Clocks and gates.

use crate::Trial;
use crate::words::tell_word;
use ldm_outside::{Clock, Gate, Go};
use ldm_types::Micros;

/// Asks a clock.
pub fn ask<C: Clock>(clock: &mut C) -> Micros {
    clock.now()
}

/// One idle call.
pub fn idle<G: Gate>(gate: &mut G) -> Go {
    gate.idle()
}

/// Adds what a gate answered, in a word.
pub fn tell_go(trial: &mut Trial, go: Go) {
    tell_word(
        trial,
        match go {
            Go::On => "on",
            Go::Stop => "stop",
        },
    );
}
