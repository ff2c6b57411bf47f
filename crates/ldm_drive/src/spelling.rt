//! Bytes of an answer, as cases spell them.

use crate::Trial;

// So many equal bytes in a row are told as a count and one byte.
const LONG_RUN: usize = 8;

// What was told last.
#[derive(Clone, Copy, PartialEq, Eq)]
enum Last {
    Nothing,
    Digits,
    Run,
}

/// Adds bytes in the form of [`Trial::bytes_in`], in which many equal bytes in a row stand as `COUNTxDIGITS`.
pub fn tell_spelled(trial: &mut Trial, bytes: &[u8]) {
    let mut last = Last::Nothing;
    for run in bytes.chunk_by(|one, next| one == next) {
        last = tell_run(trial, last, run);
    }
    if last == Last::Nothing {
        trial.tell("-");
    }
}

// Adds equal bytes.
fn tell_run(trial: &mut Trial, last: Last, run: &[u8]) -> Last {
    let is_long = run.len() >= LONG_RUN;
    if last == Last::Run || is_long && last == Last::Digits {
        trial.tell("_");
    }
    if !is_long {
        trial.tell_digits(run);
        return Last::Digits;
    }
    trial.tell_number(run.len() as u64);
    trial.tell("x");
    trial.tell_digits(run.get(..1).unwrap_or(&[]));
    Last::Run
}
