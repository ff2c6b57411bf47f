//! Texts that are changed at random.

use crate::configuration::Kept;
use crate::configuration::conf::store_of;
use ldm_conf::{ConfKind, read_conf};
use ldm_drive::{Draws, Trial};
use std::alloc::Global;

// What a byte becomes: bytes that lines are made of.
const MARKS: [u8; 11] = *b"\"# \t\n\r:(A1\xff";

// How reading a text ends.
#[derive(Clone, Copy)]
enum End {
    Read,
    // At a line, and not for want of memory.
    Refused,
    Other,
}

// How many texts were read, and how many were refused at a line.
#[derive(Clone, Copy)]
struct Counts {
    read: u32,
    refused: u32,
}

impl Counts {
    fn count(&mut self, end: End) {
        match end {
            End::Read => self.read = self.read.saturating_add(1),
            End::Refused => self.refused = self.refused.saturating_add(1),
            End::Other => {}
        }
    }
}

fn change_byte(text: &mut [u8], draws: &mut Draws) {
    let at = draws.half() as usize;
    let mark = MARKS[draws.half() as usize % MARKS.len()];
    if text.is_empty() {
        return;
    }
    let at = at % text.len();
    text[at] = mark;
}

// The last ldmd.conf with up to three bytes changed.
fn changed(alloc: Global, kept: &Kept, draws: &mut Draws) -> Option<Vec<u8>> {
    let mut text = kept.text.as_slice().to_vec(alloc).ok()?;
    for _ in 0..3 {
        change_byte(text.as_mut_slice(), draws);
    }
    Some(text)
}

// How reading ends of a text that was changed.
fn end_of(alloc: Global, kept: &Kept, draws: &mut Draws) -> End {
    let Some(text) = changed(alloc, kept, draws) else {
        return End::Other;
    };
    let Some(mut store) = store_of(alloc, kept) else {
        return End::Other;
    };
    match read_conf(alloc, text.as_slice(), &mut store) {
        Ok(_) => End::Read,
        Err(fault) if fault.line > 0 && fault.kind != ConfKind::OutOfMemory => End::Refused,
        Err(_) => End::Other,
    }
}

/// Reads the last ldmd.conf so many times, each time with up to three other bytes changed. Each text is read, or
/// refused at a line and not for want of memory; told is how many were, and whether there are both kinds.
pub fn read(kept: &Kept, trial: &mut Trial) {
    let mut draws = Draws::behind(trial.number());
    let times = trial.small();
    let mut counts = Counts {
        read: 0,
        refused: 0,
    };
    for _ in 0..times {
        counts.count(end_of(trial.alloc(), kept, &mut draws));
    }
    tell_counts(trial, counts);
}

fn tell_counts(trial: &mut Trial, counts: Counts) {
    trial.tell_number(u64::from(counts.read).saturating_add(u64::from(counts.refused)));
    trial.tell(" told, some read ");
    trial.tell_value(&(counts.read > 0));
    trial.tell(", some refused ");
    trial.tell_value(&(counts.refused > 0));
}
