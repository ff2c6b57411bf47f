//! Streams in which bytes were changed, cut off or added.
ghost use Rattle.ldm_shared.specs.Passes.{IsPassOf, IsSamePass};

use crate::receiving::{tell_end, tell_last};
use ldm_class::Class;
use ldm_downstream::Receiver;
use ldm_drive::{Draws, Trial, copied, extend, push, tell_spelled};
use ldm_drive_sessions::{Case, queue_of, tell_log, tell_queue};
use ldm_shared::{Pass, Shared};
use ldm_signature::sign;
use ldm_types::{Micros, Signature};
use std::sync::Wait;

/// `mutated SEED COUNT NAME=VALUE ..`: so many drawn streams, each made of one of `streams=` by a change or two, and
/// each in drawn pieces, are pushed to a receiver with a queue of its own. Tells how many ended in which way, and a
/// digest over all answers: each is that of the digest before it and the answer that `receive` tells.
pub fn mutated<H: Wait>(rt: &H, trial: &mut Trial) {
    let mut draws = Draws::behind(trial.number());
    let count = trial.number();
    let mut case = Case::of(trial);
    let Ok(class) = Class::build(trial.alloc(), &case.class) else {
        return trial.refuse("a pattern means nothing");
    };
    let mut seen = Seen::new();
    for _ in 0..count {
        case.given = stream(trial, &mut draws, &case.streams);
        case.pieces = pieces(trial, &mut draws);
        let mut inner = Trial::of(trial.alloc(), "");
        receive_pieces(rt, &mut inner, &case, &class);
        seen.add(trial, inner.answer());
    }
    seen.tell(trial);
}

// Pushes what is given to a receiver in its pieces.
fn receive_pieces<H: Wait>(rt: &H, trial: &mut Trial, case: &Case, class: &Class) {
    let Some((shared, mut pass, other)) = queue_of(trial.alloc(), case) else {
        return trial.refuse("no queue");
    };
    let _ = other;
    push_pieces(rt, trial, case, class, &shared, &mut pass);
    tell_queue(rt, trial, &shared, &mut pass);
}

fn push_pieces<H: Wait>(
    rt: &H,
    trial: &mut Trial,
    case: &Case,
    class: &Class,
    shared: &Shared,
    pass: &mut Pass,
)
    requires { IsPassOf shared.now pass.old }
    ensures { IsSamePass pass.old pass.new }
{
    let alloc = trial.alloc();
    let (mut out, mut notes) = (Vec::new(alloc), Vec::new(alloc));
    let Some(now) = case.instants.first() else {
        return trial.refuse("no moment");
    };
    let Ok(mut receiver) = Receiver::request(alloc, class, case.last, case.max_hereis) else {
        return trial.lack_memory();
    };
    if receiver.begin(&mut out).is_err() {
        trial.lack_memory();
    }
    push_all(
        rt,
        case,
        *now,
        shared,
        pass,
        &mut receiver,
        &mut out,
        &mut notes,
    );
    let last = receiver.last();
    let end = receiver.end(shared, rt, pass);
    tell_end(trial, &end);
    tell_last(trial, last);
    trial.tell(" sent ");
    tell_spelled(trial, &out);
    tell_log(trial, &notes);
}

fn push_all<H: Wait>(
    rt: &H,
    case: &Case,
    now: Micros,
    shared: &Shared,
    pass: &mut Pass,
    receiver: &mut Receiver<'_>,
    out: &mut Vec<u8>,
    notes: &mut Vec<u8>,
)
    requires { IsPassOf shared.now pass.old }
    ensures { IsSamePass pass.old pass.new }
{
    let mut rest = case.given.as_slice();
    for length in &case.pieces {
        let (piece, left) = rest
            .split_at_checked(*length as usize)
            .unwrap_or((rest, &[]));
        let _ = receiver.push(shared, rt, pass, piece, now, out, notes);
        rest = left;
    }
    let _ = receiver.push(shared, rt, pass, rest, now, out, notes);
}

// Draws a number below another, and 0 below 0.
fn below(draws: &mut Draws, end: u64) -> u64 {
    draws.half().checked_rem(end).unwrap_or(0)
}

// Draws one of some bytes.
fn byte_of(draws: &mut Draws, bytes: &[u8]) -> u8 {
    let at = below(draws, bytes.len() as u64) as usize;
    bytes.get(at).copied().unwrap_or(0)
}

// The values that are most likely to mean something.
const TELLING: [u8; 11] = [0, 1, 2, 3, 4, 5, 12, 13, 14, 128, 255];

// A copy of one of the streams, with one change or two.
fn stream(trial: &mut Trial, draws: &mut Draws, streams: &[Vec<u8>]) -> Vec<u8> {
    let chosen = below(draws, streams.len() as u64) as usize;
    let mut bytes = match streams.get(chosen) {
        Some(stream) => copied(trial, stream),
        None => Vec::new(trial.alloc()),
    };
    for _ in 0..=below(draws, 2) {
        bytes = changed(trial, draws, &bytes);
    }
    bytes
}

// The bytes with one of them changed, some of them cut off, or some added.
fn changed(trial: &mut Trial, draws: &mut Draws, bytes: &[u8]) -> Vec<u8> {
    let kind = below(draws, 3);
    let at = below(draws, bytes.len() as u64) as usize;
    let (front, rest) = bytes.split_at_checked(at).unwrap_or((bytes, &[]));
    let mut changed = copied(trial, front);
    match kind {
        0 => {
            let byte = drawn_byte(draws);
            extend(trial, &mut changed, &[byte]);
            extend(trial, &mut changed, behind(rest, 1));
        }
        1 => {
            let count = below(draws, 8) as usize;
            extend(trial, &mut changed, behind(rest, count.saturating_add(1)));
        }
        _ => {
            let count = byte_of(draws, &[1, 4, 8]);
            let byte = byte_of(draws, &[0, 1, 255]);
            for _ in 0..count {
                extend(trial, &mut changed, &[byte]);
            }
            extend(trial, &mut changed, rest);
        }
    }
    changed
}

fn drawn_byte(draws: &mut Draws) -> u8 {
    if below(draws, 2) == 0 {
        return byte_of(draws, &TELLING);
    }
    byte_of(
        draws,
        &[
            0x00, 0x11, 0x22, 0x33, 0x44, 0x55, 0x66, 0x77, 0x88, 0x99, 0xaa, 0xbb, 0xcc, 0xdd,
            0xee, 0xff,
        ],
    )
}

// What is left behind so many bytes.
fn behind(bytes: &[u8], count: usize) -> &[u8] {
    match bytes.split_at_checked(count) {
        Some((_, rest)) => rest,
        None => &[],
    }
}

fn pieces(trial: &mut Trial, draws: &mut Draws) -> Vec<u64> {
    let mut pieces = Vec::new(trial.alloc());
    for _ in 0..below(draws, 4) {
        let length = below(draws, 60).saturating_add(1);
        push(trial, &mut pieces, length);
    }
    pieces
}

// How many streams ended in which way, and the digest.
#[derive(Drop)]
struct Seen {
    ended: u64,
    truncated: u64,
    refused: u64,
    bad: u64,
    others: u64,
    digest: Signature,
}

impl Seen {
    fn new() -> Seen {
        Seen {
            ended: 0,
            truncated: 0,
            refused: 0,
            bad: 0,
            others: 0,
            digest: Signature([0; 16]),
        }
    }

    fn add(&mut self, trial: &mut Trial, answer: &str) {
        let count = match answer.split(' ').next() {
            Some("Ended") => &mut self.ended,
            Some("Truncated") => &mut self.truncated,
            Some("BadFrame") => &mut self.bad,
            Some("Refused") => &mut self.refused,
            _ => &mut self.others,
        };
        *count = count.saturating_add(1);
        let mut digested = copied(trial, self.digest.0.as_slice());
        extend(trial, &mut digested, answer.as_bytes());
        self.digest = sign(&digested);
    }

    fn tell(&self, trial: &mut Trial) {
        for (name, count) in [
            ("Ended ", self.ended),
            (" Truncated ", self.truncated),
            (" BadFrame ", self.bad),
            (" Refused ", self.refused),
            (" others ", self.others),
        ] {
            trial.tell(name);
            trial.tell_number(count);
        }
        trial.tell(" digest ");
        trial.tell_digits(&self.digest.0);
    }
}
