//! Numbers within their bounds, feedtypes, metadata, classes, signatures, and want of memory.

use arrayvec::ArrayVec;
use ldm_drive::{Trial, signature};
use ldm_signature::{read_hex, sign, write_hex};
use ldm_types::{
    Actor, ClassSpec, CursorNo, Feed, Info, InfoFault, MOST_SPECS, Micros, OutOfMemory, Spec,
};
use std::alloc::Global;

/// `instant N`: the instant of that number.
pub fn instant(trial: &mut Trial) {
    let number = trial.number();
    trial.tell_debug(&Micros::new(number).map(Micros::get));
}

/// `actor N`: the actor of that number.
pub fn actor(trial: &mut Trial) {
    let number = trial.small();
    trial.tell_debug(&Actor::new(number).map(Actor::get));
}

/// `cursor N`: the cursor place of that number.
pub fn cursor(trial: &mut Trial) {
    let number = trial.small();
    trial.tell_debug(&CursorNo::new(number).map(CursorNo::get));
}

/// `meets A B`: whether two sets of feedtypes meet.
pub fn sets_meet(trial: &mut Trial) {
    let meet = Feed(trial.small()).meets(Feed(trial.small()));
    trial.tell_debug(&meet);
}

// The next word, which is an instant.
fn instant_of(trial: &mut Trial) -> Option<Micros> {
    let instant = Micros::new(trial.number());
    if instant.is_none() {
        trial.refuse("no such instant");
    }
    instant
}

// Metadata of the words `ARRIVAL SIGNATURE ORIGIN FEED SEQNO IDENT SIZE`, or their fault.
fn read_info(trial: &mut Trial) -> Option<Result<Info, InfoFault>> {
    let arrival = instant_of(trial)?;
    let signature = signature(trial);
    let origin = trial.bytes();
    let feed = Feed(trial.small());
    let seqno = trial.small();
    let ident = trial.bytes();
    let size = trial.small();
    Some(Info::new(arrival, signature, &origin, feed, seqno, &ident, size))
}

/// Metadata of the words `ARRIVAL SIGNATURE ORIGIN FEED SEQNO IDENT SIZE`.
pub fn info_of(trial: &mut Trial) -> Option<Info> {
    match read_info(trial)? {
        Ok(info) => Some(info),
        Err(_) => {
            trial.refuse("no metadata");
            None
        }
    }
}

fn tell_words(trial: &mut Trial, numbers: [u64; 2]) {
    for number in numbers {
        trial.tell_number(number);
        trial.tell(" ");
    }
}

/// The words that [`info_of`] reads.
pub fn tell_info(trial: &mut Trial, info: &Info) {
    trial.tell_number(info.arrival().get());
    trial.tell(" ");
    trial.tell_digits(&info.signature().0);
    trial.tell(" ");
    trial.tell_digits(info.origin());
    trial.tell(" ");
    tell_words(trial, [u64::from(info.feed().0), u64::from(info.seqno())]);
    trial.tell_digits(info.ident());
    trial.tell(" ");
    trial.tell_number(u64::from(info.size()));
}

/// `info FIELDS`: metadata of these fields, or their fault and its text.
pub fn made_info(trial: &mut Trial) {
    match read_info(trial) {
        Some(Ok(info)) => tell_info(trial, &info),
        Some(Err(fault)) => {
            trial.tell_debug(&fault);
            trial.tell(": ");
            trial.tell_value(&fault);
        }
        None => {}
    }
}

/// `copy FIELDS`: a clone of a copy of these metadata.
pub fn copied_info(trial: &mut Trial) {
    let Some(info) = info_of(trial) else {
        return;
    };
    match info.copy().clone() {
        Ok(copy) => tell_info(trial, &copy),
        Err(_) => trial.lack_memory(),
    }
}

// The next two words, which are feedtypes and a pattern.
fn spec_of(trial: &mut Trial) -> Option<Spec> {
    let feed = Feed(trial.small());
    let pattern = trial.bytes();
    match ArrayVec::try_from(pattern.as_slice()) {
        Ok(pattern) => Some(Spec { feed, pattern }),
        Err(_) => {
            trial.refuse("a long pattern");
            None
        }
    }
}

/// `class_spec FROM TO FEED PATTERN ..`: a class of these instants and specifications.
pub fn class_spec(trial: &mut Trial) {
    if let Some(class) = class_of(trial) {
        trial.tell_debug(&class);
    }
}

fn class_of(trial: &mut Trial) -> Option<ClassSpec> {
    let from = instant_of(trial)?;
    let to = instant_of(trial)?;
    let mut specs = ArrayVec::new();
    for _ in 0..=MOST_SPECS {
        if trial.is_done() {
            break;
        }
        if specs.try_push(spec_of(trial)?).is_err() {
            trial.refuse("too many specifications");
        }
    }
    Some(ClassSpec { from, to, specs })
}

/// `memory BYTES`: a copy of these bytes, in a function that ends in [`OutOfMemory`] where there is no room.
pub fn memory(trial: &mut Trial) {
    let bytes = trial.bytes();
    match kept(trial.alloc(), &bytes) {
        Ok(kept) => trial.tell_digits(&kept),
        Err(_) => trial.lack_memory(),
    }
}

fn kept(alloc: Global, bytes: &[u8]) -> Result<Vec<u8>, OutOfMemory> {
    let mut kept = Vec::with_capacity(alloc, 1)?;
    for byte in bytes {
        kept.push(*byte)?;
    }
    Ok(kept)
}

/// `sign BYTES`: the signature of a body, as its hexadecimal text.
pub fn sign_body(trial: &mut Trial) {
    let body = trial.bytes();
    let digits = write_hex(&sign(&body));
    trial.tell_text(digits.as_slice());
}

/// `read_hex TEXT`: the bytes of the signature that a text spells.
pub fn read_signature(trial: &mut Trial) {
    let text = trial.text();
    match read_hex(&text) {
        Some(signature) => trial.tell_digits(&signature.0),
        None => trial.tell("None"),
    }
}
