//! The words of a case.

use crate::items::{Item, items_in};
use arrayvec::ArrayVec;
use ldm_drive::{Trial, numbers_in, push, spec_in};
use ldm_types::{ClassSpec, MOST_SPECS, Micros, Signature, Spec};

/// What a case says, by words `NAME=VALUE`. What it does not say is as [`Case::new`] has it.
#[derive(Drop)]
pub struct Case {
    /// `arena=`, `slots=`: the sizes of the queue.
    pub arena: u64,
    pub slots: u32,
    /// `queue=`: what is queued before the session.
    pub queued: Vec<Item>,
    /// `later=`: what is inserted when the gate is asked for the first time.
    pub later: Vec<Item>,
    /// `cursors=`: how many cursors are open besides.
    pub cursors: u64,
    /// `reserved=`: how many reservations are open besides. `held=`: 1 where the first product is held by a cursor
    /// besides.
    pub reserved: u64,
    pub held: u64,
    /// `host=`: the peer. `conf=`: the text of an ldmd.conf with the rules of access.
    pub host: Vec<u8>,
    pub conf: Vec<u8>,
    /// `from=`, `to=`, `class=`: the class that is asked for, with `,` between two specifications `FEED/PATTERN`.
    pub class: ClassSpec,
    /// `last=`: the byte that the signature of the last product repeats, as a number; none where it is not said.
    pub last: Option<Signature>,
    /// `max=`: the size of the largest product that is to come whole.
    pub max_hereis: u32,
    /// `count=`: how many notices are asked for; 0 where they are not counted.
    pub count: u64,
    /// `streams=`: streams that are changed, or the contents of records, with `,` between two.
    pub streams: Vec<Vec<u8>>,
    /// `given=`: what the link gives; `pieces=`: the lengths of its pieces; `open=`: 1 where it does not end behind
    /// them, and fails there; `sends=`: the most bytes that it takes at once.
    pub given: Vec<u8>,
    pub pieces: Vec<u64>,
    pub is_open: bool,
    pub sends: u64,
    /// `fails=`, `log_fails=`: the numbers of the calls of the link and of the log that fail.
    pub link_fails: Vec<u64>,
    pub log_fails: Vec<u64>,
    /// `stops=`: the numbers of the calls at which the gate says to stop.
    pub stops: Vec<u64>,
    /// `clock=`: what the clock answers, and the last again.
    pub instants: Vec<Micros>,
}

const LATEST: u64 = 4_294_967_295_999_999;

impl Case {
    /// A queue of 65,536 bytes and 100 slots with nothing in it, host `h`, everything allowed, all feedtypes and
    /// instants, products of up to 16,384 bytes whole, a link that gives nothing and ends, a gate that stops at once, a
    /// clock that answers 0.
    pub fn new(trial: &mut Trial) -> Case {
        let alloc = trial.alloc();
        let mut case = Case {
            arena: 65_536,
            slots: 100,
            queued: Vec::new(alloc),
            later: Vec::new(alloc),
            cursors: 0,
            reserved: 0,
            held: 0,
            host: Vec::new(alloc),
            conf: Vec::new(alloc),
            class: ClassSpec {
                from: instant(trial, 0),
                to: instant(trial, LATEST),
                specs: ArrayVec::new(),
            },
            last: None,
            max_hereis: 16_384,
            count: 0,
            streams: Vec::new(alloc),
            given: Vec::new(alloc),
            pieces: Vec::new(alloc),
            is_open: false,
            sends: u64::MAX,
            link_fails: Vec::new(alloc),
            log_fails: Vec::new(alloc),
            stops: Vec::new(alloc),
            instants: Vec::new(alloc),
        };
        case.host = trial.text_in("h");
        case.conf = trial.text_in("ALLOW\\tANY\\t.*\\n");
        case.stops = numbers_in(trial, "1");
        case
    }

    /// The case that the words of the line say.
    pub fn of(trial: &mut Trial) -> Case {
        let mut case = Case::new(trial);
        for _ in 0..u32::MAX {
            if trial.is_done() {
                break;
            }
            match trial.word().split_once('=') {
                Some((name, value)) => case.set(trial, name, value),
                None => trial.refuse("a word without `=`"),
            }
        }
        case
    }

    fn set(&mut self, trial: &mut Trial, name: &str, value: &str) {
        match name {
            "queue" => self.queued = items_in(trial, value),
            "later" => self.later = items_in(trial, value),
            "host" => self.host = trial.text_in(value),
            "conf" => self.conf = trial.text_in(value),
            "given" => self.given = trial.bytes_in(value),
            "streams" => self.streams = streams_in(trial, value),
            "class" => self.class.specs = specs_in(trial, value),
            "open" => self.is_open = value == "1",
            _ => self.set_numbers(trial, name, value),
        }
    }

    fn set_numbers(&mut self, trial: &mut Trial, name: &str, value: &str) {
        match name {
            "pieces" => self.pieces = numbers_in(trial, value),
            "fails" => self.link_fails = numbers_in(trial, value),
            "log_fails" => self.log_fails = numbers_in(trial, value),
            "stops" => self.stops = numbers_in(trial, value),
            "clock" => self.instants = instants(trial, value),
            _ => self.set_number(trial, name, value),
        }
    }

    fn set_number(&mut self, trial: &mut Trial, name: &str, value: &str) {
        let number = number(trial, value);
        match name {
            "arena" => self.arena = number,
            "slots" => self.slots = small(trial, number),
            "last" => self.last = Some(Signature([byte(trial, number); 16])),
            "max" => self.max_hereis = small(trial, number),
            "from" => self.class.from = instant(trial, number),
            "to" => self.class.to = instant(trial, number),
            "sends" => self.sends = number,
            "count" => self.count = number,
            "cursors" => self.cursors = number,
            "reserved" => self.reserved = number,
            "held" => self.held = number,
            _ => trial.refuse("no such name"),
        }
    }
}

fn number(trial: &mut Trial, value: &str) -> u64 {
    match value.parse::<u64>() {
        Ok(number) => number,
        Err(_) => {
            trial.refuse("a value is no number");
            0
        }
    }
}

fn small(trial: &mut Trial, number: u64) -> u32 {
    match u32::try_from(number) {
        Ok(number) => number,
        Err(_) => {
            trial.refuse("a value is no small number");
            0
        }
    }
}

fn byte(trial: &mut Trial, number: u64) -> u8 {
    match u8::try_from(number) {
        Ok(byte) => byte,
        Err(_) => {
            trial.refuse("a value is no byte");
            0
        }
    }
}

fn instant(trial: &mut Trial, number: u64) -> Micros {
    match Micros::new(number) {
        Some(instant) => instant,
        None => {
            trial.refuse("a value is no instant");
            first_instant()
        }
    }
}

fn first_instant() -> Micros {
    match Micros::new(0) {
        Some(instant) => instant,
        None => unreachable!(),
    }
}

fn instants(trial: &mut Trial, value: &str) -> Vec<Micros> {
    let mut instants = Vec::new(trial.alloc());
    for number in &numbers_in(trial, value) {
        let instant = instant(trial, *number);
        push(trial, &mut instants, instant);
    }
    instants
}

fn streams_in(trial: &mut Trial, value: &str) -> Vec<Vec<u8>> {
    let mut streams = Vec::new(trial.alloc());
    for part in value.split(',') {
        let stream = trial.bytes_in(part);
        push(trial, &mut streams, stream);
    }
    streams
}

fn specs_in(trial: &mut Trial, value: &str) -> ArrayVec<Spec, MOST_SPECS> {
    let mut specs = ArrayVec::new();
    for part in value.split(',') {
        match spec_in(trial, part) {
            Some(spec) => {
                if specs.try_push(spec).is_err() {
                    trial.refuse("too many specifications");
                }
            }
            None => trial.refuse("no specification"),
        }
    }
    specs
}
