//! Records in which bytes were changed, cut off or added: each is read or named, and a message that is read is written
//! as it was.

use crate::records::messages::{is_written, read};
use ldm_drive::{Draws, Trial};
use ldm_relay::{LARGEST_CONTENT, RelayFault};
use ldm_rpc::{LAST_FRAGMENT, Records, RpcFault};
use std::alloc::{AllocError, Global};

// The most bytes of the content of a record.
const LIMIT: u32 = 1024;

/// A message: 0 for a call, else the procedure to whose call it is a reply, and the content of its record.
#[derive(Drop)]
pub struct Sample {
    procedure: u32,
    content: Vec<u8>,
}

/// `sample PROCEDURE CONTENT`: a message that is to be changed. How many there are now.
pub fn add_sample(samples: &mut Vec<Sample>, trial: &mut Trial) {
    let procedure = trial.small();
    let content = trial.bytes();
    if samples.push(Sample { procedure, content }).is_err() {
        trial.lack_memory();
    }
    trial.tell_value(&samples.len());
}

/// `mutate SEED SEED COUNT`: so many changed samples, drawn behind the first seed, each as a stream in pieces that are
/// drawn behind the second. What they were read as. The samples are forgotten.
pub fn mutate(samples: &mut Vec<Sample>, trial: &mut Trial) {
    let mut draws = Draws::behind(trial.number());
    let mut pieces = Draws::behind(trial.number());
    let count = trial.small();
    let mut found = Found::default();
    for _ in 0..count {
        if mutate_one(trial.alloc(), samples, &mut draws, &mut pieces, &mut found).is_none() {
            return trial.refuse("no sample, or no memory");
        }
    }
    samples.clear();
    trial.tell_debug(&found);
}

fn mutate_one(
    alloc: Global,
    samples: &[Sample],
    draws: &mut Draws,
    pieces: &mut Draws,
    found: &mut Found,
) -> Option<()> {
    let at = draws.below((samples.len() as u64).max(1)) as usize;
    let sample = samples.get(at)?;
    let content = changed(alloc, draws, &sample.content).ok()?;
    let stream = record(alloc, draws, &content).ok()?;
    take_stream(alloc, pieces, found, &stream, sample.procedure)
}

fn change_a_byte(draws: &mut Draws, bytes: &mut [u8]) {
    let at = draws.below((bytes.len() as u64).max(1)) as usize;
    let byte = if draws.below(2) == 0 {
        draws.below(256)
    } else {
        draws.below(8)
    };
    if let Some(place) = bytes.get_mut(at) {
        *place = byte as u8;
    }
}

// The content with up to two bytes changed. One in eight is cut, and as many have some bytes more.
fn changed(alloc: Global, draws: &mut Draws, content: &[u8]) -> Result<Vec<u8>, AllocError> {
    let mut bytes = content.to_vec(alloc)?;
    for _ in 0..draws.below(3) {
        change_a_byte(draws, &mut bytes);
    }
    match draws.below(8) {
        0 => bytes.truncate(draws.below((bytes.len() as u64).saturating_add(1)) as usize),
        1 => {
            for _ in 0..1 + draws.below(8) {
                bytes.push(draws.byte())?;
            }
        }
        _ => {}
    }
    Ok(bytes)
}

fn header_of(content: &[u8]) -> [u8; 4] {
    (LAST_FRAGMENT + (content.len() % LAST_FRAGMENT as usize) as u32).to_be_bytes()
}

// The record of a content in one fragment. A byte of one header in sixteen is another.
fn record(alloc: Global, draws: &mut Draws, content: &[u8]) -> Result<Vec<u8>, AllocError> {
    let mut record = whole_record(alloc, content)?;
    if draws.below(16) == 0 {
        let at = draws.below(4) as usize;
        if let Some(place) = record.get_mut(at) {
            *place = draws.byte();
        }
    }
    Ok(record)
}

// What records were read as.
#[derive(Debug, Default, Drop)]
struct Found {
    messages: u64,
    // Of these, those that were written as they were.
    written: u64,
    not_rpc: u64,
    wrong_program: u64,
    wrong_procedure: u64,
    bad_message: u64,
    too_long: u64,
    pending: u64,
    // All places that faults of messages named, added up.
    places: u64,
}

fn add(count: &mut u64, more: u64) {
    *count = count.saturating_add(more);
}

impl Found {
    fn add_fault(&mut self, fault: RelayFault) {
        match fault {
            RelayFault::NotRpc { at } => {
                add(&mut self.not_rpc, 1);
                add(&mut self.places, at as u64);
            }
            RelayFault::WrongProgram { .. } => add(&mut self.wrong_program, 1),
            RelayFault::WrongProcedure { .. } => add(&mut self.wrong_procedure, 1),
            RelayFault::BadMessage { at, .. } => {
                add(&mut self.bad_message, 1);
                add(&mut self.places, at as u64);
            }
        }
    }
}

// The record of a content, as it stands.
fn whole_record(alloc: Global, content: &[u8]) -> Result<Vec<u8>, AllocError> {
    let mut record = header_of(content).to_vec(alloc)?;
    record.extend_from_slice(content)?;
    Ok(record)
}

fn take_content(alloc: Global, found: &mut Found, content: &[u8], procedure: u32) -> Option<()> {
    if content.len() > LARGEST_CONTENT {
        return Some(());
    }
    match read(content, procedure) {
        Ok(message) => {
            add(&mut found.messages, 1);
            let record = whole_record(alloc, content).ok()?;
            if is_written(alloc, &message, &record)? {
                add(&mut found.written, 1);
            }
        }
        Err(fault) => found.add_fault(fault),
    }
    Some(())
}

// Gives a stream to a reader in pieces of up to 64 bytes, and reads each content that comes out.
fn take_stream(
    alloc: Global,
    pieces: &mut Draws,
    found: &mut Found,
    stream: &[u8],
    procedure: u32,
) -> Option<()> {
    let mut records = Records::create(alloc, LIMIT);
    let mut rest = stream;
    for _ in 0..stream.len() {
        if rest.is_empty() {
            break;
        }
        let len = rest.len().min(1 + pieces.below(64) as usize);
        records.next();
        match records.push(rest.get(..len)?) {
            Ok(taken) => rest = rest.get(taken..)?,
            Err(RpcFault::TooLong { .. }) => {
                add(&mut found.too_long, 1);
                return Some(());
            }
            Err(_) => return None,
        }
        if let Some(content) = records.whole() {
            take_content(alloc, found, content, procedure)?;
        }
    }
    if records.pending() {
        add(&mut found.pending, 1);
    }
    Some(())
}
