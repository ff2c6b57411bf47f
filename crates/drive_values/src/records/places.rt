//! The records of a stream with the places where they begin.
ghost use Rattle.std.specs.Prelude.{◌≡◌, ◌+◌, ◌<◌, ◌^◌, ◌++◌, length, false, IfErr, OnOk};
ghost use Rattle.ldm_rpc.specs.Reading.{is_whole};
ghost use Rattle.ldm_rpc.specs.Streams.{forgets, given, in_hand, records_in};
ghost use Rattle.drive_values.specs.Places.{EndsBy, all_of, position_of};

use ldm_drive::Trial;
use ldm_rpc::{Records, RpcFault};
use std::alloc::{AllocError, Global};

// A reader within a stream.
#[derive(Drop)]
struct Stream {
    records: Records,
    // Where in the stream the record in hand begins.
    begins: u64,
    // How many bytes of the stream came.
    came: u64,
}

// A record that came out of a stream.
#[derive(Drop)]
struct Found {
    at: u64,
    content: Vec<u8>,
}

// Adds the record in hand where it is complete, and forgets it.
fn take_whole(alloc: Global, stream: &mut Stream, found: &mut Vec<Found>) -> Result<(), AllocError>
    ensures found { OnOk result
        (all_of found.new.items ≡ all_of found.old.items ++ given stream.old.begins stream.old.records) }
    ensures stream { OnOk result
        (position_of stream.new ≡ forgets stream.old.begins stream.old.came stream.old.records) }
    ensures ready { OnOk result (is_whole stream.new.records ≡ false) }
{
    if let Some(content) = stream.records.whole() {
        let content = content.to_vec(alloc)?;
        found.push(Found {
            at: stream.begins,
            content,
        })?;
        stream.begins = stream.came;
    }
    stream.records.next();
    Ok(())
}

// Gives a piece of a stream to its reader, and adds the records that come out.
fn read_on(
    alloc: Global,
    stream: &mut Stream,
    piece: &[u8],
    found: &mut Vec<Found>,
) -> Result<(), RpcFault>
    requires ready { is_whole stream.old.records ≡ false }
    requires few { stream.old.came + length piece.now < 2 ^ 64 }
    ensures records { OnOk result
        (all_of found.new.items ≡ all_of found.old.items ++ records_in (position_of stream.old) piece.now) }
    ensures in_hand { OnOk result (position_of stream.new ≡ in_hand (position_of stream.old) piece.now) }
    ensures ready { OnOk result (is_whole stream.new.records ≡ false) }
    ensures limit { OnOk result (stream.new.records.limit ≡ stream.old.records.limit) }
    ensures refused { IfErr result
        (λ fault. EndsBy fault stream.old stream.new (all_of found.old.items) (all_of found.new.items) piece.now) }
{
    let mut rest = piece;
    while !rest.is_empty() {
        let taken = match stream.records.push(rest) {
            Ok(taken) => taken,
            Err(fault) => return Err(fault),
        };
        stream.came += taken as u64;
        let Ok(()) = take_whole(alloc, stream, found) else {
            return Err(RpcFault::OutOfMemory);
        };
        rest = &rest[taken..];
    }
    Ok(())
}

/// `places LIMIT STREAM`: the records of a stream, each with its place, and where the record in hand at the end begins;
/// or, behind the records that came out before, the place of a record that is refused, and the fault.
pub fn places(trial: &mut Trial) {
    let limit = trial.small();
    let bytes = trial.bytes();
    if bytes.len() > 1_048_576 {
        return trial.refuse("a long stream");
    }
    let alloc = trial.alloc();
    let mut stream = Stream {
        records: Records::create(alloc, limit),
        begins: 0,
        came: 0,
    };
    let mut found = Vec::new(alloc);
    let read = read_on(alloc, &mut stream, &bytes, &mut found);
    tell_records(trial, &found);
    tell_end(trial, stream.begins, read);
}

fn tell_records(trial: &mut Trial, found: &[Found]) {
    for record in found {
        trial.tell_number(record.at);
        trial.tell(" ");
        trial.tell_digits(&record.content);
        trial.tell(", ");
    }
}

fn tell_end(trial: &mut Trial, begins: u64, read: Result<(), RpcFault>) {
    match read {
        Ok(()) => {
            trial.tell("then ");
            trial.tell_number(begins);
        }
        Err(fault) => {
            trial.tell("refused at ");
            trial.tell_number(begins);
            trial.tell(": ");
            trial.tell_debug(&fault);
        }
    }
}
