//! A stream that is taken over a link, up to its end.
ghost use Rattle.std.specs.Prelude.{◌≡◌, ◌<◌, ◌≤◌, IfOk, [], false, length};
ghost use Rattle.ldm_outside.specs.Io.{ReadGives};
ghost use Rattle.ldm_outside.specs.Link.{IsNotClosed};
ghost use Rattle.ldm_status.specs.declared.streams.TheConstants.{PIECE};
ghost use Rattle.ldm_session.specs.Filling.{GotMost};
ghost use Rattle.ldm_tools.specs.Puts.{HasPut};
ghost use Rattle.ldm_wmo.specs.Scanning.{begun, cut_of, is_complete};
ghost use Rattle.ldm_wmo.specs.Ingesting.{IsNamed, ingesting};
ghost use Rattle.ldm_wmo.specs.Parts.{KeepsOver, RunsFrom, TellsCut, finished, over_tells, tellers};

use crate::Scanner;
use crate::framing::Framing;
use crate::ingest_fault::IngestFault;
use crate::ingest_lines::write_cut;
use crate::ingestion::Ingestion;
use crate::outcome::Outcome;
use crate::taking::take_piece;
use ldm_outside::{Clock, Got, Link, Sink, Source};
use ldm_session::LONGEST_STREAM;
use ldm_status::PIECE;
use ldm_tools::Puts;
use ldm_types::OutOfMemory;
use std::alloc::Global;

// What takes the bulletins of a stream.
#[derive(Drop)]
struct Taker {
    puts: Puts,
    scanner: Scanner,
}

// All memory that a stream takes, but for the head of a PUT and for a reply.
#[derive(Drop)]
struct Room {
    taker: Taker,
    buffer: Vec<u8>,
}

/// Takes the bulletins of a source over a link that was not used yet. Answers what was met first.
pub(crate) fn take_stream<S: Source, L: Link, K: Sink, E: Sink, C: Clock>(
    alloc: Global,
    source: &mut S,
    link: &mut L,
    sink: &mut K,
    log: &mut E,
    clock: &mut C,
    ingestion: &Ingestion<'_>,
) -> Result<Outcome, IngestFault>
    requires not_closed { IsNotClosed (L.tells link.old) }
    requires named { IsNamed (ingesting ingestion.now) }
    ensures runs { RunsFrom result (ingesting ingestion.now)
        (over_tells S.tells (tellers L.tells K.tells E.tells C.tells) source.old link.old sink.old log.old clock.old)
        (over_tells S.tells (tellers L.tells K.tells E.tells C.tells) source.new link.new sink.new log.new clock.new) }
    ensures counts { KeepsOver
        (over_tells S.tells (tellers L.tells K.tells E.tells C.tells) source.old link.old sink.old log.old clock.old)
        (over_tells S.tells (tellers L.tells K.tells E.tells C.tells) source.new link.new sink.new log.new clock.new) }
    ensures still_open { IsNotClosed (L.tells link.new) }
{
    match take_room(alloc, ingestion.framing) {
        Ok(Room { taker, mut buffer }) => take_pieces(
            source,
            link,
            sink,
            log,
            clock,
            ingestion,
            taker,
            buffer.as_mut_slice(),
        ),
        Err(_) => Err(IngestFault::OutOfMemory),
    }
}

fn take_room(alloc: Global, framing: Framing) -> Result<Room, OutOfMemory>
    ensures puts { IfOk result (λ room. HasPut [] [] room.taker.puts) }
    ensures scanner { IfOk result (λ room. room.taker.scanner ≡ begun framing) }
    ensures buffer { IfOk result (λ room. length room.buffer.items ≡ PIECE) }
{
    Ok(Room {
        taker: Taker {
            puts: Puts::create(alloc)?,
            scanner: Scanner::create(alloc, framing)?,
        },
        buffer: vec![in alloc; 0u8; PIECE]?,
    })
}

// Takes a stream in pieces, each as long as the buffer at most.
fn take_pieces<S: Source, L: Link, K: Sink, E: Sink, C: Clock>(
    source: &mut S,
    link: &mut L,
    sink: &mut K,
    log: &mut E,
    clock: &mut C,
    ingestion: &Ingestion<'_>,
    taker: Taker,
    buffer: &mut [u8],
) -> Result<Outcome, IngestFault>
    requires not_closed { IsNotClosed (L.tells link.old) }
    requires named { IsNamed (ingesting ingestion.now) }
    requires puts { HasPut [] [] taker.puts }
    requires scanner { taker.scanner ≡ begun ingestion.now.framing }
    requires buffer { length buffer.old ≡ PIECE }
    ensures runs { RunsFrom result (ingesting ingestion.now)
        (over_tells S.tells (tellers L.tells K.tells E.tells C.tells) source.old link.old sink.old log.old clock.old)
        (over_tells S.tells (tellers L.tells K.tells E.tells C.tells) source.new link.new sink.new log.new clock.new) }
    ensures counts { KeepsOver
        (over_tells S.tells (tellers L.tells K.tells E.tells C.tells) source.old link.old sink.old log.old clock.old)
        (over_tells S.tells (tellers L.tells K.tells E.tells C.tells) source.new link.new sink.new log.new clock.new) }
    ensures still_open { IsNotClosed (L.tells link.new) }
{
    let Taker {
        mut puts,
        mut scanner,
    } = taker;
    let mut met = Outcome::Clean;
    let mut came = 0;
    while came < LONGEST_STREAM {
        if scanner.is_lost() {
            return Ok(met);
        }
        let room = (LONGEST_STREAM - came).min(PIECE as u64) as usize;
        match read_piece(source, buffer, room) {
            Got::Bytes(n) => {
                let piece = &buffer[..n];
                match take_piece(
                    link,
                    sink,
                    log,
                    clock,
                    ingestion,
                    &mut puts,
                    &mut scanner,
                    piece,
                ) {
                    Ok(behind) => met = met.then(behind),
                    Err(why) => return Err(why),
                }
                came += n as u64;
            }
            Got::End => return finish(met, tell_cut(scanner, log)),
            Got::Failed => return Err(IngestFault::SourceFault),
        }
    }
    Err(IngestFault::StreamLimit)
}

// Reads at most so many bytes into the front of the buffer.
fn read_piece<S: Source>(source: &mut S, into: &mut [u8], most: usize) -> Got
    requires some { 0 < most }
    requires room { most ≤ length into.old }
    ensures given { ReadGives result into.new (S.tells source.old) (S.tells source.new) }
    ensures most { GotMost result most }
    ensures faults_kept { (S.tells source.old).faults ≤ (S.tells source.new).faults }
{
    source.read(&mut into[..most])
}

// What was met first, where telling the end of the stream came to that.
fn finish(met: Outcome, told: Result<Outcome, IngestFault>) -> Result<Outcome, IngestFault>
    ensures { result ≡ finished met told }
{
    match told {
        Ok(behind) => Ok(met.then(behind)),
        Err(why) => Err(why),
    }
}

// Writes the line of the candidate that the end of the stream cuts off, if there is one.
fn tell_cut<E: Sink>(scanner: Scanner, log: &mut E) -> Result<Outcome, IngestFault>
    requires { is_complete scanner ≡ false }
    ensures tells { TellsCut result (cut_of scanner) (E.tells log.old) (E.tells log.new) }
    ensures log_kept { (E.tells log.old).faults ≤ (E.tells log.new).faults }
{
    match scanner.end() {
        Some(at) => match write_cut(log, at) {
            Ok(()) => Ok(Outcome::Bad),
            Err(_) => Err(IngestFault::LogFault),
        },
        None => Ok(Outcome::Clean),
    }
}
