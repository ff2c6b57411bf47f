//! `ldm pqcheck`: what is in the file of a queue.
ghost use Rattle.std.specs.Prelude.{◌≡◌, ◌≤◌};
ghost use Rattle.ldm_model.specs.State.{State};
ghost use Rattle.ldm_book.specs.Stands.{StandsFor};
ghost use Rattle.ldm_outside.specs.Io.{SinkRecord};
ghost use Rattle.ldm_play.specs.Check.{CheckEnds, clean_line, clean_text};
ghost use Rattle.ldm_play.specs.SavingComplete.{CheckCompletes};
ghost use Rattle.ldm_play.specs.Outside.{KeepsCheckFaults, check_tells};
ghost use Rattle.ldm_play.specs.Runs.{CheckRuns};
ghost use Rattle.ldm_play.specs.Steps.{CheckComes};

use crate::files::open_file;
use crate::saving_statuses::status_of_check;
use arrayvec::ArrayVec;
use ldm_answers::{put, put_number};
use ldm_book::Book;
use ldm_disk::Disk;
use ldm_image::ImageFault;
use ldm_outside::{Sink, SinkFailed, write_all};
use ldm_types::Actor;
use std::alloc::Global;

// Room for the line, in which each number may take 20 digits.
const LONGEST_LINE: usize = 72;

// The line, with room for the longest.
type Line = ArrayVec<u8, LONGEST_LINE>;

/// Why the numbers of a queue in a file were not written.
#[derive(Clone, Copy, Debug, PartialEq, Eq)]
pub enum CheckFault {
    /// No queue was opened.
    Unopened(ImageFault),
    /// The sink failed.
    SinkFault,
}

impl From<ImageFault> for CheckFault {
    ghost use Rattle.std.specs.Prelude.{◌≡◌};
    ghost use Rattle.ldm_play.specs.declared.check_command.CheckFault.TheVariants as fault;

    ghost from_gives = { λ why made. made ≡ fault.Unopened why };

    fn from(why: ImageFault) -> CheckFault {
        CheckFault::Unopened(why)
    }
}

impl From<SinkFailed> for CheckFault {
    ghost use Rattle.std.specs.Prelude.{◌≡◌};
    ghost use Rattle.ldm_play.specs.declared.check_command.CheckFault.TheVariants as fault;

    ghost from_gives = { λ _ made. made ≡ fault.SinkFault };

    fn from(_failed: SinkFailed) -> CheckFault {
        CheckFault::SinkFault
    }
}

// The line with these numbers.
fn line_with(admitted: u64, queued: u64, used: u64) -> Line
    ensures { result.items ≡ clean_line admitted queued used }
{
    let mut line = Line::new();
    put(&mut line, b"clean ");
    put_number(&mut line, admitted);
    put(&mut line, b" ");
    put_number(&mut line, queued);
    put(&mut line, b" ");
    put_number(&mut line, used);
    put(&mut line, b"\n");
    line
}

// The line that tells how full a queue is.
fn line_of(book: &mut Book) -> Line
    ensures { (s : State) → StandsFor book.old s → result.items ≡ clean_text s }
{
    let Some(actor) = Actor::new(0) else {
        unreachable!()
    };
    let stat = book.stat(actor);
    line_with(stat.admitted, stat.queued, stat.used)
}

// Opens the queue, and writes its numbers.
fn check_file<K: Sink, D: Disk>(
    alloc: Global,
    path: &str,
    sink: &mut K,
    disk: &mut D,
) -> Result<(), CheckFault>
    ensures ends { (log_before log_after : SinkRecord) → CheckEnds result
        (check_tells (K.tells sink.old) log_before (D.tells disk.old))
        (check_tells (K.tells sink.new) log_after (D.tells disk.new)) }
    ensures comes { (log_before log_after : SinkRecord) → CheckComes result
        (check_tells (K.tells sink.old) log_before (D.tells disk.old))
        (check_tells (K.tells sink.new) log_after (D.tells disk.new)) }
    ensures sink_faults_kept { (K.tells sink.old).faults ≤ (K.tells sink.new).faults }
    ensures disk_faults_kept { (D.tells disk.old).faults ≤ (D.tells disk.new).faults }
{
    let mut book = open_file(alloc, path, disk)?;
    let line = line_of(&mut book);
    write_all(sink, line.as_slice())?;
    Ok(())
}

/// Opens the queue that is kept in the file under the path, and writes `clean ADMITTED QUEUED USED`: how many products
/// were ever admitted, how many are queued, and how many bytes of the arena these take. Answers the number that the
/// program ends with, and writes its line to the log.
///
/// The file is read alone. The clause `ends` gives each status its cause, and what is written then: see `CheckRuns`.
/// The clause `completes` says when the line is written.
pub fn pqcheck<K: Sink, E: Sink, D: Disk>(
    alloc: Global,
    path: &str,
    sink: &mut K,
    log: &mut E,
    disk: &mut D,
) -> u8
    ensures ends { CheckRuns result (check_tells (K.tells sink.old) (E.tells log.old) (D.tells disk.old))
        (check_tells (K.tells sink.new) (E.tells log.new) (D.tells disk.new)) }
    ensures completes { CheckCompletes result
        (check_tells (K.tells sink.old) (E.tells log.old) (D.tells disk.old))
        (check_tells (K.tells sink.new) (E.tells log.new) (D.tells disk.new)) }
    ensures faults_kept { KeepsCheckFaults
        (check_tells (K.tells sink.old) (E.tells log.old) (D.tells disk.old))
        (check_tells (K.tells sink.new) (E.tells log.new) (D.tells disk.new)) }
{
    status_of_check(check_file(alloc, path, sink, disk)).report(log)
}
