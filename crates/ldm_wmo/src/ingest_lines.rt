//! The lines of the log on what is no bulletin.
ghost use Rattle.std.specs.Prelude.{◌≡◌, ◌≤◌};
ghost use Rattle.ldm_outside.specs.Io.{WritesAll};
ghost use Rattle.ldm_wmo.specs.IngestLines.{bad_line, cut_line};

use arrayvec::ArrayVec;
use ldm_answers::{put, put_number};
use ldm_outside::{Sink, SinkFailed, write_all};

// Room for a line with its newline, where a place has 20 digits.
const LONGEST_LINE: usize = 40;

// A line of the log.
type LogLine = ArrayVec<u8, LONGEST_LINE>;

/// Writes the line of a candidate that is no bulletin, by its place in the stream.
pub(crate) fn write_bad<E: Sink>(log: &mut E, at: u64) -> Result<(), SinkFailed>
    ensures written { WritesAll result (bad_line at) (E.tells log.old) (E.tells log.new) }
    ensures faults_kept { (E.tells log.old).faults ≤ (E.tells log.new).faults }
{
    let mut line = LogLine::new();
    put(&mut line, b"bad bulletin at ");
    put_number(&mut line, at);
    put(&mut line, b"\n");
    write_all(log, line.as_slice())
}

/// The same of a candidate that the stream's end cuts off.
pub(crate) fn write_cut<E: Sink>(log: &mut E, at: u64) -> Result<(), SinkFailed>
    ensures written { WritesAll result (cut_line at) (E.tells log.old) (E.tells log.new) }
    ensures faults_kept { (E.tells log.old).faults ≤ (E.tells log.new).faults }
{
    let mut line = LogLine::new();
    put(&mut line, b"cut bulletin at ");
    put_number(&mut line, at);
    put(&mut line, b"\n");
    write_all(log, line.as_slice())
}
