//! The log lines of losses.
ghost use Rattle.std.specs.Prelude.{◌≡◌, ◌≤◌, ◌+◌, ◌++◌, length};
ghost use Rattle.arrayvec.specs.ArrayVec.{array_vec_len};
ghost use Rattle.ldm_answers.specs.Answer.{blank_number};
ghost use Rattle.ldm_answers.specs.declared.answer.TheConstants.{LONGEST_ANSWER};
ghost use Rattle.ldm_outside.specs.Io.{WritesAll};
ghost use Rattle.ldm_session.specs.Gaps.{gap_line};
ghost use Rattle.ldm_session.specs.declared.gaps.TheConstants.{LONGEST_NAME};

use ldm_answers::{Text, put, put_number, text_into};
use ldm_outside::{Sink, SinkFailed, write_all};

/// The most bytes of the name of a host in a log line.
pub const LONGEST_NAME: usize = 255;

/// Writes the line of a loss to the log: `gap HOST COUNT FIRST LAST`. So many products for the host were evicted before
/// it was given them; the least of their numbers and the greatest.
pub fn write_gap<E: Sink>(
    log: &mut E,
    host: &[u8],
    count: u64,
    first: u64,
    last: u64,
) -> Result<(), SinkFailed>
    requires { length host.now ≤ LONGEST_NAME }
    ensures written { WritesAll result (gap_line host.now count first last) (E.tells log.old) (E.tells log.new) }
    ensures faults_kept { (E.tells log.old).faults ≤ (E.tells log.new).faults }
{
    let mut line = Text::new();
    put(&mut line, b"gap ");
    text_into(host, &mut line);
    put_field(&mut line, count);
    put_field(&mut line, first);
    put_field(&mut line, last);
    put(&mut line, b"\n");
    write_all(log, line.as_slice())
}

// A blank, and a number.
fn put_field(line: &mut Text, n: u64)
    requires { array_vec_len line.old + 21 ≤ LONGEST_ANSWER }
    ensures text { line.new.items ≡ line.old.items ++ blank_number n }
    ensures len { array_vec_len line.new ≤ array_vec_len line.old + 21 }
{
    put(line, b" ");
    put_number(line, n);
}
