//! The lines of a node's log on its sessions.
ghost use Rattle.std.specs.Prelude.{◌≡◌, ◌≤◌, length};
ghost use Rattle.ldm_outside.specs.Io.{WritesAll};
ghost use Rattle.ldm_session.specs.declared.gaps.TheConstants.{LONGEST_NAME};
ghost use Rattle.ldm_node.specs.Lines.{session_line, unreached_line};

use crate::session_end::SessionEnd;
use ldm_answers::{Text, put, text_into};
use ldm_outside::{Sink, SinkFailed, write_all};

/// Writes the line of a session that is over to the log: `session HOST END`.
pub fn write_session<E: Sink>(log: &mut E, host: &[u8], end: SessionEnd) -> Result<(), SinkFailed>
    requires { length host.now ≤ LONGEST_NAME }
    ensures written { WritesAll result (session_line host.now end) (E.tells log.old) (E.tells log.new) }
    ensures faults_kept { (E.tells log.old).faults ≤ (E.tells log.new).faults }
{
    let mut line = Text::new();
    put(&mut line, b"session ");
    text_into(host, &mut line);
    put(&mut line, b" ");
    put(&mut line, end.name());
    put(&mut line, b"\n");
    write_all(log, line.as_slice())
}

/// Writes the line of a host that could not be connected to the log: `unreached HOST`.
pub fn write_unreached<E: Sink>(log: &mut E, host: &[u8]) -> Result<(), SinkFailed>
    requires { length host.now ≤ LONGEST_NAME }
    ensures written { WritesAll result (unreached_line host.now) (E.tells log.old) (E.tells log.new) }
    ensures faults_kept { (E.tells log.old).faults ≤ (E.tells log.new).faults }
{
    let mut line = Text::new();
    put(&mut line, b"unreached ");
    text_into(host, &mut line);
    put(&mut line, b"\n");
    write_all(log, line.as_slice())
}
