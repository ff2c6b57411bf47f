//! The line of a file that is not sent.
ghost use Rattle.std.specs.Prelude.{◌≤◌};
ghost use Rattle.ldm_outside.specs.Io.{WritesAll};
ghost use Rattle.ldm_tools.specs.InsertLines.{too_long_line};

use ldm_outside::{Sink, SinkFailed, write_all};

/// Writes the line of a file that is too long.
pub(crate) fn write_too_long<K: Sink>(sink: &mut K) -> Result<(), SinkFailed>
    ensures written { WritesAll result too_long_line (K.tells sink.old) (K.tells sink.new) }
    ensures faults_kept { (K.tells sink.old).faults ≤ (K.tells sink.new).faults }
{
    write_all(sink, b"toolong\n")
}
