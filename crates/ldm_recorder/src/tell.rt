//! What the log is told where the journal failed.
ghost use Rattle.ldm_recorder.specs.Failing.{SaysLine, TellsFault};

use crate::end::RecordEnd;
use ldm_outside::{Sink, write_all};

/// Writes a line to the log where the journal failed: `journal fault` where its disk did, and `journal changed` where
/// another wrote into its file.
pub(crate) fn tell<E: Sink>(log: &mut E, why: RecordEnd)
    ensures told { TellsFault why (E.tells log.old) (E.tells log.new) }
{
    match why {
        RecordEnd::DiskFault => say(log, b"journal fault\n"),
        RecordEnd::NotAJournal => say(log, b"journal changed\n"),
        _ => {}
    }
}

// Writes a line. Where the log fails too, it counts that itself.
fn say<E: Sink>(log: &mut E, line: &[u8])
    ensures said { SaysLine line.now (E.tells log.old) (E.tells log.new) }
{
    match write_all(log, line) {
        Ok(()) => {}
        Err(_) => {}
    }
}
