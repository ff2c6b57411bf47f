//! The statuses of the ends of `wmo`.
ghost use Rattle.std.specs.Prelude.{◌≤◌};
ghost use Rattle.ldm_outside.specs.Reason.{IsReason};
ghost use Rattle.ldm_wmo.specs.Ingests.{Closes, closing_of};

use crate::ingest_fault::IngestFault;
use crate::outcome::Outcome;
use ldm_outside::Sink;
use ldm_status::{LOG_FAULT, Status};
use ldm_tools::status_of_put_fault;

/// The status where a bad or a cut bulletin was met first. Its line stands in the log: there is no other.
pub const BAD_BULLETIN: u8 = 65;

/// Writes the log line of how ingesting ended, if it has one, for the reason that the net gives, and answers the number
/// that the program ends with.
pub(crate) fn close<E: Sink>(ending: Result<Outcome, IngestFault>, reason: &[u8], log: &mut E) -> u8
    requires { IsReason reason.now }
    ensures closes { Closes (closing_of ending) result (E.tells log.old) (E.tells log.new) }
    ensures faults_kept { (E.tells log.old).faults ≤ (E.tells log.new).faults }
{
    match ending {
        Ok(Outcome::Clean) => Status::Done.report_because(reason, log),
        Ok(Outcome::Bad) => BAD_BULLETIN,
        Ok(Outcome::Refused) => Status::Refused.report_because(reason, log),
        Err(IngestFault::Unreached) => Status::NetFault.report_because(reason, log),
        Err(IngestFault::SourceFault) => Status::SourceFault.report_because(reason, log),
        Err(IngestFault::StreamLimit) => Status::StreamLimit.report_because(reason, log),
        Err(IngestFault::OutOfMemory) => Status::NoMemory.report_because(reason, log),
        Err(IngestFault::Put(why)) => status_of_put_fault(why).report_because(reason, log),
        Err(IngestFault::LogFault) => LOG_FAULT,
    }
}
