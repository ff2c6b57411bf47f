//! How `pqcat` ends.
ghost use Rattle.std.specs.Prelude.{◌≡◌, ◌≤◌};
ghost use Rattle.ldm_outside.specs.Reason.{IsReason};
ghost use Rattle.ldm_gather.specs.CatStatuses.{ReportsIf, status_of, stop_status};

use crate::{EachEnd, EachStop, status_of_queue, status_of_receiving};
use ldm_outside::Sink;
use ldm_status::{LOG_FAULT, Status};

// What stops the writing of a body is the sink.
fn stop_status(why: EachStop) -> Option<Status>
    ensures { result ≡ stop_status why }
{
    match why {
        EachStop::ByTaker => Some(Status::SinkFault),
        EachStop::LogFault => None,
        EachStop::Worn => Some(Status::Worn),
    }
}

// The status of an end. There is none where the log failed.
fn status_of(end: EachEnd) -> Option<Status>
    ensures { result ≡ status_of end }
{
    match end {
        EachEnd::NotMade(fault) => Some(status_of_queue(fault)),
        EachEnd::Unreached => Some(Status::NetFault),
        EachEnd::Received(end) => status_of_receiving(end),
        EachEnd::Enough => Some(Status::Done),
        EachEnd::Stopped(why) => stop_status(why),
    }
}

/// Writes the log line of an end, for the reason that the net gives, and answers the number that the program ends with.
/// Where the log failed there is no line.
pub(crate) fn report<E: Sink>(end: EachEnd, reason: &[u8], log: &mut E) -> u8
    requires { IsReason reason.now }
    ensures reports { ReportsIf (status_of end) result (E.tells log.old) (E.tells log.new) }
    ensures faults_kept { (E.tells log.old).faults ≤ (E.tells log.new).faults }
{
    match status_of(end) {
        Some(status) => status.report_because(reason, log),
        None => LOG_FAULT,
    }
}
