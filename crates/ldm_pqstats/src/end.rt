//! How `pqstats` ends.
ghost use Rattle.std.specs.Prelude.{◌≡◌, ◌≤◌};
ghost use Rattle.ldm_outside.specs.Reason.{IsReason};
ghost use Rattle.ldm_pqstats.specs.Statuses.{ReportsIf, count_status, each_status, report_status};
ghost use Rattle.ldm_pqstats.specs.Statuses.{send_status, status_of};

use crate::counter::CountStop;
use ldm_gather::{EachEnd, EachStop, status_of_queue, status_of_receiving};
use ldm_outside::Sink;
use ldm_status::{LOG_FAULT, Status};
use ldm_tools::{PutFault, status_of_put_fault};

/// Why the report was not written, all of it.
#[derive(Clone, Copy, Debug, PartialEq, Eq)]
pub enum ReportFault {
    /// There is no memory for it.
    OutOfMemory,
    /// The sink failed.
    SinkFault,
}

/// Why not all hours were sent.
#[derive(Clone, Copy, Debug, PartialEq, Eq)]
pub enum SendFault {
    /// No link was connected.
    Unreached,
    /// There is no memory.
    OutOfMemory,
    /// The lines of an hour have more than [`LARGEST_BODY`](crate::LARGEST_BODY) bytes.
    TooLong,
    /// A PUT failed, or the line of its answer.
    Put(PutFault),
}

/// How `pqstats` ends.
#[derive(Drop)]
pub enum StatsEnd {
    /// The gathering ended so, and no report was written.
    Gathered(EachEnd),
    /// A product could not be counted, and no report was written.
    NotCounted(CountStop),
    /// The report was not written, all of it.
    NotReported(ReportFault),
    /// As many bytes came as are too many. The report of what came before is written.
    Limited,
    /// The report is written, and where hours were to be sent, they are: whether a queue did not admit one.
    Told { refused: bool },
    /// The report is written, and not all hours were sent.
    NotSent(SendFault),
}

// A counter that stopped has an end of its own.
fn each_status(end: EachEnd) -> Option<Status>
    ensures { result ≡ each_status end }
{
    match end {
        EachEnd::NotMade(fault) => Some(status_of_queue(fault)),
        EachEnd::Unreached => Some(Status::NetFault),
        EachEnd::Received(end) => status_of_receiving(end),
        EachEnd::Enough => Some(Status::Done),
        EachEnd::Stopped(EachStop::ByTaker) => Some(Status::NoMemory),
        EachEnd::Stopped(EachStop::LogFault) => None,
        EachEnd::Stopped(EachStop::Worn) => Some(Status::Worn),
    }
}

fn count_status(why: CountStop) -> Status
    ensures { result ≡ count_status why }
{
    match why {
        CountStop::TooMany => Status::StreamLimit,
        CountStop::OutOfMemory => Status::NoMemory,
    }
}

fn report_status(why: ReportFault) -> Status
    ensures { result ≡ report_status why }
{
    match why {
        ReportFault::OutOfMemory => Status::NoMemory,
        ReportFault::SinkFault => Status::SinkFault,
    }
}

fn send_status(why: SendFault) -> Status
    ensures { result ≡ send_status why }
{
    match why {
        SendFault::Unreached => Status::NetFault,
        SendFault::OutOfMemory => Status::NoMemory,
        SendFault::TooLong => Status::StreamLimit,
        SendFault::Put(why) => status_of_put_fault(why),
    }
}

// The status of an end. There is none where the log failed.
fn status_of(end: StatsEnd) -> Option<Status>
    ensures { result ≡ status_of end }
{
    match end {
        StatsEnd::Gathered(end) => each_status(end),
        StatsEnd::NotCounted(why) => Some(count_status(why)),
        StatsEnd::NotReported(why) => Some(report_status(why)),
        StatsEnd::Limited => Some(Status::StreamLimit),
        StatsEnd::Told { refused: true } => Some(Status::Refused),
        StatsEnd::Told { refused: false } => Some(Status::Done),
        StatsEnd::NotSent(why) => Some(send_status(why)),
    }
}

/// Writes the log line of an end, for the reason that the net gives, and answers the number that the program ends with.
/// Where the log failed there is no line.
pub(crate) fn report<E: Sink>(end: StatsEnd, reason: &[u8], log: &mut E) -> u8
    requires { IsReason reason.now }
    ensures reports { ReportsIf (status_of end) result (E.tells log.old) (E.tells log.new) }
    ensures faults_kept { (E.tells log.old).faults ≤ (E.tells log.new).faults }
{
    match status_of(end) {
        Some(status) => status.report_because(reason, log),
        None => LOG_FAULT,
    }
}
