//! The statuses of the ends of a node.
ghost use Rattle.std.specs.Prelude.{◌≡◌, ◌≤◌};
ghost use Rattle.ldm_outside.specs.Reason.{IsReason};
ghost use Rattle.ldm_node_command.specs.Statuses.{Tells, status_behind, status_of_fault};
ghost use Rattle.ldm_node_command.specs.Statuses.{status_of_journal, status_of_node, status_of_queue};
ghost use Rattle.ldm_node_command.specs.Statuses.{status_of_recording, status_of_restoring};

use crate::commands::StartFault;
use crate::ending::{NodeFault, Ran};
use crate::listening::ListenFault;
use crate::restoring::RestoreFault;
use ldm_command_files::status_of_conf;
use ldm_journal::JournalFault;
use ldm_node::NodeStop;
use ldm_outside::{Failed, Sink, SinkFailed};
use ldm_recorder::RecordEnd;
use ldm_shared::CreateFault;
use ldm_status::{LOG_FAULT, Status};

// Where the size of the ring, the heads and the records begin in the file of a journal.
const RING_SIZE: u64 = 16;

const HEADS: u64 = 24;

const RECORDS: u64 = 12_288;

/// Writes the line of an ending to the log, for the reason that the configuration, the store, the net or the launcher
/// gives, and answers the number that the program ends with. Where the log of a worker failed there is no line, and the
/// number is [`LOG_FAULT`].
pub(crate) fn report<E: Sink>(
    ending: Result<Ran, NodeFault>,
    conf: &[u8],
    store: &[u8],
    net: &[u8],
    launcher: &[u8],
    log: &mut E,
) -> u8
    requires conf { IsReason conf.now }
    requires store { IsReason store.now }
    requires net { IsReason net.now }
    requires launcher { IsReason launcher.now }
    ensures tells { Tells (status_of_node ending) result (E.tells log.old) (E.tells log.new) }
    ensures faults_kept { (E.tells log.old).faults ≤ (E.tells log.new).faults }
{
    match status_of(ending) {
        Some(status) => {
            let reason = status.reason_among(conf, store, net, launcher);
            status.report_because(reason, log)
        }
        None => LOG_FAULT,
    }
}

// The status of an ending. Where the log of a worker failed there is none.
fn status_of(ending: Result<Ran, NodeFault>) -> Option<Status>
    ensures { result ≡ status_of_node ending }
{
    let ran = match ending {
        Ok(ran) => ran,
        Err(why) => return Some(status_of_fault(why)),
    };
    match ran.stop {
        NodeStop::Done => {
            let behind = status_behind(ran.waited, ran.written);
            match ran.recorded {
                Some(why) => status_of_recording(why, behind),
                None => Some(behind),
            }
        }
        NodeStop::NetFault => Some(Status::NetFault),
        NodeStop::LogFault => None,
        NodeStop::Worn => Some(Status::Worn),
        NodeStop::OutOfMemory => Some(Status::NoMemory),
    }
}

// The status of a node whose workers were done, by how recording ended, or the one behind it. Where the log failed
// there is none.
fn status_of_recording(why: RecordEnd, behind: Status) -> Option<Status>
    ensures { result ≡ status_of_recording why behind }
{
    match why {
        RecordEnd::Stopped { .. } => Some(behind),
        RecordEnd::DiskFault => Some(Status::StoreFault),
        RecordEnd::NotAJournal | RecordEnd::NoNumbers => Some(Status::BadImage { at: RECORDS }),
        RecordEnd::LogFault => None,
        RecordEnd::Worn => Some(Status::Worn),
        RecordEnd::OutOfMemory => Some(Status::NoMemory),
    }
}

// The status of a node that is done, by what came behind it.
fn status_behind(waited: Result<(), Failed>, written: Result<(), SinkFailed>) -> Status
    ensures { result ≡ status_behind waited written }
{
    match (waited, written) {
        (Ok(()), Ok(())) => Status::Done,
        (Ok(()), Err(SinkFailed)) => Status::SinkFault,
        (Err(Failed), _) => Status::ChildFault,
    }
}

// The status where no node was run.
fn status_of_fault(why: NodeFault) -> Status
    ensures { result ≡ status_of_fault why }
{
    match why {
        NodeFault::NotTaken(why) => status_of_conf(why),
        NodeFault::NotMade(fault) => status_of_queue(fault),
        NodeFault::NotRestored(why) => status_of_restoring(why),
        NodeFault::NotListening(ListenFault::Failed) => Status::NetFault,
        NodeFault::NotListening(ListenFault::OutOfMemory) => Status::NoMemory,
        NodeFault::NotStarted(StartFault::Failed) => Status::ChildFault,
        NodeFault::NotStarted(StartFault::OutOfMemory) => Status::NoMemory,
    }
}

// The status where what the journal kept was not put back.
fn status_of_restoring(why: RestoreFault) -> Status
    ensures { result ≡ status_of_restoring why }
{
    match why {
        RestoreFault::NoDesk => Status::NetFault,
        RestoreFault::NotAttached => Status::StoreFault,
        RestoreFault::NotOpened(why) | RestoreFault::NotRead(why) => status_of_journal(why),
        RestoreFault::Worn => Status::Worn,
        RestoreFault::OutOfMemory | RestoreFault::AllBusy => Status::NoMemory,
    }
}

// The status where a file is no journal, with the byte at which it shows.
fn status_of_journal(why: JournalFault) -> Status
    ensures { result ≡ status_of_journal why }
{
    match why {
        JournalFault::NotAJournal => Status::BadImage { at: 0 },
        JournalFault::OtherRing => Status::BadImage { at: RING_SIZE },
        JournalFault::OtherLength => Status::Unclean,
        JournalFault::BadHead => Status::BadImage { at: HEADS },
        JournalFault::BadRecord => Status::BadImage { at: RECORDS },
        JournalFault::DiskFault => Status::StoreFault,
        JournalFault::OutOfMemory => Status::NoMemory,
    }
}

// The status where no queue was made.
fn status_of_queue(fault: CreateFault) -> Status
    ensures { result ≡ status_of_queue fault }
{
    match fault {
        CreateFault::BadArena { arena } => Status::RefusedArena(arena),
        CreateFault::BadSlots { slots } => Status::RefusedSlots(slots),
        CreateFault::BadPasses { passes } => Status::RefusedPasses(passes),
        CreateFault::OutOfMemory => Status::NoMemory,
    }
}
