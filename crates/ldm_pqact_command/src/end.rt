//! How `pqact` ends.
ghost use Rattle.std.specs.Prelude.{◌≡◌, ◌≤◌, IsSome};
ghost use Rattle.ldm_outside.specs.Reason.{IsReason};
ghost use Rattle.ldm_pqact_command.specs.Statuses.{IfStopped, IsEndOf, ReportsIf, after_closing};
ghost use Rattle.ldm_pqact_command.specs.Statuses.{status_of, stop_status};

use crate::state::{StateNotTaken, status_of_state};
use crate::stop::ActStop;
use ldm_actions::Done;
use ldm_command_files::{EntriesNotTaken, status_of_entries};
use ldm_gather::{GatherEnd, status_of_queue, status_of_receiving};
use ldm_intake::RecvEnd;
use ldm_outside::{Reason, Sink};
use ldm_shared::CreateFault;
use ldm_status::{LOG_FAULT, Status};

/// How `pqact` ends.
#[derive(Drop)]
pub enum PqactEnd {
    /// No entries were taken.
    NotTaken(EntriesNotTaken),
    /// No state was taken.
    NotResumed(StateNotTaken),
    /// No queue was made, or there was no memory to begin.
    NotMade(CreateFault),
    /// No link was connected.
    Unreached,
    /// The receiving ended so, and all that was queued by then was acted on.
    Received(RecvEnd),
    /// The cursor was given as many products as were to be acted on, or more.
    Enough,
    /// Acting on products stopped; or all else ended well, and closing the outputs failed.
    Stopped(ActStop),
}

/// How `pqact` ended, and what is known of that: what is wrong with the pqact.conf or the state; or, of a fault of the
/// store or of the launcher, the ident of the product in hand, if one was.
#[derive(Drop)]
pub(crate) struct Ended {
    pub(crate) end: PqactEnd,
    pub(crate) known: Reason,
}

impl Ended {
    // Nothing more is known.
    pub(crate) fn at(end: PqactEnd) -> Ended
        ensures { result.end ≡ end }
    {
        Ended {
            end,
            known: Reason::new(),
        }
    }
}

// How it ends, by how the gathering ended, why the handler stopped, and what the closing of the outputs answered.
pub(crate) fn end_by(end: GatherEnd, why: Option<ActStop>, closed: Done) -> PqactEnd
    requires { IfStopped end (IsSome why) }
    ensures { IsEndOf result end why closed }
{
    match end {
        GatherEnd::Received(RecvEnd::Ended) => {
            after_closing(PqactEnd::Received(RecvEnd::Ended), closed)
        }
        GatherEnd::Received(end) => PqactEnd::Received(end),
        GatherEnd::Enough => after_closing(PqactEnd::Enough, closed),
        GatherEnd::Stopped => match why {
            Some(why) => PqactEnd::Stopped(why),
            None => unreachable!(),
        },
    }
}

// An end at which all went well, but for what the closing of the outputs answered.
fn after_closing(end: PqactEnd, closed: Done) -> PqactEnd
    ensures { result ≡ after_closing end closed }
{
    match closed {
        Done::Ok => end,
        Done::StoreFault => PqactEnd::Stopped(ActStop::StoreFault),
        Done::LaunchFault => PqactEnd::Stopped(ActStop::LaunchFault),
    }
}

fn stop_status(why: ActStop) -> Option<Status>
    ensures { result ≡ stop_status why }
{
    match why {
        ActStop::StoreFault => Some(Status::StoreFault),
        ActStop::LaunchFault => Some(Status::ChildFault),
        ActStop::LogFault => None,
        ActStop::Worn => Some(Status::Worn),
        ActStop::OutOfMemory => Some(Status::NoMemory),
    }
}

// The status of an end. There is none where the log failed.
fn status_of(end: PqactEnd) -> Option<Status>
    ensures { result ≡ status_of end }
{
    match end {
        PqactEnd::NotTaken(why) => Some(status_of_entries(why)),
        PqactEnd::NotResumed(why) => Some(status_of_state(why)),
        PqactEnd::NotMade(fault) => Some(status_of_queue(fault)),
        PqactEnd::Unreached => Some(Status::NetFault),
        PqactEnd::Received(end) => status_of_receiving(end),
        PqactEnd::Enough => Some(Status::Done),
        PqactEnd::Stopped(why) => stop_status(why),
    }
}

// Puts the ident of the product in hand before what was said of a fault of the store or of the launcher, if something
// was.
fn put_product(reason: &mut Reason, status: &Status, ident: &[u8], said: &[u8]) {
    if let Status::StoreFault | Status::ChildFault = status {
        if !ident.is_empty() && !said.is_empty() {
            reason.put(ident);
            reason.put(b": ");
        }
    }
}

/// Writes the log line of an end, for the reason that is known or that the store, the net or the launcher gives, and
/// answers the number that the program ends with. Where the log failed there is no line.
pub(crate) fn report<E: Sink>(
    ended: Ended,
    store: &[u8],
    net: &[u8],
    launcher: &[u8],
    log: &mut E,
) -> u8
    requires store { IsReason store.now }
    requires net { IsReason net.now }
    requires launcher { IsReason launcher.now }
    ensures reports { ReportsIf (status_of ended.end) result (E.tells log.old) (E.tells log.new) }
    ensures faults_kept { (E.tells log.old).faults ≤ (E.tells log.new).faults }
{
    let Ended { end, known } = ended;
    match status_of(end) {
        Some(status) => {
            let said = status.reason_among(known.as_slice(), store, net, launcher);
            let mut reason = Reason::new();
            put_product(&mut reason, &status, known.as_slice(), said);
            reason.put(said);
            status.report_because(reason.as_slice(), log)
        }
        None => LOG_FAULT,
    }
}
