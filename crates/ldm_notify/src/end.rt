//! How a session of notices ends.
ghost use Rattle.std.specs.Prelude.{◌≡◌};
ghost use Rattle.ldm_sender.specs.Ending.{AwaitsNone};
ghost use Rattle.ldm_notify.specs.Notifies.{send_end};

use ldm_sender::SendEnd;

/// How a session of notices ends.
#[derive(Clone, Copy, Debug, PartialEq, Eq)]
pub enum NoteEnd {
    /// The cursor came to the end of the queue, and the gate said to stop. The link is closed.
    Stopped,
    /// A part of the class is left to the host, and it was told which.
    Reclassed,
    /// Nothing of the class is left to the host.
    Denied {
        /// The number of the first ALLOW rule that is about the host, or 0 where there is none.
        rule: u64,
    },
    /// The link failed, and its count of faults rose.
    LinkFault,
    /// The log failed, and its count of faults rose.
    LogFault,
    /// All cursors are taken.
    AllBusy,
    /// The queue has had all the calls that it can have.
    Worn,
    /// There is no memory.
    OutOfMemory,
}

// The end of a session that awaits no reply.
pub(crate) fn notify_end(end: SendEnd) -> NoteEnd
    requires { AwaitsNone end }
    ensures { send_end result ≡ end }
{
    match end {
        SendEnd::Stopped => NoteEnd::Stopped,
        SendEnd::Reclassed => NoteEnd::Reclassed,
        SendEnd::Denied { rule } => NoteEnd::Denied { rule },
        SendEnd::LinkFault => NoteEnd::LinkFault,
        SendEnd::LogFault => NoteEnd::LogFault,
        SendEnd::AllBusy => NoteEnd::AllBusy,
        SendEnd::Worn => NoteEnd::Worn,
        SendEnd::OutOfMemory => NoteEnd::OutOfMemory,
        SendEnd::PeerEnd { .. } | SendEnd::BadReply { .. } => unreachable!(),
    }
}
