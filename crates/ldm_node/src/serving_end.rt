//! How a session ended that was served.
ghost use Rattle.std.specs.Prelude.{◌≡◌};
ghost use Rattle.ldm_notify.specs.Notifies.{send_end};
ghost use Rattle.ldm_node.specs.ServingEnds.{end_of_sending, end_of_serving, stop_by, stop_of_sending};

use crate::session_end::SessionEnd;
use crate::stop::{NodeStop, stop_of_receiving};
use ldm_notify::NoteEnd;
use ldm_sender::SendEnd;
use ldm_serve::ServeEnd;

/// The end of a session that was served: where the connection became a feeding, a receiving or a session of notices,
/// the end of that.
pub fn end_of_serving(end: &ServeEnd) -> SessionEnd
    ensures { result ≡ end_of_serving end.now }
{
    match end {
        ServeEnd::Feed(why) => end_of_feeding(*why),
        ServeEnd::Receive(why) => SessionEnd::of_receiving(why),
        ServeEnd::Notify(why) => end_of_notifying(*why),
        ServeEnd::Ended => SessionEnd::Ended,
        ServeEnd::Truncated { .. } => SessionEnd::Truncated,
        ServeEnd::BadFrame { .. } => SessionEnd::BadFrame,
        ServeEnd::Denied { .. } => SessionEnd::Denied,
        ServeEnd::LinkFault => SessionEnd::LinkFault,
        ServeEnd::StreamLimit => SessionEnd::StreamLimit,
        ServeEnd::Worn => SessionEnd::Worn,
        ServeEnd::OutOfMemory => SessionEnd::OutOfMemory,
    }
}

fn end_of_feeding(end: SendEnd) -> SessionEnd
    ensures { result ≡ end_of_sending end }
{
    match end {
        SendEnd::Stopped => SessionEnd::Stopped,
        SendEnd::Reclassed => SessionEnd::Reclassed,
        SendEnd::Denied { .. } => SessionEnd::Denied,
        SendEnd::PeerEnd { .. } => SessionEnd::PeerEnd,
        SendEnd::LinkFault => SessionEnd::LinkFault,
        SendEnd::LogFault => SessionEnd::LogFault,
        SendEnd::BadReply { .. } => SessionEnd::BadReply,
        SendEnd::AllBusy => SessionEnd::AllBusy,
        SendEnd::Worn => SessionEnd::Worn,
        SendEnd::OutOfMemory => SessionEnd::OutOfMemory,
    }
}

fn end_of_notifying(end: NoteEnd) -> SessionEnd
    ensures { result ≡ end_of_sending (send_end end) }
{
    match end {
        NoteEnd::Stopped => SessionEnd::Stopped,
        NoteEnd::Reclassed => SessionEnd::Reclassed,
        NoteEnd::Denied { .. } => SessionEnd::Denied,
        NoteEnd::LinkFault => SessionEnd::LinkFault,
        NoteEnd::LogFault => SessionEnd::LogFault,
        NoteEnd::AllBusy => SessionEnd::AllBusy,
        NoteEnd::Worn => SessionEnd::Worn,
        NoteEnd::OutOfMemory => SessionEnd::OutOfMemory,
    }
}

/// Why the worker stops by the end of a session, where it does.
pub(crate) fn stop_by(end: &ServeEnd) -> Option<NodeStop>
    ensures { result ≡ stop_by end.now }
{
    match end {
        ServeEnd::Feed(why) => stop_of_feeding(*why),
        ServeEnd::Receive(why) => stop_of_receiving(why),
        ServeEnd::Notify(why) => stop_of_notifying(*why),
        ServeEnd::Worn => Some(NodeStop::Worn),
        _ => None,
    }
}

fn stop_of_feeding(end: SendEnd) -> Option<NodeStop>
    ensures { result ≡ stop_of_sending end }
{
    match end {
        SendEnd::Stopped => Some(NodeStop::Done),
        SendEnd::LogFault => Some(NodeStop::LogFault),
        SendEnd::Worn => Some(NodeStop::Worn),
        _ => None,
    }
}

fn stop_of_notifying(end: NoteEnd) -> Option<NodeStop>
    ensures { result ≡ stop_of_sending (send_end end) }
{
    match end {
        NoteEnd::Stopped => Some(NodeStop::Done),
        NoteEnd::LogFault => Some(NodeStop::LogFault),
        NoteEnd::Worn => Some(NodeStop::Worn),
        _ => None,
    }
}
