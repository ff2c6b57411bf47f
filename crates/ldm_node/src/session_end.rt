//! The ends of sessions, as log lines name them.
ghost use Rattle.std.specs.Prelude.{◌≡◌, ◌≤◌, length};
ghost use Rattle.ldm_node.specs.SessionEnds.{end_name, end_of_receiving};

use ldm_intake::RecvEnd;

/// How a session ended, of either kind, without what the end carries besides.
#[derive(Clone, Copy, Debug, PartialEq, Eq)]
pub enum SessionEnd {
    /// The peer ended the stream where it may end.
    Ended,
    /// The peer ended the stream elsewhere.
    Truncated,
    /// A record was not lawful.
    BadFrame,
    /// The peer declined the request.
    Refused,
    /// The link failed.
    LinkFault,
    /// The log failed.
    LogFault,
    /// As many bytes came as are taken of a stream.
    StreamLimit,
    /// The queue has had all its calls.
    Worn,
    /// There was no memory.
    OutOfMemory,
    /// The gate said to stop.
    Stopped,
    /// A part of the class was left to the peer.
    Reclassed,
    /// Nothing of what the peer asked is allowed to it.
    Denied,
    /// All cursors were taken.
    AllBusy,
    /// A reply was awaited, and the peer sent no more.
    PeerEnd,
    /// A reply was awaited, and something else came.
    BadReply,
}

// The longest name of an end, in bytes.
pub(crate) const LONGEST_END: usize = 11;

impl SessionEnd {
    /// The end of a session that received.
    pub fn of_receiving(end: &RecvEnd) -> SessionEnd
        ensures { result ≡ end_of_receiving end.now }
    {
        match end {
            RecvEnd::Ended => SessionEnd::Ended,
            RecvEnd::Truncated { .. } => SessionEnd::Truncated,
            RecvEnd::BadFrame { .. } => SessionEnd::BadFrame,
            RecvEnd::Refused { .. } => SessionEnd::Refused,
            RecvEnd::LinkFault => SessionEnd::LinkFault,
            RecvEnd::LogFault => SessionEnd::LogFault,
            RecvEnd::StreamLimit => SessionEnd::StreamLimit,
            RecvEnd::Worn => SessionEnd::Worn,
            RecvEnd::OutOfMemory => SessionEnd::OutOfMemory,
        }
    }

    /// Its name in a log line: the words of the end joined, in lower-case letters.
    pub fn name(self) -> &'static [u8]
        ensures name { result.now ≡ end_name self }
        ensures short { length result.now ≤ LONGEST_END }
    {
        match self {
            SessionEnd::Ended => b"ended",
            SessionEnd::Truncated => b"truncated",
            SessionEnd::BadFrame => b"badframe",
            SessionEnd::Refused => b"refused",
            SessionEnd::LinkFault => b"linkfault",
            SessionEnd::LogFault => b"logfault",
            SessionEnd::StreamLimit => b"streamlimit",
            SessionEnd::Worn => b"worn",
            SessionEnd::OutOfMemory => b"outofmemory",
            SessionEnd::Stopped => b"stopped",
            SessionEnd::Reclassed => b"reclassed",
            SessionEnd::Denied => b"denied",
            SessionEnd::AllBusy => b"allbusy",
            SessionEnd::PeerEnd => b"peerend",
            SessionEnd::BadReply => b"badreply",
        }
    }
}
