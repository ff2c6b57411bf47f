//! Why a worker of a node stops.
ghost use Rattle.std.specs.Prelude.{◌≡◌};
ghost use Rattle.ldm_node.specs.SessionEnds.{stop_of_receiving};

use ldm_intake::RecvEnd;

/// Why a worker of a node stops.
#[derive(Clone, Copy, Debug, PartialEq, Eq)]
pub enum NodeStop {
    /// It was told to stop, or has done all that it was to do.
    Done,
    /// Its door failed, and the count of faults rose.
    NetFault,
    /// Its log failed, and the count of faults rose.
    LogFault,
    /// The queue has had all the calls that it can have.
    Worn,
    /// There is no memory.
    OutOfMemory,
}

/// Why the worker stops by the end of a session that received, where it does.
pub(crate) fn stop_of_receiving(end: &RecvEnd) -> Option<NodeStop>
    ensures { result ≡ stop_of_receiving end.now }
{
    match end {
        RecvEnd::LogFault => Some(NodeStop::LogFault),
        RecvEnd::Worn => Some(NodeStop::Worn),
        _ => None,
    }
}
