//! Which of many stops is told.
ghost use Rattle.std.specs.Prelude.{◌≡◌};
ghost use Rattle.ldm_node.specs.Stops.{or_stop};

use crate::stop::NodeStop;

/// This stop, or the later one where this worker was done.
pub(crate) fn or_stop(stop: NodeStop, later: NodeStop) -> NodeStop
    ensures { result ≡ or_stop stop later }
{
    match stop {
        NodeStop::Done => later,
        _ => stop,
    }
}
