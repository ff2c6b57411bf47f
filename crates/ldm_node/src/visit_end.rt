//! What a session leaves to be written when it is over.
ghost use Rattle.std.specs.Prelude.{◌≤◌, length};
ghost use Rattle.ldm_session.specs.declared.gaps.TheConstants.{LONGEST_NAME};
ghost use Rattle.ldm_node.specs.VisitSteps.{Finishes};

use crate::lines::write_session;
use crate::serving_end::{end_of_serving, stop_by};
use crate::stop::NodeStop;
use ldm_outside::Sink;
use ldm_serve::ServeEnd;

/// Writes the line of a session that ended so, unless its log failed. Answers why the worker stops, where it does.
pub fn finish<E: Sink>(log: &mut E, host: &[u8], end: &ServeEnd) -> Option<NodeStop>
    requires { length host.now ≤ LONGEST_NAME }
    ensures finishes { Finishes result end.now host.now (E.tells log.old) (E.tells log.new) }
    ensures faults_kept { (E.tells log.old).faults ≤ (E.tells log.new).faults }
{
    let stop = stop_by(end);
    if let Some(NodeStop::LogFault) = stop {
        return stop;
    }
    if write_session(log, host, end_of_serving(end)).is_err() {
        return Some(NodeStop::LogFault);
    }
    stop
}
