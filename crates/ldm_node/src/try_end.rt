//! What the end of a session says to the worker.
ghost use Rattle.std.specs.Prelude.{◌≡◌, ◌≤◌, length};
ghost use Rattle.ldm_conf.specs.declared.limits.TheConstants.{LONGEST_HOST_NAME};
ghost use Rattle.ldm_node.specs.TrySteps.{Finishes, is_log_fault};

use crate::lines::write_session;
use crate::session_end::SessionEnd;
use crate::stop::{NodeStop, stop_of_receiving};
use ldm_intake::RecvEnd;
use ldm_outside::Sink;

fn is_log_fault(end: &RecvEnd) -> bool
    ensures { result ≡ is_log_fault end.now }
{
    matches!(end, RecvEnd::LogFault)
}

/// Writes the line of a session that ended so, unless its log failed. Answers why the worker stops, where it does.
pub fn finish<E: Sink>(log: &mut E, host: &[u8], end: &RecvEnd) -> Option<NodeStop>
    requires { length host.now ≤ LONGEST_HOST_NAME }
    ensures finishes { Finishes result end.now host.now (E.tells log.old) (E.tells log.new) }
    ensures faults_kept { (E.tells log.old).faults ≤ (E.tells log.new).faults }
{
    if is_log_fault(end) {
        return Some(NodeStop::LogFault);
    }
    if write_session(log, host, SessionEnd::of_receiving(end)).is_err() {
        return Some(NodeStop::LogFault);
    }
    stop_of_receiving(end)
}
