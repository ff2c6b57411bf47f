//! Why acting on products stopped.
ghost use Rattle.std.specs.Prelude.{◌≢◌};
ghost use Rattle.ldm_pqact.specs.declared.end.ActEnd.TheVariants as act_end;
ghost use Rattle.ldm_pqact_command.specs.Stops.{IsStopOf};

use ldm_pqact::ActEnd;

/// Why acting on products stopped.
#[derive(Clone, Copy, Debug, PartialEq, Eq)]
pub enum ActStop {
    /// The store failed, and its count of faults rose.
    StoreFault,
    /// The launcher failed, and its count of faults rose.
    LaunchFault,
    /// The log failed, and its count of faults rose.
    LogFault,
    /// The queue has had all the calls that it can have.
    Worn,
    /// There is no memory.
    OutOfMemory,
}

// Why it stopped, if it did not come to the end of the queue.
pub(crate) fn stop_of(end: ActEnd) -> Option<ActStop>
    requires { end ≢ act_end.AllBusy }
    ensures { IsStopOf result end }
{
    match end {
        ActEnd::Stopped => None,
        ActEnd::StoreFault => Some(ActStop::StoreFault),
        ActEnd::LaunchFault => Some(ActStop::LaunchFault),
        ActEnd::LogFault => Some(ActStop::LogFault),
        ActEnd::AllBusy => unreachable!(),
        ActEnd::Worn => Some(ActStop::Worn),
        ActEnd::OutOfMemory => Some(ActStop::OutOfMemory),
    }
}
