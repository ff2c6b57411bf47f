//! How acting on products ends.
ghost use Rattle.std.specs.Prelude.{◌≡◌};
ghost use Rattle.ldm_pqact.specs.Handling.{begun_result, done_result};

use ldm_actions::{Begun, Done};
use ldm_outside::SinkFailed;
use ldm_types::OutOfMemory;
use std::alloc::AllocError;

/// How acting on products ends.
#[derive(Clone, Copy, Debug, PartialEq, Eq)]
pub enum ActEnd {
    /// The cursor came to the end of the queue.
    Stopped,
    /// The store failed, and its count of faults rose; or it failed in an earlier call.
    StoreFault,
    /// The launcher failed, and its count of faults rose; or it failed in an earlier call.
    LaunchFault,
    /// The log failed, and its count of faults rose.
    LogFault,
    /// All cursors are taken.
    AllBusy,
    /// The queue has had all the calls that it can have.
    Worn,
    /// There is no memory.
    OutOfMemory,
}

impl From<OutOfMemory> for ActEnd {
    ghost use Rattle.std.specs.Prelude.{◌≡◌};
    ghost use Rattle.ldm_pqact.specs.declared.end.ActEnd.TheVariants as end;

    ghost from_gives = { λ _ result. result ≡ end.OutOfMemory };

    fn from(_error: OutOfMemory) -> ActEnd {
        ActEnd::OutOfMemory
    }
}

impl From<SinkFailed> for ActEnd {
    ghost use Rattle.std.specs.Prelude.{◌≡◌};
    ghost use Rattle.ldm_pqact.specs.declared.end.ActEnd.TheVariants as end;

    ghost from_gives = { λ _ result. result ≡ end.LogFault };

    fn from(_error: SinkFailed) -> ActEnd {
        ActEnd::LogFault
    }
}

// What the beginning of an action came to.
pub(crate) fn begun(begun: Begun) -> Result<(), ActEnd>
    ensures { result ≡ begun_result begun }
{
    match begun {
        Begun::Ready => Ok(()),
        Begun::StoreFault => Err(ActEnd::StoreFault),
        Begun::LaunchFault => Err(ActEnd::LaunchFault),
        Begun::OutOfMemory => Err(ActEnd::OutOfMemory),
    }
}

// What a further call came to.
pub(crate) fn done(done: Done) -> Result<(), ActEnd>
    ensures { result ≡ done_result done }
{
    match done {
        Done::Ok => Ok(()),
        Done::StoreFault => Err(ActEnd::StoreFault),
        Done::LaunchFault => Err(ActEnd::LaunchFault),
    }
}
