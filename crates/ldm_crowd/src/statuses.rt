//! The statuses of the ends of a crowd.
ghost use Rattle.std.specs.Prelude.{◌≡◌};
ghost use Rattle.ldm_crowd.specs.Statuses.{status_of_crowd, status_of_fault};

use crate::crowd_command::{CrowdFault, PlayFault};
use ldm_shared::CreateFault;
use ldm_status::Status;

impl From<PlayFault> for Status {
    ghost use Rattle.ldm_crowd.specs.Statuses.{status_of_unplayed};

    ghost from_gives = { λ why status. status ≡ status_of_unplayed why };

    fn from(why: PlayFault) -> Status {
        match why {
            PlayFault::BadLine { line, column } => Status::BadLine {
                line: u64::from(line),
                column,
            },
            PlayFault::OutOfMemory => Status::NoMemory,
        }
    }
}

impl From<CrowdFault> for Status {
    ghost use Rattle.ldm_crowd.specs.Statuses.{status_of_crowd_stop};

    ghost from_gives = { λ stop status. status ≡ status_of_crowd_stop stop };

    fn from(stop: CrowdFault) -> Status {
        match stop {
            CrowdFault::NotMade(fault) => not_made(fault),
            CrowdFault::ScriptFault(why) => Status::from(why),
            CrowdFault::PlayFault(why) => Status::from(why),
            CrowdFault::SinkFault => Status::SinkFault,
        }
    }
}

// The status where no queue was made.
fn not_made(fault: CreateFault) -> Status
    ensures { result ≡ status_of_fault fault }
{
    match fault {
        CreateFault::BadArena { arena } => Status::RefusedArena(arena),
        CreateFault::BadSlots { slots } => Status::RefusedSlots(slots),
        CreateFault::BadPasses { passes } => Status::RefusedPasses(passes),
        CreateFault::OutOfMemory => Status::NoMemory,
    }
}

/// The status of how a crowd ended.
pub fn status_of(ending: Result<(), CrowdFault>) -> Status
    ensures { result ≡ status_of_crowd ending }
{
    match ending {
        Ok(()) => Status::Done,
        Err(stop) => Status::from(stop),
    }
}
