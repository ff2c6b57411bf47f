//! The statuses of the ends of a play.
ghost use Rattle.std.specs.Prelude.{◌≡◌};
ghost use Rattle.ldm_play.specs.Statuses.{status_of_play, status_of_fault};

use crate::play_command::ScriptEnd;
use crate::player::LineFault;
use ldm_book::CreateFault;
use ldm_status::Status;

impl From<LineFault> for Status {
    ghost use Rattle.ldm_play.specs.Statuses.{status_of_stop};

    ghost from_gives = { λ stop status. status ≡ status_of_stop stop };

    fn from(stop: LineFault) -> Status {
        match stop {
            LineFault::BadLine { line, column } => Status::BadLine { line, column },
            LineFault::SinkFault => Status::SinkFault,
        }
    }
}

impl From<ScriptEnd> for Status {
    ghost use Rattle.ldm_play.specs.Statuses.{status_of_script};

    ghost from_gives = { λ ending status. status ≡ status_of_script ending };

    fn from(ending: ScriptEnd) -> Status {
        match ending {
            ScriptEnd::Done => Status::Done,
            ScriptEnd::StreamLimit => Status::StreamLimit,
            ScriptEnd::SourceFault => Status::SourceFault,
            ScriptEnd::Stopped(stop) => Status::from(stop),
        }
    }
}

// The status where no queue was made.
fn not_made(fault: CreateFault) -> Status
    ensures { result ≡ status_of_fault fault }
{
    match fault {
        CreateFault::BadArena { arena } => Status::RefusedArena(arena),
        CreateFault::BadSlots { slots } => Status::RefusedSlots(slots),
        CreateFault::OutOfMemory => Status::NoMemory,
    }
}

/// The status of how a play ended.
pub fn status_of(ending: Result<ScriptEnd, CreateFault>) -> Status
    ensures { result ≡ status_of_play ending }
{
    match ending {
        Ok(ending) => Status::from(ending),
        Err(fault) => not_made(fault),
    }
}
