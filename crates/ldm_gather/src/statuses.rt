//! The statuses that tools have in common that receive.
ghost use Rattle.std.specs.Prelude.{◌≡◌};
ghost use Rattle.ldm_gather.specs.Statuses.{status_of_queue, status_of_receiving};

use ldm_intake::RecvEnd;
use ldm_shared::CreateFault;
use ldm_status::Status;

/// The status of an end of the receiving. There is none where the log failed.
pub fn status_of_receiving(end: RecvEnd) -> Option<Status>
    ensures { result ≡ status_of_receiving end }
{
    match end {
        RecvEnd::Ended => Some(Status::Done),
        RecvEnd::Truncated { at } => Some(Status::BadFrame { at }),
        RecvEnd::BadFrame { at } => Some(Status::BadFrame { at }),
        RecvEnd::Refused { .. } => Some(Status::Denied),
        RecvEnd::LinkFault => Some(Status::NetFault),
        RecvEnd::LogFault => None,
        RecvEnd::StreamLimit => Some(Status::StreamLimit),
        RecvEnd::Worn => Some(Status::Worn),
        RecvEnd::OutOfMemory => Some(Status::NoMemory),
    }
}

/// The status where no queue was made.
pub fn status_of_queue(fault: CreateFault) -> Status
    ensures { result ≡ status_of_queue fault }
{
    match fault {
        CreateFault::BadArena { arena } => Status::RefusedArena(arena),
        CreateFault::BadSlots { slots } => Status::RefusedSlots(slots),
        CreateFault::BadPasses { passes } => Status::RefusedPasses(passes),
        CreateFault::OutOfMemory => Status::NoMemory,
    }
}
