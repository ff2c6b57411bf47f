//! The statuses of the ends of `pqinsert`.
ghost use Rattle.std.specs.Prelude.{◌≡◌};
ghost use Rattle.ldm_tools.specs.Inserts.{status_of};

use crate::fault::InsertFault;
use crate::status_of_no_reply;
use ldm_status::Status;

/// The status of how inserting ended: with all files taken, and whether some file was refused, or with a fault.
pub(crate) fn status_of(ending: Result<bool, InsertFault>) -> Status
    ensures { result ≡ status_of ending }
{
    match ending {
        Ok(false) => Status::Done,
        Ok(true) => Status::Refused,
        Err(InsertFault::Unreached) => Status::NetFault,
        Err(InsertFault::StoreFault) => Status::StoreFault,
        Err(InsertFault::OutOfMemory) => Status::NoMemory,
        Err(InsertFault::NoAnswer(why)) => status_of_no_reply(why),
        Err(InsertFault::Denied) => Status::Denied,
        Err(InsertFault::SinkFault) => Status::SinkFault,
    }
}
