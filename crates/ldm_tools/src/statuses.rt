//! The statuses of the ends of the tools.
ghost use Rattle.std.specs.Prelude.{◌≡◌};
ghost use Rattle.ldm_tools.specs.Mon.{status_of_mon, status_of_no_reply};
ghost use Rattle.ldm_tools.specs.Telling.{status_of_put_fault};

use crate::mon::MonFault;
use crate::no_reply::NoReply;
use crate::put_fault::PutFault;
use ldm_status::Status;

/// The status where a reply was not heard.
pub fn status_of_no_reply(why: NoReply) -> Status
    ensures { result ≡ status_of_no_reply why }
{
    match why {
        NoReply::BadFrame { at } => Status::BadFrame { at },
        NoReply::StreamLimit => Status::StreamLimit,
        NoReply::LinkFault => Status::NetFault,
        NoReply::OutOfMemory => Status::NoMemory,
    }
}

/// The status where a product was not put, or the line of the answer not written.
pub fn status_of_put_fault(why: PutFault) -> Status
    ensures { result ≡ status_of_put_fault why }
{
    match why {
        PutFault::NoAnswer(why) => status_of_no_reply(why),
        PutFault::Denied => Status::Denied,
        PutFault::SinkFault => Status::SinkFault,
    }
}

/// The status of how `pqmon` ended.
pub(crate) fn status_of_mon(ending: Result<(), MonFault>) -> Status
    ensures { result ≡ status_of_mon ending }
{
    match ending {
        Ok(()) => Status::Done,
        Err(MonFault::Unreached) => Status::NetFault,
        Err(MonFault::NoStat(why)) => status_of_no_reply(why),
        Err(MonFault::Denied) => Status::Denied,
        Err(MonFault::SinkFault) => Status::SinkFault,
    }
}
