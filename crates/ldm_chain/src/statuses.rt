//! The statuses of the ends of a chain.
ghost use Rattle.std.specs.Prelude.{◌≡◌};
ghost use Rattle.ldm_chain.specs.Statuses.{status_of_chain, status_of_end, status_of_fed};
ghost use Rattle.ldm_chain.specs.Statuses.{status_of_received, status_of_stop};

use crate::fault::ChainFault;
use crate::node::ChainEnd;
use ldm_command_files::status_of_conf;
use ldm_intake::RecvEnd;
use ldm_status::Status;
use ldm_upstream::FeedEnd;

/// The status of how a chain ended.
pub fn status_of(ending: Result<(), ChainFault>) -> Status
    ensures { result ≡ status_of_chain ending }
{
    match ending {
        Ok(()) => Status::Done,
        Err(why) => stopped(why),
    }
}

// The status of why a chain stopped.
fn stopped(why: ChainFault) -> Status
    ensures { result ≡ status_of_stop why }
{
    match why {
        ChainFault::BadArena { arena } => Status::RefusedArena(arena),
        ChainFault::BadSlots { slots } => Status::RefusedSlots(slots),
        ChainFault::ConfNotTaken(why) => status_of_conf(why),
        ChainFault::ScriptFault(why) => Status::from(why),
        ChainFault::BadLine { line, column } => Status::BadLine { line, column },
        ChainFault::NotFed(end) => not_fed(end),
        ChainFault::SinkFault => Status::SinkFault,
        ChainFault::OutOfMemory => Status::NoMemory,
    }
}

// The status where not each node was fed.
fn not_fed(end: ChainEnd) -> Status
    ensures { result ≡ status_of_end end }
{
    match end {
        ChainEnd::Done => Status::Done,
        ChainEnd::Feed(end) => fed(end),
        ChainEnd::Receive(end) => received(end),
        ChainEnd::OutOfMemory => Status::NoMemory,
    }
}

// The status where the feeder of a node ended so.
fn fed(end: FeedEnd) -> Status
    ensures { result ≡ status_of_fed end }
{
    match end {
        FeedEnd::Worn => Status::Worn,
        FeedEnd::OutOfMemory => Status::NoMemory,
        FeedEnd::Denied { .. } => Status::Denied,
        FeedEnd::PeerEnd { at } | FeedEnd::BadReply { at } => Status::BadFrame { at },
        _ => Status::NetFault,
    }
}

// The status where the receiver of a node ended so.
fn received(end: RecvEnd) -> Status
    ensures { result ≡ status_of_received end }
{
    match end {
        RecvEnd::Worn => Status::Worn,
        RecvEnd::OutOfMemory => Status::NoMemory,
        RecvEnd::Refused { .. } => Status::Denied,
        RecvEnd::BadFrame { at } | RecvEnd::Truncated { at } => Status::BadFrame { at },
        RecvEnd::StreamLimit => Status::StreamLimit,
        _ => Status::NetFault,
    }
}
