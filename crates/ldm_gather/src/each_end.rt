//! How handing products to a taker ends.
ghost use Rattle.std.specs.Prelude.{IsSome};
ghost use Rattle.ldm_gather.specs.EachEnds.{IfStopped, IsEndOf};

use crate::end::GatherEnd;
use crate::taker::EachStop;
use ldm_intake::RecvEnd;
use ldm_shared::CreateFault;

/// How handing products to a taker ends.
#[derive(Drop)]
pub enum EachEnd {
    /// No queue was made, or there was no memory to begin.
    NotMade(CreateFault),
    /// No link was connected.
    Unreached,
    /// The receiving ended so, and all that was queued by then was taken.
    Received(RecvEnd),
    /// As many products were taken as were to be.
    Enough,
    /// It stopped.
    Stopped(EachStop),
}

// How it ends, by how the gathering ended, if a link was connected, and why the handler stopped.
pub(crate) fn ended(end: Option<GatherEnd>, why: Option<EachStop>) -> EachEnd
    requires { IfStopped end (IsSome why) }
    ensures { IsEndOf result end why }
{
    match end {
        None => EachEnd::Unreached,
        Some(GatherEnd::Received(end)) => EachEnd::Received(end),
        Some(GatherEnd::Enough) => EachEnd::Enough,
        Some(GatherEnd::Stopped) => match why {
            Some(why) => EachEnd::Stopped(why),
            None => unreachable!(),
        },
    }
}
