//! Why files were not put into a queue.
ghost use Rattle.std.specs.Prelude.{◌≡◌};
ghost use Rattle.ldm_tools.specs.Parts.{fault_of};

use crate::{NoReply, PutFault};

/// Why not all files were taken.
#[derive(Clone, Copy, Debug, PartialEq, Eq)]
pub enum InsertFault {
    /// No link was connected.
    Unreached,
    /// A file could not be read.
    StoreFault,
    /// There is no memory for a file, or for what a link needs.
    OutOfMemory,
    /// No answer to a PUT was heard.
    NoAnswer(NoReply),
    /// The node does not let the caller insert a product.
    Denied,
    /// The sink failed.
    SinkFault,
}

/// Why the run ends at a file that was sent.
pub(crate) fn fault_of(why: PutFault) -> InsertFault
    ensures { result ≡ fault_of why }
{
    match why {
        PutFault::NoAnswer(why) => InsertFault::NoAnswer(why),
        PutFault::Denied => InsertFault::Denied,
        PutFault::SinkFault => InsertFault::SinkFault,
    }
}
