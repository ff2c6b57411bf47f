//! The nodes of a chain, and how it ends.
ghost use Rattle.std.specs.Prelude.{◌≡◌};
ghost use Rattle.ldm_chain.specs.Ending.{end_by};

use ldm_class::Class;
use ldm_intake::RecvEnd;
use ldm_shared::{Pass, Shared};
use ldm_upstream::FeedEnd;

/// A queue of a chain. Its shared queue was made with one pass, which is this one.
#[derive(Drop)]
pub struct ChainNode {
    pub shared: Shared,
    pub pass: Pass,
    /// What it asks of the node before it. That of the first node is not looked at.
    pub class: Class,
    /// The size of the largest product that is to come to it whole.
    pub max_hereis: u32,
}

/// How feeding a chain ends.
#[derive(Drop)]
pub enum ChainEnd {
    /// Each node was fed from the one before it.
    Done,
    /// The feeder of a node ended so: `OutOfMemory`; or `Worn`, of a queue that had nearly all its calls before.
    Feed(FeedEnd),
    /// The receiver of a node ended so: `Refused` with `Denied` or with `Busy`, or `BadFrame` by a pattern of a
    /// narrower class that means nothing.
    Receive(RecvEnd),
    /// There is no memory.
    OutOfMemory,
}

/// What ends a chain before each node was fed.
#[derive(Drop)]
pub(crate) enum Break {
    /// The feeder of a node ended so.
    Feed(FeedEnd),
    /// The receiver of a node ended so.
    Receive(RecvEnd),
    /// There is no memory.
    OutOfMemory,
}

/// How a chain ends that is broken so.
pub(crate) fn end_by(why: Break) -> ChainEnd
    ensures { result ≡ end_by why }
{
    match why {
        Break::Feed(end) => ChainEnd::Feed(end),
        Break::Receive(end) => ChainEnd::Receive(end),
        Break::OutOfMemory => ChainEnd::OutOfMemory,
    }
}
