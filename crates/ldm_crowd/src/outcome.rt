//! What a crowd leaves.
ghost use Rattle.std.specs.Prelude.{◌≡◌};
ghost use Rattle.ldm_crowd.specs.Ends.{or_end};

use ldm_book::Book;
use ldm_shared::Pass;

/// How a crowd ended. Where workers ended in different ways, it is the end of the first actor that did not play all its
/// lines.
#[derive(Clone, Copy, Debug, PartialEq, Eq)]
pub enum CrowdEnd {
    /// All lines were played.
    Done,
    /// A gate stopped.
    Stopped,
    /// The queue has had all the calls that it can have.
    Worn,
    /// There is no memory.
    OutOfMemory,
}

/// What a crowd leaves.
#[derive(Drop)]
pub struct Crowd<G> {
    /// The queue, after all calls.
    pub book: Book,
    /// The pass that has seen all calls.
    pub pass: Pass,
    /// The gates that were handed in, in order.
    pub gates: Vec<G>,
    /// For each actor, in order, a line for each line that it played: the actor, a blank, and the answer line with its
    /// newline.
    pub answers: Vec<Vec<u8>>,
    /// How it ended.
    pub end: CrowdEnd,
}

impl CrowdEnd {
    /// This end, or the later one where all lines were played.
    pub(crate) fn or(self, later: CrowdEnd) -> CrowdEnd
        ensures { result ≡ or_end self later }
    {
        match self {
            CrowdEnd::Done => later,
            _ => self,
        }
    }
}
