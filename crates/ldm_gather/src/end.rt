//! How a gathering ends.

use ldm_intake::RecvEnd;

/// What a handler answers.
#[derive(Clone, Copy, Debug, PartialEq, Eq)]
pub enum Handled {
    /// It handled all that is queued, and goes on.
    On,
    /// It has enough.
    Enough,
    /// Something stopped it, and it knows what.
    Stopped,
}

/// How a gathering ends.
#[derive(Drop)]
pub enum GatherEnd {
    /// By the receiving.
    Received(RecvEnd),
    /// The handler has enough.
    Enough,
    /// Something stopped the handler.
    Stopped,
}
