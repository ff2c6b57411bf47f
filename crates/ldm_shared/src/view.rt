//! What a pass knows of the shared queue.

use ldm_model::Entry;
use std::collections::LinkedList;

/// What a pass knows of the shared queue. No value of it is made.
pub struct View {
    /// Bytes of the arena, product slots, and how many passes the queue was made with.
    pub arena: u64,
    pub slots: u32,
    pub passes: u32,
    /// The history that it has seen.
    pub seen: LinkedList<Entry>,
    /// Whether it has the turn.
    pub turn: bool,
    /// The actors that it answers for.
    pub actors: LinkedList<u32>,
    /// What was seen before it took another view in, which it has not compared yet.
    pub olds: LinkedList<Old>,
}

/// A history that was seen, and the actors that were answered for then. No value of it is made.
pub struct Old {
    pub actors: LinkedList<u32>,
    pub seen: LinkedList<Entry>,
}
