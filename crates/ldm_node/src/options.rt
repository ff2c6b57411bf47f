//! What a node is told, and what it leaves.

use crate::clerk::Recorded;
use crate::stop::NodeStop;
use ldm_book::Book;
use ldm_outside::Station;
use ldm_shared::Pass;

/// What a node is told besides its configuration.
#[derive(Clone, Copy, Debug, PartialEq, Eq)]
pub struct NodeOptions {
    /// The port where it lets peers in.
    pub port: u16,
    /// How many workers let peers in.
    pub workers: u32,
    /// After how many sessions such a worker is done.
    pub sessions: u32,
    /// After how many idle calls the gate of a worker stops it, if it ever does.
    pub idles: Option<u32>,
}

/// What a node leaves.
#[derive(Drop)]
pub struct NodeEnd<F, D, I, E, C, G> {
    /// The queue, after all calls.
    pub book: Book,
    /// The pass that has seen all calls.
    pub pass: Pass,
    /// The stations that the net gave, in order, as their workers left them.
    pub stations: Vec<Station<D, I, E, C, G>>,
    /// What recording left, where there was a clerk.
    pub recorded: Option<Recorded<F, E, C, G>>,
    /// Why the node ended: why the first worker of a station stopped that was not done. [`NodeStop::OutOfMemory`] is
    /// besides the answer where there was no memory for the workers, of which none began then.
    pub end: NodeStop,
}
