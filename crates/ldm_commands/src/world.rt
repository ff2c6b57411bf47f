//! Everything outside the program.

use ldm_status::Streams;

/// What the program is lent: the streams of every command, and what only some commands use.
#[derive(Drop)]
pub struct World<S, K, E, C, F, L, N, D> {
    /// Where input comes from, and where output and log lines go.
    pub streams: Streams<S, K, E>,
    /// The time: a [`Clock`](ldm_outside::Clock).
    pub clock: C,
    /// Files: a [`Store`](ldm_outside::Store).
    pub store: F,
    /// Programs: a [`Launcher`](ldm_outside::Launcher).
    pub launcher: L,
    /// Other nodes, and the stations and the desk of this one: [`Desks`](ldm_disk::Desks).
    pub net: N,
    /// The file of a queue: a [`Disk`](ldm_disk::Disk).
    pub disk: D,
    /// A number that no stranger knows, for the tables of a node's queue. No clause speaks of it.
    pub secret: u64,
}
