//! The example of ldm_play.

use ldm_outside_memory::{MemSink, MemSource};
use ldm_play::play;
use ldm_status::Streams;
use std::alloc::Global;

/// Plays an empty script on a queue with an arena of 168 bytes and 10 slots.
pub fn empty_script(alloc: Global) -> u8 {
    let mut streams = Streams {
        source: MemSource::new(Vec::new(alloc), Vec::new(alloc)),
        sink: MemSink::new(alloc, Vec::new(alloc)),
        log: MemSink::new(alloc, Vec::new(alloc)),
    };
    play(alloc, 168, 10, &mut streams)
}
