//! The example of ldm_exercise.

use ldm_exercise::exercise;
use ldm_outside_memory::{MemSink, MemSource};
use ldm_status::Streams;
use std::alloc::Global;

/// Draws a thousand orders from 7, and plays them.
pub fn thousand_orders(alloc: Global) -> u8 {
    let mut streams = Streams {
        source: MemSource::new(Vec::new(alloc), Vec::new(alloc)),
        sink: MemSink::new(alloc, Vec::new(alloc)),
        log: MemSink::new(alloc, Vec::new(alloc)),
    };
    exercise(alloc, 7, 1_000, &mut streams)
}
