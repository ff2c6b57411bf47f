//! The example of ldm_crowd.

use ldm_crowd::crowd;
use ldm_outside_memory::{MemSink, MemSource};
use ldm_status::Streams;
use std::alloc::Global;
use std::sync::Wait;
use std::thread::Threads;

/// Plays an empty script of two actors.
pub fn empty_script<H: Threads + Wait + Sync>(rt: &H, alloc: Global) -> u8 {
    let mut streams = Streams {
        source: MemSource::new(Vec::new(alloc), Vec::new(alloc)),
        sink: MemSink::new(alloc, Vec::new(alloc)),
        log: MemSink::new(alloc, Vec::new(alloc)),
    };
    crowd(rt, alloc, 168, 10, 2, &mut streams)
}
