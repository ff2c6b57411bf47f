//! The example of ldm_commands.

use ldm_commands::{World, run_ldm};
use ldm_disk_memory::{MemDisk, MemSite};
use ldm_outside_memory::{MemClock, MemDial, MemLauncher, MemNet, MemSink, MemSource, MemStore};
use ldm_status::Streams;
use std::alloc::Global;
use std::sync::Wait;
use std::thread::Threads;

/// Does what the words ask for, over an empty script, in a world without files, programs and other nodes.
pub fn run_alone<H: Threads + Wait + Sync>(rt: &H, alloc: Global, words: &[String]) -> u8 {
    let mut world = World {
        streams: Streams {
            source: MemSource::new(Vec::new(alloc), Vec::new(alloc)),
            sink: MemSink::new(alloc, Vec::new(alloc)),
            log: MemSink::new(alloc, Vec::new(alloc)),
        },
        clock: MemClock::new(Vec::new(alloc)),
        store: MemStore::new(alloc, Vec::new(alloc), Vec::new(alloc)),
        launcher: MemLauncher::new(alloc, Vec::new(alloc), Vec::new(alloc)),
        net: MemSite::new(
            MemNet::new(
                alloc,
                MemDial::new(alloc, Vec::new(alloc), Vec::new(alloc)),
                Vec::new(alloc),
            ),
            None,
        ),
        disk: MemDisk::new(alloc, Vec::new(alloc), Vec::new(alloc)),
        secret: 0,
    };
    run_ldm(rt, alloc, words, &mut world)
}
