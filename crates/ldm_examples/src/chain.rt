//! The example of ldm_chain.

ghost use Rattle.std.specs.Prelude.{◌≤◌, length};
ghost use Rattle.std.specs.List.{AllByRecursion};
ghost use Rattle.ldm_chain.specs.Queues.{IsForAllTimes};

use ldm_chain::{ChainSetup, run_chain};
use ldm_class::Class;
use ldm_outside_memory::{MemClock, MemSink, MemSource, MemStore};
use ldm_status::Streams;
use std::alloc::Global;
use std::sync::Wait;

/// Feeds a node for each class from an empty script.
pub fn empty_chain<H: Wait>(
    rt: &H,
    alloc: Global,
    classes: Vec<Class>,
    clock: &mut MemClock,
    store: &mut MemStore,
) -> u8
    requires times { AllByRecursion IsForAllTimes classes.items }
    requires few { length classes.items ≤ 7 }
{
    let setup = ChainSetup {
        conf: None,
        arena: 168,
        slots: 10,
        max_hereis: 16384,
        classes,
    };
    let mut streams = Streams {
        source: MemSource::new(Vec::new(alloc), Vec::new(alloc)),
        sink: MemSink::new(alloc, Vec::new(alloc)),
        log: MemSink::new(alloc, Vec::new(alloc)),
    };
    run_chain(rt, alloc, setup, &mut streams, clock, store)
}
