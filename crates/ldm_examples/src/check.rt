//! The example of ldm_check.

use ldm_check::{CheckAsked, check};
use ldm_outside_memory::{MemSink, MemStore};
use std::alloc::Global;

/// Whether an ldmd.conf and a pqact.conf have a fault: 65, where no store fails and there is memory; else 0.
pub fn check_both(alloc: Global, store: &mut MemStore, sink: &mut MemSink) -> u8 {
    let asked = CheckAsked {
        confs: &["ldmd.conf"],
        pqacts: &["pqact.conf"],
    };
    let mut log = MemSink::new(alloc, Vec::new(alloc));
    check(alloc, asked, store, sink, &mut log)
}
