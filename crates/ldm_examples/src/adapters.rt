//! The example of ldm_adapters.

use ldm_adapters::RealStore;
use ldm_outside::{FileRead, Store};
use std::rt::HostRuntime;

pub fn read_configuration(rt: HostRuntime) -> FileRead {
    let mut store = RealStore::new(rt);
    store.read_file(rt.alloc(), "ldmd.conf", 1_048_576)
}
