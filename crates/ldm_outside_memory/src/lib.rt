//! The outside in memory: forms of the traits of `ldm_outside` for tests, drivers and examples.
//!
//! Calls of a form are numbered from 1, and exactly those of the numbers in a list fail. What a form has left or took it
//! tells whole, where the real ones tell nothing.
#![tactic(auto)]

mod calls;
mod mem_clock;
mod mem_dial;
mod mem_door;
mod mem_gate;
mod mem_launcher;
mod mem_lending;
mod mem_link;
mod mem_net;
mod mem_store;
mod memory;
mod sure_source;

pub use mem_clock::MemClock;
pub use mem_dial::{DialCall, MemDial};
pub use mem_door::{MemDoor, MemPeer};
pub use mem_gate::MemGate;
pub use mem_launcher::{MemChild, MemLauncher};
pub use mem_link::{LinkScript, MemLink};
pub use mem_net::{MemNet, MemStation, StationScript, StationsCall};
pub use mem_store::{MemFile, MemPath, MemStore};
pub use memory::{MemSink, MemSource};
pub use sure_source::SureSource;
