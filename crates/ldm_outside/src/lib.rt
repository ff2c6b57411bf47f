//! The outside of the program as traits, so that contracts can speak of what went in and out, and the forms of these
//! traits that need no outside: the gate that never stops, the sink that
//! takes all.
//!
//! An object of the outside counts its faults. The count never falls, and a call answers `Failed` only where
//! it rose. For contracts each object tells one record: its counts, and what it has left or took, which only the forms
//! in memory know. Lemmas on these records stand in the proof module `CallerLemmas`.
#![tactic(auto)]

mod clock;
mod dial;
mod door;
mod fault;
mod gate;
mod io;
mod launcher;
mod link;
mod net;
mod open_gate;
mod reason;
mod reason_text;
mod rests;
mod store;
mod sure;

pub use clock::Clock;
pub use dial::{Dial, Dialled};
pub use door::{Came, Door, LONGEST_HOST};
pub use fault::Failed;
pub use gate::{Gate, GateCall, Go};
pub use io::{Got, Put, Sink, SinkFailed, Source, write_all};
pub use launcher::{ChildNo, Launcher};
pub use link::{Awaited, Link, LinkFailed, Passed, Way, send_all};
pub use net::{Manned, Net, Station};
pub use open_gate::OpenGate;
pub use reason::{LONGEST_REASON, Reasons};
pub use reason_text::Reason;
pub use rests::Rests;
pub use store::{FileNo, FileRead, Store};
pub use sure::SureSink;
