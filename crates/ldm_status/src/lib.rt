//! What all commands of the program share: the streams that a command is lent, and the statuses that it ends with.
//!
//! A command turns its own end into a [`Status`], and [`Status::report`] writes the log line and gives the number. No
//! end of a command is named here. [`take_script`] takes a script whole, for a command that looks at no line before.
#![tactic(auto)]

mod laws;
mod status;
mod streams;
mod whole_script;

pub use laws::reasons_come_first;
pub use status::{LOG_FAULT, Status};
pub use streams::{PIECE, Streams};
pub use whole_script::{LONGEST_SCRIPT, ScriptFault, take_script};
