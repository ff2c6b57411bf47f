//! The lines of a script as calls of a queue.
//!
//! [`Caller`] makes the calls of a queue, whoever that is: an actor calls a `Book`. A [`Room`] answers what a line asks
//! for, and has all memory that this takes.
#![tactic(auto)]

mod caller;
mod on_book;
mod room;

pub use caller::{Caller, Unmade};
pub use room::Room;
