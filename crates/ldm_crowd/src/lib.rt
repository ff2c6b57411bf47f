//! The command `crowd`: a script, played by as many workers as actors.
//!
//! [`crowd`] takes the script of its streams whole, has [`play_crowd`] play it on a shared queue, each actor on a
//! worker of its own, and writes the answers. Its contract says how that ends. [`Orders::read`] reads the script: what
//! each actor asks for. The contract of [`play_crowd`] says that all calls have one history, in which each actor makes
//! the calls of its lines in order, and which answers that gives.
#![tactic(auto)]

mod actor_lines;
mod crowd_command;
mod laws;
mod orders;
mod outcome;
mod player;
mod run;
mod statuses;
mod turns;

pub use crowd_command::crowd;
pub use laws::answers_are_of_a_history;
pub use orders::{Orders, OrdersFault};
pub use outcome::{Crowd, CrowdEnd};
pub use run::play_crowd;
