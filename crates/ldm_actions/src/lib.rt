//! What actions do to files and programs: a product's body is written at the end of a file, or given to a program that
//! runs on, or a program is started.
//!
//! What stands after an action, by what stood before it, is a definition: `specs/Effects.antt`. What may stand where
//! one fails is `specs/Parts.antt`.
#![tactic(auto)]

mod action;
mod answers;
mod examples;
mod hand;
mod laws;
mod limits;
mod open_files;
mod options;
mod outputs;
mod program;
mod programs;
mod recent;
mod steps;
mod stripping;
mod writing;

pub use action::Action;
pub use answers::{Begun, Done, Fault};
pub use examples::{worked_examples_of_files, worked_examples_of_programs};
pub use laws::{few_files_are_open, few_run_under_pipe, one_child_for_one_command, pieces_join};
pub use limits::{MOST_OPEN, MOST_PIPED};
pub use options::{FileOptions, PipeOptions};
pub use outputs::Outputs;
pub use program::Program;
pub use writing::{append_all, feed_all};
