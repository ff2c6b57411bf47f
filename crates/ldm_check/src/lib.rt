//! `ldm check`: every fault of configuration files, not the first alone, and warnings.
#![tactic(auto)]

mod command;
mod conf_file;
mod laws;
mod lines;
mod looking;
mod patterns;
mod pqact_file;
mod programs;
mod said;
mod source;
mod warning;
mod warnings;

pub use command::{CheckAsked, FAULTY, check};
pub use laws::{faults_are_those_of_reading, warnings_are_no_faults};
