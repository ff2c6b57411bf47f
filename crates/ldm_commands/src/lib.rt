//! The words of the program, and what they ask for.
//!
//! [`run_ldm`] reads the words as a command and calls the public function of that command. Its contract says how that
//! ends, by cases on the words.
#![tactic(auto)]

mod chain;
mod command;
mod files;
mod node;
mod run;
mod saving;
mod tools;
mod usage;
mod world;

pub use run::run_ldm;
pub use world::World;
