//! The configuration files that a command of the program reads, each under its path in a store.
#![tactic(auto)]

mod conf_file;
mod included;
mod pqact_file;
mod telling;

pub use conf_file::{ConfNotTaken, status_of_conf, take_conf, take_conf_because};
pub use pqact_file::{EntriesNotTaken, status_of_entries, take_entries};
pub use telling::{words_of_conf, words_of_pqact};
