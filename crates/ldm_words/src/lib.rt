//! The words of the commands that take options, most of them read by `clap`: each function reads the words behind the
//! name of its command.
//!
//! Words that are no form of a command are [`WordsFault::Usage`], and [`why_usage`] says what is wrong with them.
#![tactic(auto)]

mod act;
mod cat;
mod chain;
mod check;
mod command;
mod examples;
mod fault;
mod file;
mod insert;
mod limits;
mod mon;
mod node;
mod notices;
mod receiving;
mod said;
mod stats;
mod usage;
mod values;
mod wmo;

pub use act::read_pqact;
pub use cat::read_pqcat;
pub use chain::read_chain;
pub use check::{CheckWords, read_check};
pub use examples::{
    worked_examples_of_chain, worked_examples_of_classes, worked_examples_of_files,
    worked_examples_of_node, worked_examples_of_notifyme, worked_examples_of_pqinsert,
    worked_examples_of_pqmon, worked_examples_of_pqstats, worked_examples_of_wmo,
};
pub use fault::WordsFault;
pub use file::{read_file, read_save};
pub use insert::read_pqinsert;
pub use limits::{MOST_CLASSES, MOST_HOURS};
pub use mon::read_pqmon;
pub use node::read_node;
pub use notices::read_notifyme;
pub use said::{
    ActWords, CatWords, ChainWords, InsertWords, MonWords, NodeWords, NoticesWords, SaveWords,
    StatsWords, WmoWords,
};
pub use stats::read_pqstats;
pub use usage::why_usage;
pub use wmo::read_wmo;
