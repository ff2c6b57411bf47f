//! The entries of pqact.conf: which products are acted on, and how.
#![tactic(auto)]

mod action;
mod entries;
mod entry;
mod fault;
mod fields;
mod lines;
mod options;
mod parse;
mod reader;
mod words;

pub use action::ActionKind;
pub use entries::Entries;
pub use entry::Entry;
pub use fault::{PqactFault, PqactKind};
pub use options::Options;
pub use reader::read_pqact;
pub use words::Word;
