//! Which slot of a queue holds the product of a signature.
#![tactic(auto)]

mod entries;
mod index;

pub use index::SigIndex;
