//! The free regions of an arena, as a set of pairs of an extent and an offset, and a counter of steps.
#![tactic(auto)]

mod free_set;
mod node_table;
mod tree;

pub use free_set::FreeSet;
pub use node_table::Steps;
