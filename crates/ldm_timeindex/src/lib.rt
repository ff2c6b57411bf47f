//! The products of a queue by their number and by the instant at which they came in.
#![tactic(auto)]

mod bound;
mod entry;
mod ring;
mod time_index;

pub use time_index::TimeIndex;
