//! The cursors of a queue: where each reader is, what it holds, and which losses it was not told yet.
#![tactic(auto)]

mod cursor;
mod cursors;
mod marks;

pub use cursors::Cursors;
