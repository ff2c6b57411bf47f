//! Patterns that are searched for in hosts and idents.
//!
//! Patterns are those of the crate `regex` on bytes. Each is built once, where the text that has it is read.
#![tactic(auto)]

mod bounded;
mod groups;
mod matcher;
mod pattern;

pub use bounded::{BoundedMatcher, BoundedPattern};
pub use groups::{GroupNo, Groups};
pub use matcher::Matcher;
pub use pattern::{Pattern, Refusal};
