//! What the statements of the other crates take for granted: the number of each limit, and that premises can be met.
//!
//! No program stands on this crate. [`limits_are`] has each constant that a clause or a definition names, with its
//! number. [`premises_are_met`] has a play, a crowd, a chain and a node that nothing hinders. [`choices_are_made`] says
//! what rules, classes, entries and days of the month come to for a few lines.
#![tactic(auto)]

mod choices;
mod limits;
mod premises;

pub use choices::choices_are_made;
pub use limits::limits_are;
pub use premises::premises_are_met;
