//! Acting on products: what the entries of a pqact.conf choose for each product of a queue is done.
//!
//! [`Pqact`] keeps the entries and the outputs. [`Pqact::pending`] acts on every product of a cursor up to the end of
//! the queue. What that comes to, at each of its ends, is `ActsOn` in `specs/Acting.antt`.
#![tactic(auto)]

mod acting;
mod body;
mod carrier;
mod carry;
mod effect;
mod end;
mod handle;
mod holding;
mod limits;
mod notes;
mod pending;
mod pqact;
mod premises;
mod turn;
mod writer;

pub use acting::act;
pub use effect::output_of;
pub use end::ActEnd;
pub use limits::{EVERY_FEEDTYPE, LARGEST_PIECE};
pub use pqact::Pqact;
pub use premises::premises_are_met;
pub use writer::act_with;
