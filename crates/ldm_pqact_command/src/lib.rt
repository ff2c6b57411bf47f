//! `pqact`: asks a node for a class of products, and does with each what the entries of a pqact.conf choose.
#![tactic(auto)]

mod acter;
mod command;
mod end;
mod premises;
mod state;
mod stop;

pub use acter::Acter;
pub use command::{ActOrder, act_on_products, pqact};
pub use end::PqactEnd;
pub use premises::premises_are_met;
pub use state::{LONGEST_STATE, StateFiles, StateNotTaken};
pub use stop::ActStop;
