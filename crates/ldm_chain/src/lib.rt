//! Queues that are fed one from the other in one process, and the command `chain`.
//!
//! [`chain`] feeds each node from the one before it (`chaining`, `feeding`). [`Mirror`] is a link that owns the
//! receiver of the next queue: what it is sent is pushed into the receiver, and what the receiver replies is what it
//! gives.
//!
//! [`run_chain`] plays a script on a book (`playing`), puts what is queued then into the queue of the first node of a
//! chain (`putting`), has `chain` feed the others, and writes what stands in their queues (`texts`). Its contract says
//! how that ends.
#![tactic(auto)]

mod chain_command;
mod chaining;
mod command_laws;
mod fault;
mod feeding;
mod laws;
mod mirror;
mod node;
mod nodes;
mod outside;
mod playing;
mod policy;
mod putting;
mod setup;
mod statuses;
mod texts;
mod told;
mod writable;

pub use chain_command::run_chain;
pub use chaining::chain;
pub use command_laws::queues_are_of_histories;
pub use laws::{a_break_has_a_cause, a_link_passes_on};
pub use mirror::{Begun, Lent, Mirror, Returned};
pub use node::{ChainEnd, ChainNode};
pub use setup::{ChainSetup, LARGEST_CHAIN_ARENA};
