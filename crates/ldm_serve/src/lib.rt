//! Serving one connection: its calls are read one behind the other and answered, until one of them makes it something
//! else or ends it.
//!
//! [`respond`] answers one call, [`serve`] a connection.
#![tactic(auto)]

mod answers;
mod asking;
mod client;
mod connection;
mod end;
mod examples;
mod front;
mod going_on;
mod hiya;
mod keeping;
mod laws;
mod put;
mod qstat;
mod reading;
mod refusing;
mod responded;
mod responding;
mod response_laws;
mod saying;
mod serving;
mod taking;

pub use connection::serve;
pub use end::ServeEnd;
pub use examples::worked_examples;
pub use hiya::MAX_HEREIS;
pub use laws::{lawful_connections_are_served, serving_keeps_the_rules};
pub use responded::{RespondFault, Responded};
pub use responding::respond;
pub use response_laws::rules_are_kept;
