//! Tools that ask a node over a link.
#![tactic(auto)]

mod every;
mod examples;
mod fault;
mod insert;
mod insert_statuses;
mod insertion;
mod laws;
mod limits;
mod lines;
mod metadata;
mod mon;
mod no_reply;
mod put_fault;
mod puts;
mod reader;
mod replies;
mod statuses;
mod taking;
mod telling;

pub use every::pqmon_every;
pub use examples::worked_examples;
pub use fault::InsertFault;
pub use insert::pqinsert;
pub use insertion::Insertion;
pub use laws::what_is_told_of_files;
pub use limits::LARGEST_FILE;
pub use mon::{MonFault, pqmon};
pub use no_reply::NoReply;
pub use put_fault::PutFault;
pub use puts::Puts;
pub use statuses::{status_of_no_reply, status_of_put_fault};
pub use telling::put_product;
