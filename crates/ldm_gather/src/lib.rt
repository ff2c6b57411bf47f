//! Receiving into a queue of one's own, and doing something with what is queued after each piece.
//!
//! A [`Gatherer`] is what tools have in common that receive: by an [`Order`] it makes a queue and opens a cursor,
//! connects, asks a peer for the products of a class, and gives the link back. After each piece that came a
//! [`Handler`], which the caller writes, handles what is queued by then. [`gather_each`] has a handler of its own: it
//! hands each product that the cursor gives to a [`Taker`], up to a count.
#![tactic(auto)]

mod body;
mod cat;
mod cat_end;
mod cat_limits;
mod collect;
mod command;
mod course;
mod each;
mod each_end;
mod end;
mod gatherer;
mod handler;
mod limits;
mod order;
mod statuses;
mod taker;
mod turn;

pub use cat::Cat;
pub use cat_limits::LARGEST_PIECE;
pub use collect::{Collected, gather_each};
pub use command::{cat_products, pqcat};
pub use each_end::EachEnd;
pub use end::{GatherEnd, Handled};
pub use gatherer::Gatherer;
pub use handler::Handler;
pub use limits::{ARENA, EVERY_FEEDTYPE, LARGEST_HEREIS, PASSES, SLOTS};
pub use order::{Asking, Order};
pub use statuses::{status_of_queue, status_of_receiving};
pub use taker::{EachStop, Taken, Taker};
