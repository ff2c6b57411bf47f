//! The feeder: the end of a session that was asked for products, and feeds them.
//!
//! [`feed`] answers a request and feeds a connection; [`feed_behind`] does where bytes came already behind the request.
//! What a feeding is stands in `specs/`, as plain data: see `Feeding`; and what the call says at each of its ends: see
//! `Feeds`. [`is_due`] tells which products are due, [`feeds_of`] and [`start_at`] where the cursor begins.
#![tactic(auto)]

mod announcing;
mod asking;
mod body;
mod course;
mod examples;
mod feeder;
mod feeding;
mod give;
mod handle;
mod laws;
mod lent;
mod offer;
mod one_turn;
mod session;

pub use examples::worked_examples;
pub use feeding::{feed, feed_behind};
pub use laws::answered_feedings_are_completed;
pub use ldm_sender::{SendEnd as FeedEnd, feeds_of, is_due, start_at};
