//! The command `exercise`: a script that the command makes itself, played on a queue, and summed up in three lines.
//!
//! [`exercise`] draws the orders of the script from a number, plays them on a new queue, and writes how many answers
//! there are of each kind, and a digest of all. Its contract says how that ends.
#![tactic(auto)]

mod answers;
mod calls;
mod draws;
mod exercise_command;
mod laws;
mod order;
mod player;
mod playing;
mod statuses;
mod summary;
mod tally;

pub use exercise_command::exercise;
pub use laws::{first_draws, first_orders, openings_are_answered};
pub use order::MOST_DRAWN;
