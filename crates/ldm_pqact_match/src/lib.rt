//! What pqact.conf does with a product: which entries act, and with which words.
#![tactic(auto)]

mod action;
mod choice;
mod chosen;
mod day;
mod decide;
mod forms;
mod law;
mod matching;
mod moment;
mod sources;
mod substitute;
mod text;

pub use action::Action;
pub use choice::choose;
pub use chosen::{Chosen, Decision};
pub use law::{no_date_is_no_day, worked_examples_of_days};
