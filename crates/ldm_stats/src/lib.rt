//! Hourly totals of products.
#![tactic(auto)]

mod hour;
mod kept;
mod law;
mod line;
mod place;
mod stats;
mod total;

pub use hour::hour_text;
pub use law::{report_is_its_hours, worked_examples};
pub use place::LAST_HOUR;
pub use stats::{MOST_HOURS, Stats};
