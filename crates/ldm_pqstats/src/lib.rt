//! `pqstats`: asks a node for a class of products, and writes how many came for each hour, feed and origin.
#![tactic(auto)]

mod asked;
mod command;
mod counter;
mod end;
mod examples;
mod hour;
mod limits;
mod report;
mod sending;

pub use asked::StatsAsked;
pub use command::pqstats;
pub use counter::{CountStop, Counter};
pub use end::{ReportFault, SendFault, StatsEnd};
pub use examples::worked_examples;
pub use limits::{EXP, LARGEST_BODY, MOST_PRODUCTS};
