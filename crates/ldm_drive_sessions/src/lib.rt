//! What the drivers of sessions share: the words of a case, the queue, the rules and the outside that a case says, and
//! what a session left as words of an answer.
#![tactic(auto)]

mod case;
mod cursors;
mod gates;
mod items;
mod outside;
mod telling;

pub use case::Case;
pub use cursors::{open_all, tell_cursor};
pub use gates::BusyGate;
pub use items::{Item, hold_some, insert_all, reserve_all, tell_queue};
pub use outside::{clock_of, conf_of, link_of, link_script, log_of, policy_of, queue_of};
pub use telling::{tell_answer, tell_log, tell_place, tell_sent};
