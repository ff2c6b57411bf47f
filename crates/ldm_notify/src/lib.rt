//! One who tells of products: the end of a session that was asked for notices (NOTIFYME), and sends one for each
//! product that is due.
//!
//! [`notify`] answers a request and tells of products; [`notify_asked`] does where the class is not built yet. What a
//! session of notices is stands in `specs/`, as plain data: see `Notifying`; and what the call says at each of its
//! ends: see `Notifies`.
#![tactic(auto)]

mod asking;
mod course;
mod end;
mod examples;
mod handle;
mod laws;
mod notice;
mod notifier;
mod notifying;
mod one_turn;
mod telling;

pub use end::NoteEnd;
pub use examples::worked_examples;
pub use laws::notices_are_completed;
pub use notifying::{notify, notify_asked};
