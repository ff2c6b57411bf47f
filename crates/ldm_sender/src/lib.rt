//! What the sending ends of a session have in common: the feeder, which gives the products that are due, and one who
//! tells of them.
//!
//! [`is_due`] tells which products these are. A request is answered by [`decline`], or by [`open_for`], which opens a
//! cursor for it, and [`answer_class`]. Where a session stands between two messages is a [`Standing`], which
//! [`count_call`] moves on; at the end of the queue [`wait_idle`] asks the gate and says that the session is there
//! where nothing was sent for long. What these come to is told as plain data: see `Deeds`, `Does` and `Acts` in
//! `specs/`.
#![tactic(auto)]

mod answer;
mod declining;
mod due;
mod end;
mod idle;
mod opening;
mod standing;

pub use answer::{answer_class, open_for};
pub use declining::decline;
pub use due::is_due;
pub use end::SendEnd;
pub use idle::wait_idle;
pub use opening::{feeds_of, start_at};
pub use standing::{Standing, count_call};
