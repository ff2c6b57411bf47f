//! What the records of a stream do to a receiving and to the queue: the definition of receiving, and what code needs of
//! it.
#![tactic(auto)]

mod announced;
mod answered;
mod blocks;
mod end;
mod examples;
mod fronts;
mod intake;
mod messages;
mod moves;
mod notes;
mod phase;
mod reading;
mod record_end;
mod replies;
mod room;
mod wanting;

pub use end::RecvEnd;
pub use examples::worked_examples;
pub use intake::Intake;
pub use notes::{LONGEST_NOTE, note_commit, note_insert, note_reserve, put_refused, put_unwanted};
pub use phase::{Pending, Phase};
pub use reading::read_answer;
pub use record_end::{AnswerEnd, MessageEnd};
pub use replies::{SOON_REPLY, put_feedme, put_soon};
pub use wanting::Wanted;
