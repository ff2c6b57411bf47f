//! What joins the two ends of a feeding: laws over plain data, of which no clause of one end can speak.
//!
//! [`products_are_passed_on`] says what a receiver takes of what a feeder owes, [`cut_sessions_resume`] what comes of
//! sessions that are cut and resumed, and [`a_sole_reader_is_given_all`] what a feeding gives that reads a queue which
//! nobody else calls meanwhile.
#![tactic(auto)]

mod alone;
mod alone_examples;
mod few_calls;
mod meeting_examples;
mod meeting_laws;
mod one_pass;
mod passing_examples;
mod passing_laws;
mod reading;
mod resuming_examples;
mod resuming_laws;

pub use alone::{a_sole_reader_is_given_all, due_products_are_offered};
pub use alone_examples::worked_examples_of_a_sole_reader;
pub use few_calls::few_calls_are_made;
pub use meeting_examples::a_connection_can_be;
pub use meeting_laws::two_ends_make_a_session;
pub use one_pass::one_pass_is_fed_all;
pub use passing_examples::worked_examples_of_passing;
pub use passing_laws::{
    a_feeding_is_heard_so_far, a_narrower_class_is_asked_for, a_queue_is_passed_on,
    a_reply_is_taken, announcements_are_answered, products_are_passed_on, the_setting_is_met,
};
pub use reading::{feedings_only_read, readers_keep_products};
pub use resuming_examples::{worked_example_of_resuming, worked_examples_of_resuming};
pub use resuming_laws::{cut_sessions_resume, feedings_have_lives};
