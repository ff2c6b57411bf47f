//! What the queue is, as definitions that contracts cite, and the events and replies that they speak of.
//!
//! The definitions stand in `specs/`: products, states, gaps and the best fit, eviction, insertion, cursors with
//! opening, stepping, reading, releasing and closing, looking, expiring, counting, reservations with reserving,
//! filling, committing and discarding, one event and legal histories, and the laws that every history obeys. `Event`,
//! `Reply` and `Entry` are types of the definitions: no running call makes a value of them. What a call of a queue
//! answers has a type of its own, and `specs/Answers.antt` says which reply it is.
#![tactic(auto)]

mod bytes;
mod commits;
mod event;
mod examples;
mod laws;
mod numbers;
mod possible;
mod premises;
mod replies;
mod reserving;
mod stat;

pub use bytes::Bytes;
pub use commits::worked_examples_of_commits;
pub use event::{Entry, Event, Reply, Start};
pub use examples::{worked_example_of_the_law, worked_examples, worked_examples_of_cursors};
pub use laws::{
    admissions_are_numbered, every_reader_is_served, evictions_make_room, held_products_are_queued,
    histories_append, histories_are_lawful, products_were_admitted, regions_lie_apart,
    reservations_are_filled, signatures_differ, times_rise,
};
pub use numbers::ReserveNo;
pub use possible::{
    actor_is_possible, bytes_are_possible, commit_is_possible, feed_is_possible, fill_is_possible,
    info_is_possible, insert_is_possible, place_is_possible, reservation_is_possible,
    signature_is_possible, start_is_possible,
};
pub use premises::premises_are_met;
pub use replies::{
    CloseReply, CommitReply, DiscardReply, ExpireReply, FillReply, InsertReply, LookReply,
    OpenReply, ReadReply, ReleaseReply, ReserveReply, StepReply, TallyReply,
};
pub use reserving::worked_examples_of_reservations;
pub use stat::Stat;
