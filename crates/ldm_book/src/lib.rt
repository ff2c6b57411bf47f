//! The queue of one thread.
//!
//! Contracts see a [`Book`] as its view, and say of each call: whatever state the book stands for before, the
//! reply is that of the queue, and the book stands for the state that follows. A refusal changes nothing. All
//! calls but `create` take no memory.
#![tactic(auto)]

mod book;
mod fault;
mod laws;
mod products;
mod reservations;
mod restoring;
mod row;
mod spans;
mod stored;

pub use book::Book;
pub use fault::{CreateFault, RestoreFault, RowFault};
pub use laws::{closing_reopens, fifo, filled, runs_are_legal};
pub use ldm_model::{
    CloseReply, CommitReply, DiscardReply, ExpireReply, FillReply, InsertReply, LookReply,
    OpenReply, ReadReply, ReleaseReply, ReserveNo, ReserveReply, Stat, StepReply, TallyReply,
};
pub use restoring::{RowNote, Stored};
