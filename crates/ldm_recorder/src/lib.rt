//! What a node does with the journal of its queue.
//!
//! [`restore`] puts back what a [`Journal`](ldm_journal::Journal) keeps, before the node listens. A [`Recorder`] then
//! follows the queue and writes what is inserted into the journal; when the queue has ended, [`Recorder::finish`]
//! writes what is left. With the products it commits of each REQUEST [`Line`] which product it had last.
#![tactic(auto)]

mod end;
mod finish;
mod known;
mod laws;
mod line;
mod note;
mod record;
mod recorder;
mod restoring;
mod save;
mod take;
mod tell;
mod turn;
mod write;

pub use end::{RecordEnd, RestoreEnd};
pub use laws::{
    a_note_tells_of_each_line, all_is_committed_where_the_gate_is_asked,
    the_note_is_of_the_last_commit, what_is_left_is_recorded, what_was_given_stands,
};
pub use line::{Line, MOST_LINES};
pub use note::take_note;
pub use recorder::{Opened, Recorder};
pub use restoring::restore;
