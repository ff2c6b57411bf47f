//! The journal of a queue: a file of fixed size that keeps the newest products, whatever a crash does.
//!
//! `specs/Format.antt` says which products a file keeps. [`Journal`] goes through a [`Disk`](ldm_disk::Disk), and its
//! contracts speak of what a crash leaves at each of its moments.
#![tactic(auto)]

mod append;
mod commit;
mod entry;
mod fault;
mod journal;
mod laws;
mod make;
mod marks;
mod next;
mod open;
mod places;
mod push;
mod read;
mod reader;
mod record;

pub use append::AppendEnd;
pub use commit::CommitEnd;
pub use entry::Entry;
pub use fault::JournalFault;
pub use journal::Journal;
pub use laws::{
    a_crash_leaves_a_part, a_file_keeps_one_list, calls_make_events, marks_count_records,
    the_fewest_are_dropped,
};
pub use places::NOTE;
pub use reader::Reader;
pub use record::record_bytes;
