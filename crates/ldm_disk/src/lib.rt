//! Files that keep what was written through a crash: the trait [`Disk`]; and the nets that hand out a [`Desk`] with a
//! disk.
//!
//! A [`Disk`] has one file, which is read and written at places. Until a sync, a crash may leave any bytes where
//! something was written, and the old length or the new one. Contracts speak of the files that a crash may leave at
//! each moment, during a call too: see `specs/Model.antt` and `specs/Moments.antt`.
#![tactic(auto)]

mod desk;
mod disk;
mod laws;

pub use desk::{Desk, Desks, Furnished};
pub use disk::Disk;
pub use laws::{crashes_add_up, crashes_keep, worked_examples};
