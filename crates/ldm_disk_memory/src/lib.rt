//! A disk in memory, which tells what a crash may leave of its file, and a net in memory that hands out desks: for tests,
//! drivers and examples.
#![tactic(auto)]

mod examples;
mod mem_disk;
mod mem_file;
mod mem_site;
mod schedule;

pub use examples::worked_examples;
pub use mem_disk::MemDisk;
pub use mem_file::MemFile;
pub use mem_site::{DeskScript, MemDesk, MemSite};
pub use schedule::DiskCall;
