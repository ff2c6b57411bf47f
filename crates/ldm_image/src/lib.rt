//! The image of a queue: a file that keeps one, which is saved and opened.
//!
//! `specs/Image.antt` says what the image of a queue is, and `specs/Fault.antt` which field of a file keeps it from
//! being one. [`save_image`] and [`open_image`] go through a [`Disk`](ldm_disk::Disk), and their contracts speak of
//! what a crash leaves at each of its moments.
#![tactic(auto)]

mod body;
mod examples;
mod gate;
mod open;
mod reading;
mod rows;
mod save;
mod sizes;

pub use examples::worked_examples;
pub use open::{ImageFault, open_image};
pub use save::{SaveEnd, save_image};
