//! Bulletins in a stream of bytes (WMO No. 386, Manual on the Global Telecommunication System, attachments II-5 and
//! II-15).
//!
//! A bulletin is a starting line with its number, an abbreviated heading, a text and an end.
#![tactic(auto)]

mod bulletin;
mod command;
mod course;
mod examples;
mod fault;
mod frame;
mod frame_examples;
mod framing;
mod heading;
mod ingest_examples;
mod ingest_fault;
mod ingest_laws;
mod ingest_lines;
mod ingestion;
mod item;
mod kind;
mod laws;
mod lines;
mod metadata;
mod outcome;
mod scanner;
mod stage;
mod statuses;
mod streaming;
mod taking;
mod write;

pub use command::ingest;
pub use examples::worked_examples;
pub use fault::WriteFault;
pub use frame_examples::worked_examples_of_frames;
pub use framing::Framing;
pub use heading::LONGEST_HEADING;
pub use ingest_examples::worked_examples_of_ingesting;
pub use ingest_fault::IngestFault;
pub use ingest_laws::{what_is_signed, what_is_told_of_bulletins};
pub use ingestion::Ingestion;
pub use item::Item;
pub use kind::Kind;
pub use laws::{
    bulletins_are_read, frames_are_read, pieces_join, pushes_scan_the_stream, streams_are_read,
    written_bulletins_are_found,
};
pub use outcome::Outcome;
pub use scanner::Scanner;
pub use stage::LARGEST_BULLETIN;
pub use statuses::BAD_BULLETIN;
pub use write::{LARGEST_SEQNO, write_bulletin};
