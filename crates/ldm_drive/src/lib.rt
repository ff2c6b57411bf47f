//! What the driver programs share: they read cases from standard input, a line each, and answer each case in a line.
//!
//! A case is words with one blank between two: the name of what is asked, and its fields. A line that begins with `#`
//! is a comment. Comments and empty lines are copied, so that the answers read beside the cases.
//!
//! What is long stands in a file of the crate's `data/`, in lines that are read one behind another. A word that ends in
//! `@NAME` ends in the text of that file. `as NAME CASE` is answered by `as NAME` where the file has the answer.
#![tactic(auto)]

mod bytes;
mod draws;
mod fields;
mod files;
mod lines;
mod links;
mod programs;
mod spelling;
mod streams;
mod trial;
mod waits;
mod words;

pub use draws::Draws;
pub use fields::{feed_in, plain_info, signature, spec_in};
pub use files::{append, read, rewrite, turns};
pub use lines::drive;
pub use links::{listen, tell_got, tell_put};
pub use programs::{detach, shut, start, start_beside, write};
pub use spelling::tell_spelled;
pub use streams::{reads, wholes, writes};
pub use trial::Trial;
pub use waits::{ask, idle, tell_go};
pub use words::{
    bytes_in, copied, extend, numbers, numbers_in, push, tell_bytes, tell_count, tell_fault,
    tell_number, tell_word, text_copied, text_or_bytes,
};
