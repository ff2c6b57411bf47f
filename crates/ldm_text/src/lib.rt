//! Blanks, lines and words of text files.
#![tactic(auto)]

mod limits;
mod lines;
mod scan;
mod words;

pub use limits::LONGEST_CONFIGURATION;
pub use lines::first_line;
pub use scan::{begins_with, count_blanks, is_blank, is_blank_text, place_of, place_of_blank};
pub use words::{Comments, first_word, to_word};
