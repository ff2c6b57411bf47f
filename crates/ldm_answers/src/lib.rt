//! Answer lines, and the texts and numbers that lines have.
//!
//! [`write_answer`] writes an answer of the queue as a line, and [`text_into`] the spelling of an origin or an ident;
//! [`put`] and [`put_number`] make other short lines. [`read_number`] and [`read_text`] read what fields of a line spell.
//! Contracts see an answer as a reply of the model of the queue.
//!
//! No call takes memory.
#![tactic(auto)]

mod answer;
mod number;
mod put_fields;
mod texts;

pub use answer::{
    Answer, LONGEST_ANSWER, LONGEST_READ, Text, text_into, write_answer, write_insert_reply,
    write_reply,
};
pub use number::{read_number, read_number_below};
pub use put_fields::{
    put_blank, put_blank_number, put_blank_text, put_feed, put_four_bytes, put_info, put_instant,
    put_product_fields, put_signature,
};
pub use texts::{Spelled, put, put_number, read_text, spell};
