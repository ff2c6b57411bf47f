//! A product as a journal gives it.

use ldm_types::{Info, Micros};

/// A product that a journal keeps. Its body is in the buffer that its record was read into.
#[derive(Debug, Drop)]
pub struct Entry {
    pub number: u64,
    /// When it was inserted.
    pub time: Micros,
    pub info: Info,
    /// Where its body begins in the buffer. It has as many bytes as the metadata say.
    pub body_at: usize,
}
