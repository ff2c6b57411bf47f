//! Why metadata could not be read.

use thiserror::Error;

/// What is wrong with bytes that were read as metadata: the fault of the first field that cannot be read.
///
/// Within a string the tests come in this order: its length is there, its length is within the limit, its
/// text with the padding is there, the text has no zero byte, the padding has no other byte.
#[derive(Clone, Copy, Debug, PartialEq, Eq, Error)]
pub enum XdrFault {
    /// The bytes end within the field that begins at this place.
    #[error("the field at byte {at} is cut short")]
    Short { at: usize },
    /// The length of the string at this place exceeds its limit: `LONGEST_ORIGIN` or `LONGEST_IDENT`.
    #[error("the text at byte {at} is too long")]
    TooLong { at: usize },
    /// A byte behind a text, at this place, is not zero (RFC 4506, section 3).
    #[error("the padding at byte {at} is not zero")]
    Padding { at: usize },
    /// The microseconds at this place are 1,000,000 or more.
    #[error("the microseconds at byte {at} are a second or more")]
    Micros { at: usize },
    /// A byte within a text, at this place, is zero.
    #[error("a zero byte in a text at byte {at}")]
    Nul { at: usize },
}
