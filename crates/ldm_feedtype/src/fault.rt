//! Why a text is no feed expression.

use thiserror::Error;

/// Why a text is no feed expression: the first fault from the left, with its place, counted in bytes from 0.
#[derive(Clone, Copy, Debug, PartialEq, Eq, Error)]
pub enum FeedFault {
    /// No feedtype has the name that begins there.
    #[error("an unknown feedtype at {at}")]
    Unknown { at: usize },
    /// The byte there cannot continue an expression, or the text ends there too early.
    #[error("no feed expression from {at} on")]
    Syntax { at: usize },
    /// The parenthesis there would be one more than [`MOST_OPEN`](crate::MOST_OPEN) that are open at once.
    #[error("more than 64 open parentheses at {at}")]
    Deep { at: usize },
    /// The number that begins there exceeds 2^32 - 1.
    #[error("a number above 4294967295 at {at}")]
    Range { at: usize },
}
