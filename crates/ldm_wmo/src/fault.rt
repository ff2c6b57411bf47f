//! Why a bulletin is not written.

use thiserror::Error;

/// Why a bulletin is not written. The faults are tested in this order.
#[derive(Clone, Copy, Debug, PartialEq, Eq, Error)]
pub enum WriteFault {
    /// The number is above 99,999.
    #[error("the number is above 99,999")]
    Seqno,
    /// The heading is none.
    #[error("no heading")]
    Heading,
    /// The text has a byte 1 or 3.
    #[error("the text has a byte 1 or 3")]
    Text,
    /// The bulletin would have more than 1,048,576 bytes.
    #[error("the bulletin is too long")]
    Long,
    /// There is too little memory.
    #[error("no memory")]
    OutOfMemory,
}
