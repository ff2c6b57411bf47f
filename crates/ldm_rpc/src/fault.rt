//! Why a stream of records is read no further.

use thiserror::Error;

/// Why no more of a stream is read. It stays the answer from then on.
#[derive(Clone, Copy, Debug, PartialEq, Eq, Error)]
pub enum RpcFault {
    /// The content of a record would exceed the limit. This is told at the header that announces it.
    #[error("a record exceeds the limit at its byte {at}")]
    TooLong {
        /// The bytes of this record before that header, headers included, or 2^64 - 1 where they are more.
        at: u64,
    },
    /// There is too little memory for the content.
    #[error("no memory")]
    OutOfMemory,
}
