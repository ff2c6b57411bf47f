//! How a receiving ends.

use ldm_relay::ClassAnswer;

/// How a receiving ends.
#[derive(Drop)]
pub enum RecvEnd {
    /// The stream ended behind a record, with no product pending and no answer to a request owed.
    Ended,
    /// The stream ended elsewhere, after `at` bytes.
    Truncated { at: u64 },
    /// The record that begins at byte `at` of the stream is not lawful there.
    BadFrame { at: u64 },
    /// The peer answered this to the request.
    Refused { answer: ClassAnswer },
    /// The link failed, and its count of faults rose.
    LinkFault,
    /// The log failed, and its count of faults rose.
    LogFault,
    /// As many bytes came as a receiver takes.
    StreamLimit,
    /// The queue has had all the calls that it can have.
    Worn,
    /// There is no memory.
    OutOfMemory,
}
