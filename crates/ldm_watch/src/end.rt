//! How a watching ends.

use ldm_relay::ClassAnswer;

/// How a watching ends.
#[derive(Drop)]
pub enum WatchEnd {
    /// The stream ended behind a record, with no answer to a request owed.
    Ended,
    /// As many products were told of as were asked for.
    Counted,
    /// The stream ended elsewhere, after `at` bytes.
    Truncated { at: u64 },
    /// The record that begins at byte `at` of the stream is not lawful there.
    BadFrame { at: u64 },
    /// The peer answered this to the request.
    Refused { answer: ClassAnswer },
    /// The link failed, and its count of faults rose.
    LinkFault,
    /// The sink of the lines failed, and its count of faults rose.
    SinkFault,
    /// As many bytes came as are taken of a stream.
    StreamLimit,
    /// There is no memory.
    OutOfMemory,
}
