//! The example of ldm_status.

use ldm_outside::{Sink, SinkFailed, Source, write_all};
use ldm_status::{Status, Streams};

/// Writes a greeting, and answers the number that the program ends with.
pub fn greet<S: Source, K: Sink, E: Sink>(streams: &mut Streams<S, K, E>) -> u8 {
    let status = match write_all(&mut streams.sink, b"hello\n") {
        Ok(()) => Status::Done,
        Err(SinkFailed) => Status::SinkFault,
    };
    status.report(&mut streams.log)
}
