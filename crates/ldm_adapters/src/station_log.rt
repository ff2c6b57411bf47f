//! The log of a station.

use crate::beats::Beats;
use std::io::{self, ErrorKind, Write};
use std::rt::{HostRuntime, Stderr};

/// Standard error, as a station writes its log to it. Where a write fails, the worker of the station stops.
#[derive(Drop)]
pub struct StationLog {
    stream: Stderr,
    beats: Beats,
}

impl StationLog {
    /// The log of a station with those beats.
    pub(crate) fn new(rt: HostRuntime, beats: Beats) -> StationLog {
        StationLog {
            stream: rt.stderr(),
            beats,
        }
    }
}

impl Write for StationLog {
    fn write(&mut self, buf: &[u8]) -> io::Result<usize> {
        let answer = self.stream.write(buf);
        if has_failed(&answer, buf.len()) {
            self.beats.leave();
        }
        answer
    }

    fn flush(&mut self) -> io::Result<()> {
        self.stream.flush()
    }
}

// Whether a write of so many bytes failed. One that a signal interrupted is made again.
fn has_failed(answer: &io::Result<usize>, len: usize) -> bool {
    match answer {
        Ok(count) => *count == 0 && len > 0,
        Err(error) => error.kind() != ErrorKind::Interrupted,
    }
}
