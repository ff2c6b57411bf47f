//! How bulletins stand in a stream.

/// How bulletins stand in a stream (WMO No. 386, attachment II-15).
#[derive(Clone, Copy, Debug, PartialEq, Eq)]
pub enum Framing {
    /// Each from its byte 1 to its byte 3, and other bytes between them.
    Line,
    /// Each in a frame, one right behind the other, as over a TCP socket: eight digits of length, two letters of type,
    /// and the message. Eight zeros may stand in place of a frame, as at the end of a file.
    Socket,
}
