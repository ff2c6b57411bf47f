//! How a candidate goes on in a piece.
ghost use Rattle.std.specs.Prelude.{◌<◌};
ghost use Rattle.ldm_wmo.specs.Courses.{IsCourse};

use crate::bulletin::{END, START};
use memchr::memchr2;

/// How a candidate goes on in a piece.
#[derive(Clone, Copy, Debug)]
pub(crate) enum Course {
    /// All bytes are of the candidate, and it is open behind them.
    Open,
    /// It ends before the byte at that place.
    EndsBefore(usize),
    /// It ends with the byte at that place.
    EndsWith(usize),
}

/// How a candidate goes on in a piece, that has room for so many more bytes.
pub(crate) fn course_in(piece: &[u8], room: usize) -> Course
    requires { 0 < room }
    ensures { IsCourse piece.now room result }
{
    let front = &piece[..piece.len().min(room)];
    match memchr2(START, END, front) {
        Some(at) if front[at] == START => Course::EndsBefore(at),
        Some(at) => Course::EndsWith(at),
        None if front.len() == room => Course::EndsWith(room - 1),
        None => Course::Open,
    }
}
