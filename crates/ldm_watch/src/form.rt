//! How the lines of notices are written.

/// How the line of a notice has the arrival and the feedtypes.
#[derive(Clone, Copy, Debug, PartialEq, Eq)]
pub enum NoticeForm {
    /// As numbers, for programs: microseconds since 1970, and `0x` with eight hexadecimal digits.
    Numbers,
    /// For people: a date and a time of day in UTC, and the names of the feedtypes.
    Names,
}
