//! What the text of a message is.

/// What the text of a message is, by the type of its frame.
#[derive(Clone, Copy, Debug, PartialEq, Eq)]
pub enum Kind {
    /// `AN`: characters, and no byte 1 or 3.
    Alphanumeric,
    /// `BI`: any bytes, as GRIB and BUFR.
    Binary,
    /// `FX`: any bytes of a facsimile.
    Facsimile,
}
