//! How a body is written.

/// How a body is written to a file.
#[derive(Clone, Copy, Debug, Default, PartialEq, Eq)]
pub struct FileOptions {
    /// The file is emptied before the body is written.
    pub overwrite: bool,
    /// It is shut after the body.
    pub close: bool,
    /// It is flushed after the body.
    pub flush: bool,
    /// Bytes that are neither a newline nor printed in ASCII are dropped from the body.
    pub strip: bool,
}

/// How a body is written to the input of a program.
#[derive(Clone, Copy, Debug, Default, PartialEq, Eq)]
pub struct PipeOptions {
    /// The input is shut after the body, and the program is waited for.
    pub close: bool,
    /// Bytes that are neither a newline nor printed in ASCII are dropped from the body.
    pub strip: bool,
}
