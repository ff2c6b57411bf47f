//! Actions as they are carried out.

use crate::options::{FileOptions, PipeOptions};
use crate::program::Program;

/// An action on a product.
#[derive(Drop)]
pub enum Action {
    /// FILE and STDIOFILE: the body goes to the end of a file.
    ToFile {
        /// The path of the file, which is made where it is missing.
        path: String,
        /// How it is written.
        options: FileOptions,
    },
    /// PIPE: the body goes to the input of a program, which runs on.
    ToProgram {
        /// The program, which is started where none runs under its command.
        program: Program,
        /// How it is written.
        options: PipeOptions,
    },
    /// EXEC: a program is started.
    Start {
        /// The program.
        program: Program,
        /// Whether it is waited for.
        wait: bool,
    },
    /// NOOP.
    Nothing,
}
