//! REQUEST lines, as a journal's note tells of them.

use ldm_types::Actor;

/// The most lines that a note has room for.
pub const MOST_LINES: usize = 64;

/// What a journal keeps of a REQUEST line.
#[derive(Clone, Copy)]
pub struct Line {
    /// What names the line in the journal, in each run.
    pub key: [u8; 16],
    /// Whose pass puts in what comes of it.
    pub actor: Actor,
    /// One more than the number, in the journal, of the last product that the line is known to have; 0 where none is
    /// known.
    pub last: u64,
}
