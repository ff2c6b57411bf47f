//! Everything outside the program.

/// How many bytes are asked of a source at once.
pub const PIECE: usize = 65_536;

/// What a command is lent: where its input comes from, where its output goes, and where it logs.
#[derive(Debug, Drop)]
pub struct Streams<S, K, E> {
    /// Where the input comes from: a [`Source`](ldm_outside::Source).
    pub source: S,
    /// Where the output goes: a [`Sink`](ldm_outside::Sink).
    pub sink: K,
    /// Where log lines go: a [`Sink`](ldm_outside::Sink).
    pub log: E,
}
