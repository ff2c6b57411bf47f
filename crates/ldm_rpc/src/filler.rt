//! Who puts bytes straight into the record in hand.
ghost use Rattle.std.specs.Prelude.{ℕ, List, ◌<◌, ◌≤◌, length, take};

/// Puts bytes of a source where a record is kept, so that they need not be copied there.
pub trait Filler<S> {
    /// The source may be asked.
    ghost can_fill: { S → Type 0 };

    /// What one call did: what it and the source were before, the bytes that it put, and what these are behind it.
    ghost gives: { Self → S → List ℕ → Self → S → Type 0 };

    /// Puts some bytes at the front of the buffer, which has room for one at least, and answers how many: 0 where none
    /// came. The buffer behind them may hold anything.
    fn fill(&mut self, source: &mut S, into: &mut [u8]) -> usize
        requires room { 0 < length into.old }
        requires ready { can_fill source.old }
        ensures within { result ≤ length into.new }
        ensures gives { gives self.old source.old (take result into.new) self.new source.new };
}
