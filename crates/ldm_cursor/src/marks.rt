//! Marks of places.
ghost use Rattle.std.specs.Prelude.{◌≡◌, ◌≢◌, ℕ, ◌<◌, ◌≤◌, IfSome, MatchOption, OnSome};
ghost use Rattle.std.specs.Int.{bit_at};
ghost use Rattle.ldm_cursor.specs.Marks.{IsFirstUnmarked, LosesMark};

use ldm_types::CursorNo;

/// Which of the 64 places of a queue's cursors are marked, one bit each.
#[derive(Clone, Copy)]
pub struct Marks {
    bits: u64,
}

impl Marks {
    /// No place is marked.
    pub fn none() -> Marks
        ensures { result.bits ≡ 0 }
    {
        Marks { bits: 0 }
    }

    /// The least place that is not marked. `None` exactly where all are.
    pub fn first_unmarked(self) -> Option<CursorNo>
        ensures first { MatchOption result ((i : ℕ) → i < 64 → bit_at self.bits i ≡ 1) (IsFirstUnmarked self.bits) }
        ensures bound { IfSome result (λ k. k < 64) }
    {
        CursorNo::new(self.bits.trailing_ones())
    }

    /// The least number from which on no place is marked.
    pub fn end(self) -> u32
        ensures bound { result ≤ 64 }
        ensures rest { (i : ℕ) → result ≤ i → bit_at self.bits i ≡ 0 }
    {
        64 - self.bits.leading_zeros()
    }

    /// Marks a place.
    pub fn mark(&mut self, k: CursorNo)
        ensures marked { bit_at self.new.bits k ≡ 1 }
        ensures others { (i : ℕ) → i ≢ k → bit_at self.new.bits i ≡ bit_at self.old.bits i }
    {
        self.bits |= 1 << k.get();
    }

    /// Takes the mark from a place.
    pub fn unmark(&mut self, k: CursorNo)
        ensures unmarked { LosesMark self.old.bits self.new.bits k }
        ensures bound { self.new.bits ≤ self.old.bits }
    {
        self.bits &= !(1 << k.get());
    }

    /// Takes the mark from the least place that has one, and answers that place. `None` exactly where none is
    /// marked.
    pub fn take_first(&mut self) -> Option<CursorNo>
        ensures taken { MatchOption result (self.old.bits ≡ 0) (LosesMark self.old.bits self.new.bits) }
        ensures marked { IfSome result (λ k. bit_at self.old.bits k ≡ 1) }
        ensures fewer { OnSome result (self.new.bits < self.old.bits) }
    {
        let first = CursorNo::new(self.bits.trailing_zeros())?;
        self.unmark(first);
        Some(first)
    }
}
