//! The parts of the arena that held products take.
ghost use Rattle.std.specs.Prelude.{◌≡◌, ◌+◌, ◌≤◌, ◌<◌, ◌^◌};
ghost use Rattle.std.specs.List.{All};
ghost use Rattle.ldm_book.specs.Spans.{fits_at, has_gap};

/// The part of the arena from a position up to, but not with, another. Empty at the front where a place holds nothing.
#[derive(Clone, Copy)]
pub(crate) struct Span {
    pub(crate) start: u64,
    pub(crate) back: u64,
}

impl Span {
    ghost use Rattle.ldm_book.specs.Spans.{is_beside};

    /// The empty span at the front.
    pub(crate) const NONE: Span = Span { start: 0, back: 0 };

    /// Whether so many bytes from a position on lie beside it.
    fn is_beside(self, at: u64, need: u64) -> bool
        requires { at + need < 2 ^ 63 }
        ensures { result ≡ is_beside at need self }
    {
        at + need <= self.start || self.back <= at
    }
}

/// Whether so many bytes from a position on lie in the arena and beside all spans.
fn fits_at(spans: &[Span], at: u64, need: u64, arena: u64) -> bool
    requires { at + need < 2 ^ 63 }
    ensures { result ≡ fits_at at need arena spans.now }
{
    if at + need > arena {
        return false;
    }
    for span in spans {
        if !span.is_beside(at, need) {
            return false;
        }
    }
    true
}

/// Whether there is room for so many bytes beside all spans.
pub(crate) fn has_gap(spans: &[Span], need: u64, arena: u64) -> bool
    requires need { need ≤ arena }
    requires arena { arena < 2 ^ 62 }
    requires within { All (λ span. span.back ≤ arena) spans.now }
    ensures { result ≡ has_gap need arena spans.now }
{
    for span in spans {
        if fits_at(spans, span.back, need, arena) {
            return true;
        }
    }
    fits_at(spans, 0, need, arena)
}
