//! How fast a peer moves what it is waited for.

use std::time::Duration;

/// How fast the rest of a record comes, and a peer takes what it is sent, on the average at least, in bytes a second.
pub const SLOWEST_RATE: u64 = 8_192;

/// How long a peer was waited for, and how many bytes it moved meanwhile.
#[derive(Clone, Copy)]
pub(crate) struct Pace {
    waited: Duration,
    moved: u64,
}

impl Pace {
    /// A peer that was not waited for yet.
    pub(crate) fn new() -> Pace {
        Pace {
            waited: Duration::ZERO,
            moved: 0,
        }
    }

    /// It was waited for so long, and moved so many bytes.
    pub(crate) fn add(&mut self, waited: Duration, moved: usize) {
        self.waited = self.waited.saturating_add(waited);
        self.moved = self.moved.saturating_add(moved as u64);
    }

    /// How much longer it may be waited for: in all so long, and as long as its bytes take at [`SLOWEST_RATE`].
    pub(crate) fn left(&self, grace: Duration) -> Duration {
        let micros = self.moved.saturating_mul(1_000_000) / SLOWEST_RATE;
        grace
            .saturating_add(Duration::from_micros(micros))
            .saturating_sub(self.waited)
    }
}
