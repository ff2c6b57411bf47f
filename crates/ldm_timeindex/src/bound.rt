//! What a search looks for.
ghost use Rattle.std.specs.Prelude.{◌≡◌};
ghost use Rattle.ldm_timeindex.specs.Kept.{queued_of, reaches};

use crate::entry::Entry;
use ldm_types::Micros;

/// What the first entry is to reach that a search finds. Where an entry reaches it, all behind it do.
#[derive(Clone, Copy)]
pub enum Bound {
    /// At least that number.
    AtLeast(u64),
    /// Later than that instant.
    LaterThan(Micros),
}

impl Bound {
    /// Whether an entry reaches it.
    pub fn is_reached(&self, entry: &Entry) -> bool
        ensures { result ≡ reaches self.now (queued_of entry.now) }
    {
        match self {
            Bound::AtLeast(n) => *n <= entry.n,
            Bound::LaterThan(time) => *time < entry.time,
        }
    }
}
