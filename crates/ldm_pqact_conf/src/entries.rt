//! All entries of a text.
ghost use Rattle.std.specs.Prelude.{◌≡◌, ◌<◌, ◌==◌, length, slice_index_or};

use crate::entry::Entry;
use std::marker::Model;

/// The entries of a pqact.conf, in order. Contracts see a list.
#[derive(Drop)]
pub struct Entries {
    pub(crate) entries: Vec<Entry>,
}

impl Model for Entries {
    ghost use Rattle.std.specs.Prelude.{List};
    ghost use Rattle.ldm_pqact_conf.specs.Entries.{EntryView};

    ghost Value = { List EntryView };

    ghost view = { λ entries. entries.entries.items };
}

impl Entries {
    /// How many there are.
    pub fn len(&self) -> usize
        ensures { result ≡ length self.now }
    {
        self.entries.len()
    }

    /// Whether there is none.
    pub fn is_empty(&self) -> bool
        ensures { result ≡ (length self.now == 0) }
    {
        self.entries.is_empty()
    }

    /// The entry at a place, from 0.
    pub fn entry(&self, place: usize) -> &Entry
        requires { place < length self.now }
        ensures { result.now ≡ slice_index_or self.now place result.now }
    {
        &self.entries[place]
    }

    /// All, in order.
    pub fn as_slice(&self) -> &[Entry]
        ensures { result.now ≡ self.now }
    {
        self.entries.as_slice()
    }
}
