//! Searches for one pattern in many texts.
ghost use Rattle.std.specs.Prelude.{◌≡◌};
ghost use Rattle.ldm_pattern.specs.Patterns.{found};

use crate::pattern::Pattern;
use regex::bytes::Matcher as Search;
use std::marker::Model;

/// Searches for one pattern. What a search needs is kept for the next one, and no search fails. Contracts see the bytes
/// of the pattern.
#[derive(Drop)]
pub struct Matcher<'p> {
    pub(crate) pattern: &'p Pattern,
    pub(crate) search: Search<'p>,
}

impl<'p> Model for Matcher<'p> {
    ghost use Rattle.std.specs.Prelude.{ℕ, List};

    ghost Value = { List ℕ };

    ghost use Rattle.ldm_pattern.specs.MatcherView.{source_of, SearchesForSource};

    ghost view = { source_of };

    ghost invariant = { SearchesForSource };
}

impl Matcher<'_> {
    /// Whether the pattern is found in a text.
    pub fn finds(&mut self, text: &[u8]) -> bool
        ensures found { result ≡ found self.old text.now }
        ensures same { self.new ≡ self.old }
    {
        self.search.is_match(text)
    }
}
