//! Patterns of strangers: what is built of one, and what searches for it, each have a budget.
ghost use Rattle.std.specs.Prelude.{◌≡◌, IfOk, IsSome, MatchResult};
ghost use Rattle.ldm_pattern.specs.Patterns.{pattern_meaning, found};
ghost use Rattle.ldm_pattern.specs.Refusals.{IsRefusedFor};

use crate::pattern::{Refusal, read};
use ldm_types::OutOfMemory;
use regex_compile::compile;
use regex_dfa::{Dfa, End, Forward};
use regex_vm::PikeVm;
use std::alloc::Global;
use std::marker::Model;

/// A pattern that is built, of a stranger: the tables of what searches for it keep within a budget. Contracts see its
/// bytes.
#[derive(Drop)]
pub struct BoundedPattern {
    source: Vec<u8>,
    dfa: Dfa,
}

impl Model for BoundedPattern {
    ghost use Rattle.std.specs.Prelude.{ℕ, List};

    ghost Value = { List ℕ };

    ghost use Rattle.ldm_pattern.specs.BoundedView.{source_of, FindsSource};

    ghost view = { source_of };

    ghost invariant = { FindsSource };
}

impl BoundedPattern {
    /// The pattern of these bytes, if what is built of it takes about as many bytes as `most` or fewer. A larger one
    /// is `OutOfMemory`.
    pub fn build(alloc: Global, source: &[u8], most: usize) -> Result<BoundedPattern, Refusal>
        ensures { MatchResult result (λ pattern. (pattern ≡ source.now) × IsSome (pattern_meaning source.now))
            (IsRefusedFor source.now) }
    {
        let parsed = read(alloc, source)?;
        let Ok(groups) = u32::try_from(parsed.names.len()) else {
            return Err(Refusal::OutOfMemory);
        };
        let Ok(nfa) = compile(alloc, &parsed.hir, groups, most) else {
            return Err(Refusal::OutOfMemory);
        };
        let Ok(dfa) = Dfa::new(alloc, nfa) else {
            return Err(Refusal::OutOfMemory);
        };
        Ok(BoundedPattern {
            source: source.to_vec(alloc)?,
            dfa,
        })
    }

    /// What searches for it in many texts. Its tables take about as many bytes as `most` at most.
    pub fn matcher(&self, alloc: Global, most: usize) -> Result<BoundedMatcher<'_>, OutOfMemory>
        ensures { IfOk result (λ matcher. matcher ≡ self.now) }
    {
        Ok(BoundedMatcher {
            source: &self.source,
            dfa: &self.dfa,
            forward: Forward::with_budget(alloc, &self.dfa, false, most)?,
            threads: PikeVm::new(alloc, &self.dfa.nfa)?,
        })
    }

    /// Whether it is found in a text. [`BoundedPattern::matcher`] is for a pattern that is searched for in many.
    pub fn is_in(&self, alloc: Global, text: &[u8]) -> Result<bool, OutOfMemory>
        ensures { IfOk result (λ is_in. is_in ≡ found self.now text.now) }
    {
        let mut threads = PikeVm::new(alloc, &self.dfa.nfa)?;
        Ok(threads.is_match(&self.dfa.nfa, text, 0, text.len(), text.len()))
    }
}

/// Searches for one pattern of a stranger, by tables that keep within a budget. What a search needs is kept for the
/// next one, and no search fails. Contracts see the bytes of the pattern.
#[derive(Drop)]
pub struct BoundedMatcher<'p> {
    source: &'p [u8],
    dfa: &'p Dfa,
    forward: Forward,
    // What searches where the tables would outgrow their budget too often.
    threads: PikeVm,
}

impl<'p> Model for BoundedMatcher<'p> {
    ghost use Rattle.std.specs.Prelude.{ℕ, List};

    ghost Value = { List ℕ };

    ghost use Rattle.ldm_pattern.specs.BoundedMatcherView.{source_of, SearchesForSource};

    ghost view = { source_of };

    ghost invariant = { SearchesForSource };
}

impl BoundedMatcher<'_> {
    /// Whether the pattern is found in a text.
    pub fn finds(&mut self, text: &[u8]) -> bool
        ensures found { result ≡ found self.old text.now }
        ensures same { self.new ≡ self.old }
    {
        let stop = text.len();
        match self.forward.find_end(self.dfa, text, 0, stop, false, true) {
            End::At(_) => true,
            End::NoMatch => false,
            End::Idle(_) | End::GaveUp => self.threads.is_match(&self.dfa.nfa, text, 0, stop, stop),
        }
    }
}
