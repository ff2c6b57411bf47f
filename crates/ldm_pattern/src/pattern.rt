//! Patterns that are built.
ghost use Rattle.std.specs.Prelude.{◌≡◌, IfOk, None, IsSome, is_some, MatchResult};
ghost use Rattle.std.specs.Option.{option_map};
ghost use Rattle.ldm_pattern.specs.Parts.{group_parts, parts_of};
ghost use Rattle.ldm_pattern.specs.Patterns.{pattern_meaning, IsMeantBy, found};
ghost use Rattle.regex_hir.specs.Meaning.{meaning};
ghost use Rattle.ldm_pattern.specs.Refusals.{IsRefusedFor};

use crate::groups::Groups;
use crate::matcher::Matcher;
use ldm_types::OutOfMemory;
use regex::bytes::Regex;
use regex::{Error, RegexBuilder};
use regex_syntax::{Config, ErrorKind, Parsed};
use std::alloc::{AllocError, Global};
use std::marker::Model;

/// Why a pattern is not built.
#[derive(Clone, Copy, Debug, PartialEq, Eq)]
pub enum Refusal {
    /// It is not UTF-8, the grammar of `regex` reads no pattern in it, or it nests too deep.
    Meaningless,
    /// There is too little memory, or what would be built is larger than `regex` builds.
    OutOfMemory,
}

impl From<AllocError> for Refusal {
    ghost use Rattle.std.specs.Prelude.{◌≡◌};
    ghost use Rattle.ldm_pattern.specs.declared.pattern.Refusal.TheVariants.{OutOfMemory};

    ghost from_gives = { λ _ refusal. refusal ≡ OutOfMemory };

    fn from(_error: AllocError) -> Refusal {
        Refusal::OutOfMemory
    }
}

/// A pattern that is built. Contracts see its bytes.
#[derive(Drop)]
pub struct Pattern {
    regex: Regex,
}

impl Model for Pattern {
    ghost use Rattle.std.specs.Prelude.{ℕ, List};

    ghost Value = { List ℕ };

    ghost use Rattle.ldm_pattern.specs.PatternView.{source_of, IsBuilt};

    ghost view = { source_of };

    ghost invariant = { IsBuilt };
}

impl Pattern {
    /// What `regex` lets one pattern take that [`Pattern::build`] builds, in bytes.
    pub const LARGEST: usize = 10 << 20;

    /// The pattern of these bytes.
    pub fn build(alloc: Global, source: &[u8]) -> Result<Pattern, Refusal>
        ensures { MatchResult result (λ pattern. (pattern ≡ source.now) × IsSome (pattern_meaning source.now))
            (IsRefusedFor source.now) }
    {
        Pattern::build_within(alloc, source, Pattern::LARGEST)
    }

    /// The pattern of these bytes, if what is built of it takes about as many bytes as `most` or fewer. A larger one
    /// is `OutOfMemory`.
    pub fn build_within(alloc: Global, source: &[u8], most: usize) -> Result<Pattern, Refusal>
        ensures { MatchResult result (λ pattern. (pattern ≡ source.now) × IsSome (pattern_meaning source.now))
            (IsRefusedFor source.now) }
    {
        let Ok(text) = str::from_utf8(source) else {
            return Err(Refusal::Meaningless);
        };
        match RegexBuilder::new(text).size_limit(most).build_bytes(alloc) {
            Ok(regex) => Ok(Pattern { regex }),
            Err(Error::Syntax(_)) => Err(Refusal::Meaningless),
            Err(_) => Err(Refusal::OutOfMemory),
        }
    }

    /// Whether these bytes are a pattern. They are read, and nothing is built.
    pub fn check(alloc: Global, source: &[u8]) -> Result<(), Refusal>
        ensures { MatchResult result (λ _. IsSome (pattern_meaning source.now)) (IsRefusedFor source.now) }
    {
        read(alloc, source)?;
        Ok(())
    }

    /// What searches for it in many texts.
    pub fn matcher(&self, alloc: Global) -> Result<Matcher<'_>, OutOfMemory>
        ensures { IfOk result (λ matcher. matcher ≡ self.now) }
    {
        let search = self.regex.matcher(alloc)?;
        Ok(Matcher {
            pattern: self,
            search,
        })
    }

    /// Whether it is found in a text. [`Pattern::matcher`] is for a pattern that is searched for in many.
    pub fn is_in(&self, alloc: Global, text: &[u8]) -> Result<bool, OutOfMemory>
        ensures { IfOk result (λ is_in. is_in ≡ found self.now text.now) }
    {
        let mut matcher = self.matcher(alloc)?;
        Ok(matcher.finds(text))
    }

    /// The parts of a text that its groups have in the first match. None exactly where the pattern is not found.
    pub fn groups<'t>(
        &self,
        alloc: Global,
        text: &'t [u8],
    ) -> Result<Option<Groups<'t>>, OutOfMemory>
        ensures parts { IfOk result (λ groups. option_map parts_of groups ≡ group_parts self.now text.now) }
        ensures found { IfOk result (λ groups. is_some groups ≡ found self.now text.now) }
    {
        let mut matcher = self.regex.matcher(alloc)?;
        match matcher.captures(text) {
            Some(captures) => Ok(Some(Groups::of(&captures))),
            None => Ok(None),
        }
    }
}

// What the grammar reads in these bytes.
pub(crate) fn read(alloc: Global, source: &[u8]) -> Result<Parsed, Refusal>
    ensures { MatchResult result (λ parsed. IsMeantBy source.now (meaning parsed.hir)) (IsRefusedFor source.now) }
{
    let Ok(text) = str::from_utf8(source) else {
        return Err(Refusal::Meaningless);
    };
    let config = Config {
        utf8: false,
        ..Config::default()
    };
    match regex_syntax::parse(alloc, text, &config) {
        Ok(parsed) => Ok(parsed),
        Err(error) => match error.kind {
            ErrorKind::OutOfMemory => Err(Refusal::OutOfMemory),
            _ => Err(Refusal::Meaningless),
        },
    }
}
