//! Entries that are read.
ghost use Rattle.std.specs.Prelude.{◌≡◌, IfOk, is_none, length, true};
ghost use Rattle.std.specs.Option.{option_copied, option_map};
ghost use Rattle.ldm_pqact_conf.specs.Actions.{takes};
ghost use Rattle.ldm_pqact_conf.specs.EntryParts.{found_by};

use crate::action::ActionKind;
use crate::options::Options;
use crate::words::Word;
use ldm_pattern::Pattern;
use ldm_types::{Feed, OutOfMemory};
use std::alloc::Global;
use std::marker::Model;

/// An entry: which products it is about, and what is done with them.
#[derive(Drop)]
pub struct Entry {
    pub(crate) line: u32,
    pub(crate) feed: Feed,
    // None in an `_ELSE_` entry.
    pub(crate) pattern: Option<Pattern>,
    pub(crate) action: ActionKind,
    pub(crate) options: Options,
    pub(crate) words: Vec<Word>,
}

impl Model for Entry {
    ghost use Rattle.ldm_pqact_conf.specs.Entries.{EntryView};

    ghost Value = { EntryView };

    ghost use Rattle.ldm_pqact_conf.specs.EntryParts.{entry_view, TakesItsWords};

    ghost view = { entry_view };

    ghost invariant = { TakesItsWords };
}

impl Entry {
    /// The number of its first line, from 1.
    pub fn line(&self) -> u32
        ensures { result ≡ self.now.line }
    {
        self.line
    }

    /// The feedtypes that it is about.
    pub fn feed(&self) -> Feed
        ensures { result.0 ≡ self.now.feed }
    {
        self.feed
    }

    /// Whether its pattern is `_ELSE_` or `^_ELSE_$`: it is about the products that no entry before it matched.
    pub fn is_else(&self) -> bool
        ensures { result ≡ is_none self.now.pattern }
    {
        self.pattern.is_none()
    }

    /// Its pattern. An `_ELSE_` entry has none.
    pub fn pattern(&self) -> Option<&Pattern>
        ensures { option_copied result ≡ self.now.pattern }
    {
        self.pattern.as_ref()
    }

    /// Whether its pattern is found in an ident. That of an `_ELSE_` entry is found in none.
    pub fn is_found(&self, alloc: Global, ident: &[u8]) -> Result<bool, OutOfMemory>
        ensures { IfOk result (λ found. found ≡ found_by self.now.pattern ident.now) }
    {
        match &self.pattern {
            Some(pattern) => pattern.is_in(alloc, ident),
            None => Ok(false),
        }
    }

    /// What is done.
    pub fn action(&self) -> ActionKind
        ensures { result ≡ self.now.action }
    {
        self.action
    }

    /// The options that stand in front of its words.
    pub fn options(&self) -> Options
        ensures { result ≡ self.now.options }
    {
        self.options
    }

    /// The words behind its options: the path, or the program and its arguments. There are as many as the action takes.
    pub fn words(&self) -> &[Word]
        ensures words { result.now ≡ self.now.words }
        ensures as_many { takes self.now.action (length self.now.words) ≡ true }
    {
        self.words.as_slice()
    }
}
