//! Actions whose words are substituted.
ghost use Rattle.std.specs.Prelude.{◌≡◌, true, length, map, string_bytes};
ghost use Rattle.ldm_pqact_conf.specs.Actions.{takes};

use ldm_pqact_conf::{ActionKind, Options};
use std::marker::Model;

/// What is done with a product. Contracts see its kind, its options and its words, each word a list of bytes. It has as
/// many words as its kind takes.
#[derive(Drop)]
pub struct Action {
    pub(crate) kind: ActionKind,
    pub(crate) options: Options,
    // In each word every form is substituted.
    pub(crate) words: Vec<String>,
}

impl Model for Action {
    ghost use Rattle.ldm_pqact_match.specs.ActionView.{ActionView, action_view, TakesItsWords};

    ghost Value = { ActionView };

    ghost view = { action_view };

    ghost invariant = { TakesItsWords };
}

impl Action {
    /// Its kind.
    pub fn kind(&self) -> ActionKind
        ensures { result ≡ self.now.kind }
    {
        self.kind
    }

    /// The options that its entry names.
    pub fn options(&self) -> Options
        ensures { result ≡ self.now.options }
    {
        self.options
    }

    /// The path, or the program and its arguments. There are as many words as its kind takes.
    pub fn words(&self) -> &[String]
        ensures words { map string_bytes result.now ≡ self.now.words }
        ensures as_many { takes self.now.kind (length result.now) ≡ true }
    {
        self.words.as_slice()
    }

    /// The same words, for who keeps them.
    pub fn into_words(self) -> Vec<String>
        ensures words { map string_bytes result.items ≡ self.words }
        ensures as_many { takes self.kind (length result.items) ≡ true }
    {
        self.words
    }
}
