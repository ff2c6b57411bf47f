//! The words of an argument text.
ghost use Rattle.std.specs.Prelude.{◌≡◌, Some, IfOk, MatchResult};
ghost use Rattle.std.specs.Option.{ok_or};
ghost use Rattle.ldm_pqact_conf.specs.Arguments.{arguments_of};
ghost use Rattle.ldm_pqact_conf.specs.Causes.{IsKindOf};

use crate::fault::PqactKind;
use ldm_text::{Comments, first_word, to_word};
use std::alloc::{AllocError, Global};
use std::marker::Model;

/// A word of an entry. Contracts see its bytes.
#[derive(Drop)]
pub struct Word {
    bytes: Vec<u8>,
}

impl Model for Word {
    ghost use Rattle.std.specs.Prelude.{ℕ, List};

    ghost Value = { List ℕ };

    ghost view = { λ word. word.bytes.items };
}

impl Word {
    // A word of these bytes.
    pub(crate) fn of(alloc: Global, bytes: &[u8]) -> Result<Word, AllocError>
        ensures { IfOk result (λ word. word ≡ bytes.now) }
    {
        Ok(Word {
            bytes: Vec::from_slice(alloc, bytes)?,
        })
    }

    /// Its bytes, without quotes around them.
    pub fn bytes(&self) -> &[u8]
        ensures { result.now ≡ self.now }
    {
        self.bytes.as_slice()
    }
}

/// The words of a text.
pub fn read_words(alloc: Global, text: &[u8]) -> Result<Vec<Word>, PqactKind>
    ensures { let meaning = ok_or (arguments_of text.now) PqactKind.Fields in
        MatchResult result (λ words. arguments_of text.now ≡ Some words.items) (IsKindOf meaning) }
{
    let mut words = Vec::new(alloc);
    let mut rest = to_word(Comments::Never, text);
    while !rest.is_empty() {
        let (word, behind) = first_word(Comments::Never, rest).ok_or(PqactKind::Fields)?;
        words.push(Word::of(alloc, word)?)?;
        rest = to_word(Comments::Never, behind);
    }
    Ok(words)
}
