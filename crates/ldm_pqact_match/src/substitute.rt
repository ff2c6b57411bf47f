//! What the words of an entry become.
ghost use Rattle.std.specs.Prelude.{◌≡◌, Ok, MatchResult};
ghost use Rattle.ldm_pqact_match.specs.Substitution.{word_text, words_text};
ghost use Rattle.ldm_pqact_match.specs.Views.{meanings_of};
ghost use Rattle.ldm_pqact_match.specs.Reading.{IsStopOf};

use crate::forms::front;
use crate::sources::Sources;
use crate::text::Text;
use ldm_pqact_conf::Word;
use ldm_types::OutOfMemory;
use std::alloc::{AllocFailed, Global};

/// Why nothing is put in place of a word.
#[derive(Clone, Copy)]
pub enum WordFault {
    /// A form asks for the date of a group that says no day.
    NoDay {
        /// Its number, from 1.
        group: u8,
    },
    OutOfMemory,
}

impl From<OutOfMemory> for WordFault {
    ghost use Rattle.std.specs.Prelude.{◌≡◌};
    ghost use Rattle.ldm_pqact_match.specs.declared.substitute.WordFault.TheVariants.{OutOfMemory};

    ghost from_gives = { λ _ stop. stop ≡ OutOfMemory };

    fn from(_error: OutOfMemory) -> WordFault {
        WordFault::OutOfMemory
    }
}

impl From<AllocFailed<Text>> for WordFault {
    ghost use Rattle.std.specs.Prelude.{◌≡◌};
    ghost use Rattle.ldm_pqact_match.specs.declared.substitute.WordFault.TheVariants.{OutOfMemory};

    ghost from_gives = { λ _ stop. stop ≡ OutOfMemory };

    fn from(_error: AllocFailed<Text>) -> WordFault {
        WordFault::OutOfMemory
    }
}

/// What the words of an entry become, in order.
pub fn substitute_all(
    alloc: Global,
    words: &[Word],
    sources: &Sources<'_>,
) -> Result<Vec<Text>, WordFault>
    ensures { let meaning = words_text (meanings_of sources.now) words.now in
        MatchResult result (λ texts. meaning ≡ Ok texts.items) (IsStopOf meaning) }
{
    let mut texts = Vec::new(alloc);
    for word in words {
        texts.push(substitute(alloc, word.bytes(), sources)?)?;
    }
    Ok(texts)
}

// What a word becomes.
fn substitute(alloc: Global, word: &[u8], sources: &Sources<'_>) -> Result<Text, WordFault>
    ensures { let meaning = word_text (meanings_of sources.now) word.now in
        MatchResult result (λ text. meaning ≡ Ok text) (IsStopOf meaning) }
{
    let mut text = Text::new(alloc);
    let mut rest = word;
    while let Some(form) = front(rest) {
        sources.append(&mut text, form.piece)?;
        rest = &rest[form.length..];
    }
    Ok(text)
}
