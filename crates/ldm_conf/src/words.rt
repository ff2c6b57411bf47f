//! The words of a line.
ghost use Rattle.std.specs.Prelude.{MatchResult};
ghost use Rattle.ldm_text.specs.Words.{words_of};
ghost use Rattle.ldm_conf.specs.Kept.{AreWords, IsBad};

use crate::limits::MOST_WORDS;
use arrayvec::ArrayVec;
use ldm_text::{Comments, first_word, to_word};

/// More words than any line has, or a wrong quote.
#[derive(Clone, Copy)]
pub struct BadWords;

/// All words of a text.
pub fn read_words(text: &[u8]) -> Result<ArrayVec<&[u8], MOST_WORDS>, BadWords>
    ensures { MatchResult result (λ words. AreWords words.items (words_of Comments.Hash text.now))
        (λ _. IsBad (words_of Comments.Hash text.now)) }
{
    let mut words = ArrayVec::new();
    let mut rest = to_word(Comments::Hash, text);
    while !rest.is_empty() {
        let Some((word, behind)) = first_word(Comments::Hash, rest) else {
            return Err(BadWords);
        };
        if words.try_push(word).is_err() {
            return Err(BadWords);
        }
        rest = to_word(Comments::Hash, behind);
    }
    Ok(words)
}
