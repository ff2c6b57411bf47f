//! What an entry that acts does.
ghost use Rattle.std.specs.Prelude.{◌≡◌, IfOk, Ok, length, true};
ghost use Rattle.ldm_pqact_conf.specs.Actions.{takes};
ghost use Rattle.ldm_pqact_match.specs.Choice.{decision_by};
ghost use Rattle.ldm_pqact_match.specs.Substitution.{words_text};
ghost use Rattle.ldm_pqact_match.specs.Views.{meanings_of};

use crate::action::Action;
use crate::chosen::{Decision, place_number};
use crate::sources::Sources;
use crate::substitute::{WordFault, substitute_all};
use crate::text::Text;
use ldm_pqact_conf::Entry;
use ldm_types::OutOfMemory;
use std::alloc::Global;

/// What an entry does, by what the forms in its words stand for.
pub fn decide(alloc: Global, entry: &Entry, sources: &Sources<'_>) -> Result<Decision, OutOfMemory>
    ensures { IfOk result
        (λ decision. decision ≡ decision_by entry.now (words_text (meanings_of sources.now) entry.now.words)) }
{
    match substitute_all(alloc, entry.words(), sources) {
        Ok(texts) => with_texts(alloc, entry, texts),
        Err(WordFault::NoDay { group }) => Ok(Decision::NoDate {
            group: group as u32,
        }),
        Err(WordFault::OutOfMemory) => Err(OutOfMemory),
    }
}

// What an entry does whose words became these texts, as many as its action takes.
fn with_texts(alloc: Global, entry: &Entry, texts: Vec<Text>) -> Result<Decision, OutOfMemory>
    requires { takes entry.now.action (length texts.items) ≡ true }
    ensures { IfOk result (λ decision. decision ≡ decision_by entry.now (Ok texts.items)) }
{
    let mut words = Vec::new(alloc);
    for text in texts {
        let Some(word) = text.into_word() else {
            return Ok(Decision::NotText {
                word: place_number(words.len()),
            });
        };
        words.push(word)?;
    }
    Ok(Decision::Act(Action {
        kind: entry.action(),
        options: entry.options(),
        words,
    }))
}
