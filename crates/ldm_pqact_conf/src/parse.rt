//! What an entry means.
ghost use Rattle.std.specs.Prelude.{◌≡◌, ◌≤◌, Ok, length, drop, MatchResult};
ghost use Rattle.std.specs.List.{list_all};
ghost use Rattle.ldm_pqact_conf.specs.Actions.{is_option};
ghost use Rattle.ldm_pqact_conf.specs.Entries.{entry_of, pattern_of, is_else, with_fields, options_of, dashes};
ghost use Rattle.ldm_pqact_conf.specs.Causes.{IsKindOf};
ghost use Rattle.ldm_pqact_conf.specs.Kept.{fields_view};

use crate::action::ActionKind;
use crate::entry::Entry;
use crate::fault::PqactKind;
use crate::fields::{Fields, split_fields};
use crate::options::Options;
use crate::words::{Word, read_words};
use ldm_feedtype::read_feed;
use ldm_pattern::{Pattern, Refusal};
use ldm_text::begins_with;
use std::alloc::Global;

// The patterns of entries that act where no other entry matched.
const ELSE: &[u8] = b"_ELSE_";

const WHOLE_ELSE: &[u8] = b"^_ELSE_$";

/// The entry of these bytes, which begins in that line.
pub fn read_entry(alloc: Global, line: u32, text: &[u8]) -> Result<Entry, PqactKind>
    ensures { let meaning = entry_of (record { line = line; text = text.now }) in
        MatchResult result (λ entry. meaning ≡ Ok entry) (IsKindOf meaning) }
{
    let fields = split_fields(text).ok_or(PqactKind::Fields)?;
    let words = read_words(alloc, fields.arguments)?;
    read_fields(alloc, line, fields, words)
}

// The entry of these fields and words.
fn read_fields(
    alloc: Global,
    line: u32,
    fields: Fields<'_>,
    mut words: Vec<Word>,
) -> Result<Entry, PqactKind>
    ensures { let meaning = with_fields line (fields_view fields.entry) words.items in
        MatchResult result (λ entry. meaning ≡ Ok entry) (IsKindOf meaning) }
{
    let Ok(feed) = read_feed(fields.feedtype) else {
        return Err(PqactKind::Feed);
    };
    let pattern = read_pattern(alloc, fields.pattern)?;
    let action = ActionKind::of_name(fields.action).ok_or(PqactKind::Action)?;
    let options = take_options(action, &mut words)?;
    if !action.takes(words.as_slice()) {
        return Err(PqactKind::Fields);
    }
    Ok(Entry {
        line,
        feed,
        pattern,
        action,
        options,
        words,
    })
}

// The pattern of an entry, which is none in an `_ELSE_` entry.
fn read_pattern(alloc: Global, pattern: &[u8]) -> Result<Option<Pattern>, PqactKind>
    ensures { MatchResult result (λ built. pattern_of pattern.now ≡ Ok built) (IsKindOf (pattern_of pattern.now)) }
{
    if is_else(pattern) {
        return Ok(None);
    }
    match Pattern::build(alloc, pattern) {
        Ok(built) => Ok(Some(built)),
        Err(Refusal::Meaningless) => Err(PqactKind::Pattern),
        Err(Refusal::OutOfMemory) => Err(PqactKind::OutOfMemory),
    }
}

fn is_else(pattern: &[u8]) -> bool
    ensures { result ≡ is_else pattern.now }
{
    pattern == ELSE || pattern == WHOLE_ELSE
}

// Takes the options off the front of the words of an action.
fn take_options(action: ActionKind, words: &mut Vec<Word>) -> Result<Options, PqactKind>
    ensures { MatchResult result
        (λ options. (options_of action words.old.items ≡ Ok options)
        × (words.new.items ≡ drop (dashes words.old.items) words.old.items))
        (IsKindOf (options_of action words.old.items)) }
{
    let count = count_dashed(words.as_slice());
    let front = &words.as_slice()[..count];
    if !has_options(action, front) {
        return Err(PqactKind::Option);
    }
    let options = Options::named_in(front);
    words.rotate_left(count);
    words.truncate(words.len() - count);
    Ok(options)
}

// How many words at the front begin with `-`.
fn count_dashed(words: &[Word]) -> usize
    ensures count { result ≡ dashes words.now }
    ensures inside { result ≤ length words.now }
{
    words
        .iter()
        .take_while(|word| begins_with(b'-', word.bytes()))
        .count()
}

fn has_options(action: ActionKind, words: &[Word]) -> bool
    ensures { result ≡ list_all (is_option action) words.now }
{
    words.iter().all(|word| action.has_option(word.bytes()))
}
