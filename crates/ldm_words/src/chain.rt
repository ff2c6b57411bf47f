//! The words of `chain`.
ghost use Rattle.std.specs.Prelude.{◌≡◌, MatchResult, Some, map, string_bytes};
ghost use Rattle.std.specs.Option.{option_copied};
ghost use Rattle.ldm_words.specs.Faults.{IsFaultOf};
ghost use Rattle.ldm_words.specs.Forms.{chain_form, chain_of};
ghost use Rattle.ldm_words.specs.Values.{classes_of};
ghost use Rattle.ldm_words.specs.Views.{chain_view};

use crate::fault::WordsFault;
use crate::limits::MOST_CLASSES;
use crate::said::ChainWords;
use crate::values::{read_class, read_short};
use ldm_answers::read_number;
use ldm_class::Class;
use std::alloc::Global;

/// What a chain is made with: `[-a CONF] ARENA SLOTS MAXHEREIS FEED PATTERN [FEED PATTERN ..]`, with one to seven pairs
/// of FEED and PATTERN. Numbers are decimal, without a sign or a leading zero. ARENA has 64 bits, SLOTS and MAXHEREIS
/// have 32, and PATTERN has at most 255 bytes. `-a` stands in front or not at all, and CONF is the word behind it.
///
/// `Usage` comes exactly where the words are no form.
pub fn read_chain<'a>(alloc: Global, words: &'a [String]) -> Result<ChainWords<'a>, WordsFault>
    ensures read { let form = chain_form (map string_bytes words.entry.now) in
        MatchResult result (λ said. form ≡ Some (chain_view said)) (IsFaultOf form) }
{
    let [first, others @ ..] = words else {
        return Err(WordsFault::Usage);
    };
    if first.as_bytes() != b"-a".as_slice() {
        return chain_of(alloc, None, words);
    }
    let [conf, others @ ..] = others else {
        return Err(WordsFault::Usage);
    };
    chain_of(alloc, Some(conf.as_str()), others)
}

// What a chain with this configuration is made with, by the words behind it.
fn chain_of<'a>(
    alloc: Global,
    conf: Option<&'a str>,
    words: &[String],
) -> Result<ChainWords<'a>, WordsFault>
    ensures { let form = chain_of (option_copied conf.entry) (map string_bytes words.now) in
        MatchResult result (λ said. form ≡ Some (chain_view said)) (IsFaultOf form) }
{
    let [arena, slots, max_hereis, pairs @ ..] = words else {
        return Err(WordsFault::Usage);
    };
    let Some(arena) = read_number(arena.as_bytes(), u64::MAX) else {
        return Err(WordsFault::Usage);
    };
    let Some(slots) = read_short(slots.as_str()) else {
        return Err(WordsFault::Usage);
    };
    let Some(max_hereis) = read_short(max_hereis.as_str()) else {
        return Err(WordsFault::Usage);
    };
    let classes = classes_of(alloc, pairs)?;
    if classes.is_empty() || classes.len() > MOST_CLASSES {
        return Err(WordsFault::Usage);
    }
    Ok(ChainWords {
        conf,
        arena,
        slots,
        max_hereis,
        classes,
    })
}

// The classes of pairs of words.
fn classes_of(alloc: Global, words: &[String]) -> Result<Vec<Class>, WordsFault>
    ensures { let meaning = classes_of (map string_bytes words.now) in
        MatchResult result (λ classes. meaning ≡ Some classes.items) (IsFaultOf meaning) }
{
    let mut classes = Vec::new(alloc);
    let mut left = words;
    while let [feed, pattern, others @ ..] = left {
        let class = read_class(alloc, feed.as_bytes(), pattern.as_bytes())?;
        classes.push(class)?;
        left = others;
    }
    if left.is_empty() {
        Ok(classes)
    } else {
        Err(WordsFault::Usage)
    }
}
