//! Feed expressions: texts that mean a set of feedtypes.
#![tactic(auto)]

ghost use Rattle.std.specs.Prelude.{◌≡◌, ◌<◌, ◌≤◌, ◌↔◌, ℕ, List, length, Some, None, Ok, Err, IfOk, IfErr, MatchResult};
ghost use Rattle.ldm_feedtype.specs.declared.fault.FeedFault.{FeedFault};
ghost use Rattle.ldm_feedtype.specs.Faults.{IsFirstFault};
ghost use Rattle.ldm_feedtype.specs.FeedSets.{FeedSet, set_of};
ghost use Rattle.ldm_feedtype.specs.Grammar.{Spells, Expression};
ghost use Rattle.ldm_feedtype.specs.Parts.{parts};
ghost use Rattle.ldm_feedtype.specs.Reading.{feed_set, feed_number, HasMembers};
ghost use Rattle.ldm_feedtype.specs.Kept.{state_of, read_on, GoesOn};

use crate::parts::{is_blank, word_length};
use crate::reader::Reader;
use ldm_types::Feed;

mod fault;
mod names;
mod parts;
mod reader;
mod text;
mod words;

pub use fault::FeedFault;
pub use names::NAMES;
pub use reader::MOST_OPEN;
pub use text::feed_text;

/// The feedtypes that a text means, or the first fault from the left.
///
/// An expression is a term, followed by any number of an operator and a term: `|` for either, `&` for both and
/// `-` for the left without the right, none of which binds tighter. A term is a name in letters of either case, a
/// number, `~` and a term, or an expression in parentheses, of which [`MOST_OPEN`] may be open at once. A number is
/// decimal digits, or `0x` and hexadecimal digits; zeros may lead either. Spaces and tabs may stand between the parts.
pub fn read_feed(text: &[u8]) -> Result<Feed, FeedFault>
    ensures set { MatchResult result (λ feed. feed_set text.now ≡ Ok (set_of feed.0))
        (λ fault. feed_set text.now ≡ Err fault) }
    ensures number { MatchResult result (λ feed. feed_number text.now ≡ Some feed.0)
        (λ _. feed_number text.now ≡ None) }
    ensures members { IfOk result (λ feed. HasMembers feed.0 (feed_set text.now)) }
    ensures expression { MatchResult result (λ feed. Spells Expression MOST_OPEN (parts 0 text.now) (set_of feed.0))
        (λ _. (set : FeedSet) → Spells Expression MOST_OPEN (parts 0 text.now) set → ⊥) }
    ensures first { IfErr result (IsFirstFault (length text.now) (parts 0 text.now)) }
{
    read(text)
}

fn read(text: &[u8]) -> Result<Feed, FeedFault>
    ensures { MatchResult result (λ feed. feed_set text.now ≡ Ok (set_of feed.0))
        (λ fault. feed_set text.now ≡ Err fault) }
{
    let mut reader = Reader::new();
    let mut at = 0;
    while at < text.len() {
        at = take_part(&mut reader, text, at)?;
    }
    reader.finish(at)
}

// Takes the part at that place, or the blank there, and answers the place behind it.
fn take_part(reader: &mut Reader, text: &[u8], at: usize) -> Result<usize, FeedFault>
    requires { at < length text.now }
    ensures forward { IfOk result (λ next. at < next) }
    ensures inside { IfOk result (λ next. next ≤ length text.now) }
    ensures read { GoesOn text.now (read_on text.now at (state_of reader.old)) result reader.new }
{
    if is_blank(text[at]) {
        return Ok(at + 1);
    }
    let length = word_length(&text[at..]);
    if length == 0 {
        reader.take_mark(at, text[at])?;
        return Ok(at + 1);
    }
    reader.take_word(at, &text[at..at + length])?;
    Ok(at + length)
}

/// A text is read exactly where the grammar's rules make an expression of its parts, and as the set that they give it.
pub fn reads_the_grammar()
    ensures { (text : List ℕ) (set : FeedSet)
        → (feed_set text ≡ Ok set) ↔ Spells Expression MOST_OPEN (parts 0 text) set }
{}

/// A fault stands at the first part that cannot continue an expression, by the grammar's rules, or at the end of a
/// text that ends too early.
pub fn finds_the_first_fault()
    ensures { (text : List ℕ) (fault : FeedFault) → feed_set text ≡ Err fault
        → IsFirstFault (length text) (parts 0 text) fault }
{}
