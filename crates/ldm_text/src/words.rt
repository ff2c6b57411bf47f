//! The words of a text, one after another.
ghost use Rattle.std.specs.Prelude.{◌≡◌, ◌<◌, ◌≤◌, length, MatchOption, false};
ghost use Rattle.ldm_text.specs.Words.{words_of, words_from, begins_in_comment, none_left};
ghost use Rattle.ldm_text.specs.Words.{may_end, BeginsInWord, HasWord, Between, Quoted};

use crate::scan::{begins_with, count_blanks, is_blank, place_of, place_of_blank};

/// Whether a text has comments.
#[derive(Clone, Copy, Debug, PartialEq, Eq)]
pub enum Comments {
    /// A word that would begin with `#` begins a comment, which goes on to the end of the text.
    Hash,
    /// There are none: `#` is a byte like any other.
    Never,
}

/// What is left of a text from its first word on: nothing, where no word is left.
pub fn to_word(comments: Comments, text: &[u8]) -> &[u8]
    ensures words { words_of comments result.now ≡ words_of comments text.now }
    ensures begins { BeginsInWord comments result.now }
    ensures shorter { length result.now ≤ length text.now }
{
    let rest = &text[count_blanks(text)..];
    if begins_in_comment(comments, rest) {
        return &[];
    }
    rest
}

/// The first word of a text, without the quotes around it, and what stands behind it; or None, where a quote of this
/// word is wrong.
pub fn first_word(comments: Comments, text: &[u8]) -> Option<(&[u8], &[u8])>
    requires some { 0 < length text.now }
    requires begins { BeginsInWord comments text.now }
    ensures { MatchOption result (words_of comments text.now ≡ none_left false)
        (λ found. HasWord comments Between text.now found.0.now found.1.now) }
{
    if begins_with(b'"', text) {
        return quoted_word(comments, &text[1..]);
    }
    let end = place_of_blank(text);
    Some((&text[..end], &text[end..]))
}

// A quoted word, by what stands behind its first quote.
fn quoted_word(comments: Comments, text: &[u8]) -> Option<(&[u8], &[u8])>
    ensures { MatchOption result (words_from comments Quoted text.now ≡ none_left false)
        (λ found. HasWord comments Quoted text.now found.0.now found.1.now) }
{
    let end = place_of(b'"', text);
    if end == text.len() {
        return None;
    }
    let behind = &text[end + 1..];
    if may_end(behind) {
        Some((&text[..end], behind))
    } else {
        None
    }
}

fn may_end(text: &[u8]) -> bool
    ensures { result ≡ may_end text.now }
{
    match text {
        [byte, ..] => is_blank(*byte),
        [] => true,
    }
}

fn begins_in_comment(comments: Comments, text: &[u8]) -> bool
    ensures { result ≡ begins_in_comment comments text.now }
{
    match comments {
        Comments::Hash => begins_with(b'#', text),
        Comments::Never => false,
    }
}
