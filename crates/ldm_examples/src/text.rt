//! The example of ldm_text.

use ldm_text::{Comments, first_line, first_word, to_word};

/// The first word of the first line of a text, if there is one and its quotes are right.
pub fn first_of(text: &[u8]) -> Option<&[u8]> {
    let (line, _) = first_line(text);
    let text = to_word(Comments::Hash, line);
    if text.is_empty() {
        return None;
    }
    let (word, _) = first_word(Comments::Hash, text)?;
    Some(word)
}
