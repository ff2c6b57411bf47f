//! The lines of a text.
ghost use Rattle.ldm_text.specs.Lines.{Splits};

use crate::scan::place_of;

/// The first line of a text, and what stands behind the newline that ends it, if there is one.
pub fn first_line(text: &[u8]) -> (&[u8], Option<&[u8]>)
    ensures { Splits text.now result.0.now result.1 }
{
    let at = place_of(b'\n', text);
    if at < text.len() {
        (&text[..at], Some(&text[at + 1..]))
    } else {
        (text, None)
    }
}
