//! Texts cut at a byte.
ghost use Rattle.ldm_script.specs.Split.{Cuts};

use memchr::memchr;

/// The part of a text in front of the first separator, and what stands behind it, if there is a separator.
pub(crate) fn split_first(text: &[u8], separator: u8) -> (&[u8], Option<&[u8]>)
    ensures { Cuts separator text.now result.0.now result.1 }
{
    match memchr(separator, text) {
        None => (text, None),
        Some(at) => (&text[..at], Some(&text[at + 1..])),
    }
}
