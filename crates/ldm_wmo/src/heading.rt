//! Abbreviated headings.
ghost use Rattle.std.specs.Prelude.{◌≡◌, ◌||◌};
ghost use Rattle.ldm_wmo.specs.Headings.{fits, is_heading, stands_for};

/// The most bytes of a heading.
pub const LONGEST_HEADING: usize = 22;

/// A heading with an indicator, in the standard's notation: T, A and B stand for a letter, C for a letter or a digit,
/// i, Y, G and g for a digit.
pub(crate) const LONG_FORM: &[u8] = b"TTAAii CCCC YYGGgg BBB";

/// A heading without one.
pub(crate) const SHORT_FORM: &[u8] = b"TTAAii CCCC YYGGgg";

/// Whether the bytes are a heading.
pub(crate) fn is_heading(bytes: &[u8]) -> bool
    ensures { result ≡ is_heading bytes.now }
{
    fits(SHORT_FORM, bytes) || fits(LONG_FORM, bytes)
}

/// Whether the bytes are as these symbols say, one for one.
pub(crate) fn fits(form: &[u8], bytes: &[u8]) -> bool
    ensures { result ≡ fits form.now bytes.now }
{
    if form.len() != bytes.len() {
        return false;
    }
    for (i, byte) in bytes.iter().enumerate() {
        if !stands_for(form[i], *byte) {
            return false;
        }
    }
    true
}

fn stands_for(symbol: u8, byte: u8) -> bool
    ensures { result ≡ stands_for symbol byte }
{
    match symbol {
        b'T' | b'A' | b'B' => byte.is_ascii_uppercase(),
        b'C' => byte.is_ascii_uppercase() || byte.is_ascii_digit(),
        b' ' => byte == b' ',
        _ => byte.is_ascii_digit(),
    }
}
