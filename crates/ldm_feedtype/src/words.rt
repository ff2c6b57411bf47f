//! What a word means: a name or a number.
ghost use Rattle.std.specs.Prelude.{◌≡◌, ◌+◌, ◌^◌, ◌<◌, ◌≤◌, length, map};
ghost use Rattle.std.specs.Str.{str_eq_ignore_ascii_case};
ghost use Rattle.ldm_feedtype.specs.Words.{lookup, named, numeral, hexadecimal, word_value};

use crate::fault::FeedFault;
use crate::names::NAMES;

/// The value of the word at that place of a text.
pub fn word_value(at: usize, word: &[u8]) -> Result<u32, FeedFault>
    requires { at + length word.now < 2 ^ 64 }
    ensures { result ≡ word_value at word.now }
{
    match word {
        [b'A'..=b'Z' | b'a'..=b'z', ..] => named(word).ok_or(FeedFault::Unknown { at }),
        [b'0', b'x', digits @ ..] => hexadecimal(at, digits),
        [b'0'..=b'9', ..] => numeral(10, at, at, word),
        _ => Err(FeedFault::Syntax { at }),
    }
}

fn named(word: &[u8]) -> Option<u32>
    ensures { result ≡ named word.now }
{
    lookup(&NAMES, word)
}

fn same_name(name: &[u8], word: &[u8]) -> bool
    ensures { result ≡ str_eq_ignore_ascii_case name.now word.now }
{
    name.eq_ignore_ascii_case(word)
}

fn lookup(mut rows: &[(&[u8], u32)], word: &[u8]) -> Option<u32>
    ensures { result ≡ lookup (map (λ row. (row.0.now, row.1)) rows.entry.now) word.now }
{
    while let [row, rest @ ..] = rows {
        if same_name(row.0, word) {
            return Some(row.1);
        }
        rows = rest;
    }
    None
}

// What follows `0x` at that place.
fn hexadecimal(at: usize, digits: &[u8]) -> Result<u32, FeedFault>
    requires { at + 2 + length digits.now < 2 ^ 64 }
    ensures { result ≡ hexadecimal at digits.now }
{
    if digits.is_empty() {
        return Err(FeedFault::Syntax { at: at + 2 });
    }
    numeral(16, at, at + 2, digits)
}

// The number that begins at `at`, whose digits stand from `place` on.
fn numeral(radix: u32, at: usize, place: usize, digits: &[u8]) -> Result<u32, FeedFault>
    requires low { 2 ≤ radix }
    requires high { radix ≤ 16 }
    requires room { place + length digits.now < 2 ^ 64 }
    ensures { result ≡ numeral radix at place 0 digits.now }
{
    let mut value: u32 = 0;
    for (i, byte) in digits.iter().enumerate() {
        let Some(digit) = char::from(*byte).to_digit(radix) else {
            return Err(FeedFault::Syntax { at: place + i });
        };
        let longer = u64::from(value) * u64::from(radix) + u64::from(digit);
        if longer > u64::from(u32::MAX) {
            return Err(FeedFault::Range { at });
        }
        value = longer as u32;
    }
    Ok(value)
}
