//! Bytes as text, for what is read.

use std::alloc::Global;

/// The bytes of a word in hexadecimal digits, where it spells some and there is memory for them. `-` is no bytes. A
/// word may be parts with `_` between them, and a part may say how often its bytes stand there: `80_16x00` is 17 bytes.
pub fn bytes_in(alloc: Global, word: &str) -> Option<Vec<u8>> {
    let mut bytes = Vec::new(alloc);
    if word == "-" {
        return Some(bytes);
    }
    for part in word.split('_') {
        add_part(alloc, &mut bytes, part)?;
    }
    Some(bytes)
}

fn add_part(alloc: Global, bytes: &mut Vec<u8>, part: &str) -> Option<()> {
    let (times, digits) = part.split_once('x').unwrap_or(("1", part));
    let times = times.parse::<u32>().ok()?;
    let unit = hex::decode(alloc, digits).ok()?;
    add_times(bytes, times, &unit)
}

fn add_times(bytes: &mut Vec<u8>, times: u32, unit: &[u8]) -> Option<()> {
    for _ in 0..times {
        bytes.extend_from_slice(unit).ok()?;
    }
    Some(())
}

/// The bytes of text in which `\n`, `\r`, `\t`, `\0` and `\\` stand for one byte each, and `\xHH` for the byte of these
/// two hexadecimal digits, where it spells some and there is memory for them.
pub fn text_in(alloc: Global, text: &str) -> Option<Vec<u8>> {
    let mut bytes = Vec::new(alloc);
    let mut rest = text;
    for _ in 0..text.len() {
        let Some((plain, escape)) = rest.split_once('\\') else {
            break;
        };
        bytes.extend_from_slice(plain.as_bytes()).ok()?;
        let (byte, behind) = escaped(alloc, escape)?;
        bytes.push(byte).ok()?;
        rest = behind;
    }
    bytes.extend_from_slice(rest.as_bytes()).ok()?;
    Some(bytes)
}

// The byte that is meant behind a backslash, and the rest.
fn escaped(alloc: Global, escape: &str) -> Option<(u8, &str)> {
    match escape.strip_prefix('x') {
        Some(digits) => {
            let (digits, rest) = digits.split_at_checked(2)?;
            Some((byte_of(alloc, digits)?, rest))
        }
        None => {
            let (letter, rest) = escape.split_at_checked(1)?;
            Some((byte_of_letter(letter)?, rest))
        }
    }
}

fn byte_of(alloc: Global, digits: &str) -> Option<u8> {
    hex::decode(alloc, digits).ok()?.first().copied()
}

fn byte_of_letter(letter: &str) -> Option<u8> {
    match letter {
        "n" => Some(b'\n'),
        "r" => Some(b'\r'),
        "t" => Some(b'\t'),
        "0" => Some(0),
        "\\" => Some(b'\\'),
        _ => None,
    }
}
