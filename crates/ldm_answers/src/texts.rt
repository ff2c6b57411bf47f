//! Texts in lines: origins and idents.
ghost use Rattle.std.specs.Prelude.{◌≡◌, ◌≤◌, ◌<◌, ◌+◌, ◌*◌, ◌++◌, ◌==◌, ◌∷◌, ◌&&◌, not, false, [], IfSome, is_some, unwrap_or, length, bytes_eq, slice_index, decimal};
ghost use Rattle.std.specs.List.{list_all, list_any, flat_map};
ghost use Rattle.std.specs.Option.{option_map};
ghost use Rattle.arrayvec.specs.ArrayVec.{array_vec_len};
ghost use Rattle.hex.specs.Hex.{upper_digits};
ghost use Rattle.ldm_answers.specs.TextReads.{IsText, text_of, IsUnspelled, GivesByte};
ghost use Rattle.ldm_answers.specs.Texts.{is_plain as stands_for_itself, spelled_byte, spelled, unspelled, text_up_to};

use arrayvec::ArrayVec;
use hex::FromHex;
use itoa::Buffer;
use ldm_types::LONGEST_IDENT;

// Room for the spelling of the longest text.
const LONGEST_SPELLING: usize = 766;

/// A text that a field spells, where the field lies.
#[derive(Clone, Copy)]
pub enum Spelled<'a> {
    /// These bytes, which stand for themselves.
    Itself(&'a [u8]),
    /// The text that this field spells.
    Coded(&'a [u8]),
}

impl Spelled<'_> {
    /// The text.
    pub fn decoded(&self, most: usize) -> ArrayVec<u8, LONGEST_IDENT>
        requires most { most ≤ LONGEST_IDENT }
        requires text { IsText most self.now }
        ensures { result.items ≡ text_of most self.now }
    {
        match *self {
            Spelled::Itself(bytes) => {
                let mut text = ArrayVec::new();
                put(&mut text, bytes);
                text
            }
            Spelled::Coded(field) => {
                let Some(text) = decoded(field, most) else {
                    unreachable!();
                };
                text
            }
        }
    }
}

/// The text of at most `most` bytes, none of which is zero, that a field spells: bytes from 0x21 to 0x7E that stand
/// for themselves, and `%` with two upper-case hexadecimal digits for each other one and for `%`. `-` is the empty
/// text, and `%2D` the text `-`. `None` exactly where the field is no such spelling.
pub fn read_text(field: &[u8], most: usize) -> Option<Spelled<'_>>
    requires { most ≤ LONGEST_IDENT }
    ensures value { option_map (text_of most) result ≡ text_up_to most field.now }
    ensures text { IfSome result (IsText most) }
    ensures short { IfSome result (λ text. length (text_of most text) ≤ most) }
    ensures no_nul { IfSome result (λ text. list_any (λ byte. byte == 0) (text_of most text) ≡ false) }
{
    if field == b"-".as_slice() {
        return Some(Spelled::Itself(&field[1..]));
    }
    if field.len() <= most && spells_itself(field) {
        return Some(Spelled::Itself(field));
    }
    if is_text(field, most) {
        Some(Spelled::Coded(field))
    } else {
        None
    }
}

// Whether there is something in a field, and each byte of it stands for itself.
fn spells_itself(field: &[u8]) -> bool
    ensures { result ≡ (not (length field.now == 0) && list_all stands_for_itself field.now) }
{
    !field.is_empty() && are_plain(field)
}

fn are_plain(text: &[u8]) -> bool
    ensures { result ≡ list_all stands_for_itself text.now }
{
    text.iter().all(|byte| is_plain(*byte))
}

// Whether a field spells a text of at most `most` bytes, by the bytes that it stands for.
#[cold]
#[inline(never)]
fn is_text(field: &[u8], most: usize) -> bool
    requires { most ≤ LONGEST_IDENT }
    ensures value { result ≡ is_some (text_up_to most field.now) }
    ensures short { length (unwrap_or (text_up_to most field.now) []) ≤ most }
    ensures no_nul { list_any (λ byte. byte == 0) (unwrap_or (text_up_to most field.now) []) ≡ false }
{
    decoded(field, most).is_some()
}

// The text that a field spells, by the bytes that it stands for.
fn decoded(field: &[u8], most: usize) -> Option<ArrayVec<u8, LONGEST_IDENT>>
    requires { most ≤ LONGEST_IDENT }
    ensures value { option_map (λ text. text.items) result ≡ text_up_to most field.now }
    ensures short { IfSome result (λ text. array_vec_len text ≤ most) }
    ensures no_nul { IfSome result (λ text. list_any (λ byte. byte == 0) text.items ≡ false) }
{
    if field == b"-".as_slice() {
        return Some(ArrayVec::new());
    }
    let text = unspell(field, most)?;
    if !is_spelling(field, text.as_slice()) || text.as_slice().contains(&0) {
        return None;
    }
    Some(text)
}

// Whether a field is the spelling of a text.
fn is_spelling(field: &[u8], text: &[u8]) -> bool
    requires { length text.now ≤ LONGEST_IDENT }
    ensures { result ≡ bytes_eq (spelled text.now) field.now }
{
    let mut spelling = ArrayVec::<u8, LONGEST_SPELLING>::new();
    spell(text, &mut spelling);
    spelling.as_slice() == field
}

// The bytes that a field stands for, where `%` and two hexadecimal digits stand for one, if they are at most so many.
fn unspell(field: &[u8], most: usize) -> Option<ArrayVec<u8, LONGEST_IDENT>>
    requires { most ≤ LONGEST_IDENT }
    ensures { IsUnspelled most (unspelled field.now) (option_map (λ text. text.items) result) }
{
    let mut text = ArrayVec::<u8, LONGEST_IDENT>::new();
    let mut at = 0;
    while at < field.len() {
        let (byte, next) = byte_at(field, at)?;
        if text.len() >= most {
            return None;
        }
        text.push(byte);
        at = next;
    }
    Some(text)
}

// The byte that stands at that place of a field, and the place behind it.
fn byte_at(field: &[u8], at: usize) -> Option<(u8, usize)>
    requires { at < length field.now }
    ensures { GivesByte field.now at result }
{
    if field[at] != b'%' {
        return Some((field[at], at + 1));
    }
    if field.len() - at < 3 {
        return None;
    }
    let [byte] = <[u8; 1]>::from_hex(&field[at + 1..at + 3]).ok()?;
    Some((byte, at + 3))
}

/// Appends the spelling of a text.
pub fn spell<const N: usize>(text: &[u8], out: &mut ArrayVec<u8, N>)
    requires { array_vec_len out.old + 3 * length text.now + 1 ≤ N }
    ensures text { out.new.items ≡ out.old.items ++ spelled text.now }
    ensures len { array_vec_len out.new ≤ array_vec_len out.old + 3 * length text.now + 1 }
{
    if text.is_empty() {
        out.push(b'-');
    } else if text == b"-".as_slice() {
        put(out, b"%2D");
    } else {
        spell_bytes(text, out);
    }
}

fn spell_bytes<const N: usize>(text: &[u8], out: &mut ArrayVec<u8, N>)
    requires { array_vec_len out.old + 3 * length text.now ≤ N }
    ensures text { out.new.items ≡ out.old.items ++ flat_map spelled_byte text.now }
    ensures len { array_vec_len out.new ≤ array_vec_len out.old + 3 * length text.now }
{
    for byte in text {
        spell_byte(*byte, out);
    }
}

fn spell_byte<const N: usize>(byte: u8, out: &mut ArrayVec<u8, N>)
    requires { array_vec_len out.old + 3 ≤ N }
    ensures text { out.new.items ≡ out.old.items ++ spelled_byte byte }
    ensures len { array_vec_len out.new ≤ array_vec_len out.old + 3 }
{
    if is_plain(byte) {
        out.push(byte);
    } else {
        out.push(b'%');
        out.push(digit(byte / 16));
        out.push(digit(byte % 16));
    }
}

// Whether a byte stands for itself.
fn is_plain(byte: u8) -> bool
    ensures { result ≡ stands_for_itself byte }
{
    byte >= 0x21 && byte <= 0x7e && byte != b'%'
}

// The upper-case hexadecimal digit of a value.
fn digit(value: u8) -> u8
    requires { value < 16 }
    ensures { result ≡ slice_index upper_digits value }
{
    b"0123456789ABCDEF"[value as usize]
}

/// Appends bytes, for which there is room.
pub fn put<const N: usize>(out: &mut ArrayVec<u8, N>, bytes: &[u8])
    requires { array_vec_len out.old + length bytes.now ≤ N }
    ensures text { out.new.items ≡ out.old.items ++ bytes.now }
    ensures len { array_vec_len out.new ≡ array_vec_len out.old + length bytes.now }
{
    if out.try_extend_from_slice(bytes).is_err() {
        unreachable!();
    }
}

/// Appends a number in decimal digits, of which there are at most 20. There is room for so many.
pub fn put_number<const N: usize>(out: &mut ArrayVec<u8, N>, n: u64)
    requires { array_vec_len out.old + 20 ≤ N }
    ensures text { out.new.items ≡ out.old.items ++ decimal n }
    ensures len { array_vec_len out.new ≤ array_vec_len out.old + 20 }
{
    let mut buffer = Buffer::new();
    put(out, buffer.format(n).as_bytes());
}
