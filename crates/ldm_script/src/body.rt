//! Bodies in lines.
ghost use Rattle.std.specs.Prelude.{◌≡◌, ◌≤◌, ◌/◌, ◌++◌, [], IfSome, IsSome, length, drop, take, replicate, unwrap_or};
ghost use Rattle.std.specs.Option.{option_map};
ghost use Rattle.md5.specs.Md5.{md5};
ghost use Rattle.hex.specs.Hex.{decode_sized, is_hex_digit};
ghost use Rattle.std.specs.List.{list_all};
ghost use Rattle.std.specs.Result.{result_ok};
ghost use Rattle.ldm_script.specs.Bodies.{body_of, digits_of, filled};
ghost use Rattle.ldm_answers.specs.Number.{number_up_to};
ghost use Rattle.ldm_script.specs.OrderView.{IsBody, bytes_of};
ghost use Rattle.ldm_script.specs.declared.line.TheConstants.{LONGEST_LINE};

use crate::split::split_first;
use hex::FromHex;
use ldm_answers::read_number;
use ldm_types::Signature;
use md5::{Digest, Md5};

/// The most bytes of a body in a script.
pub const LONGEST_BODY: u32 = 1_048_576;

/// The body of a product, as a line spells it.
#[derive(Clone, Copy, Debug, PartialEq, Eq)]
pub enum Body<'a> {
    /// Hexadecimal digits of either case, two for each byte.
    Hex(&'a [u8]),
    /// So many bytes of one value.
    Fill { count: u32, byte: u8 },
}

impl Body<'_> {
    /// How many bytes the body has.
    pub(crate) fn size(&self) -> u32
        requires { IsBody self.now }
        ensures value { result ≡ length (bytes_of self.now) }
        ensures small { result ≤ LONGEST_BODY }
    {
        match *self {
            Body::Hex(digits) => (digits.len() / 2) as u32,
            Body::Fill { count, .. } => count,
        }
    }

    /// How many bytes the body has: none, where its digits spell none.
    pub(crate) fn len(&self) -> u32
        requires { length (bytes_of self.now) ≤ LONGEST_BODY }
        ensures { result ≡ length (bytes_of self.now) }
    {
        match *self {
            Body::Hex(digits) => digits_len(digits) as u32,
            Body::Fill { count, .. } => count,
        }
    }

    /// The MD5 digest of the body's bytes (RFC 1321).
    pub(crate) fn sign(&self) -> Signature
        requires { IsBody self.now }
        ensures { result.0 ≡ md5 (bytes_of self.now) }
    {
        match *self {
            Body::Hex(digits) => sign_digits(digits),
            Body::Fill { count, byte } => sign_fill(count, byte),
        }
    }
}

// How many bytes digits spell.
fn digits_len(digits: &[u8]) -> usize
    ensures { result ≡ length (unwrap_or (digits_of digits.now) []) }
{
    if digits.len() % 2 == 1 {
        return 0;
    }
    if are_digits(digits) {
        digits.len() / 2
    } else {
        0
    }
}

/// Writes the bytes of a body that was read at the front, leaves what is behind them, and answers how many they are.
pub fn body_into(body: &Body, into: &mut [u8]) -> usize
    requires read { IsBody body.now }
    requires room { length (bytes_of body.now) ≤ length into.old }
    ensures len { result ≡ length (bytes_of body.now) }
    ensures written { into.new ≡ bytes_of body.now ++ drop (length (bytes_of body.now)) into.old }
{
    match *body {
        Body::Hex(digits) => digits_into(digits, into),
        Body::Fill { count, byte } => {
            let count = count as usize;
            into[..count].fill(byte);
            count
        }
    }
}

fn digits_into(digits: &[u8], into: &mut [u8]) -> usize
    requires read { IsSome (digits_of digits.now) }
    requires room { length digits.now / 2 ≤ length into.old }
    ensures len { result ≡ length digits.now / 2 }
    ensures written { Some (take (length digits.now / 2) into.new) ≡ digits_of digits.now }
    ensures rest { drop (length digits.now / 2) into.new ≡ drop (length digits.now / 2) into.old }
{
    let count = digits.len() / 2;
    if hex::decode_to_slice(digits, &mut into[..count]).is_err() {
        unreachable!();
    }
    count
}

// How many digits are decoded at a time.
const PIECE: usize = 512;

fn sign_digits(digits: &[u8]) -> Signature
    requires { IsSome (digits_of digits.now) }
    ensures { Some result.0 ≡ option_map md5 (digits_of digits.now) }
{
    let mut hasher = Md5::new();
    let mut piece = [0; PIECE / 2];
    let mut at = 0;
    while at < digits.len() {
        let end = digits.len().min(at + PIECE);
        let count = digits_into(&digits[at..end], &mut piece);
        hasher.update(&piece[..count]);
        at = end;
    }
    Signature(hasher.finalize())
}

// How many bytes of one value are signed at a time.
const BLOCK: usize = 256;

fn sign_fill(count: u32, byte: u8) -> Signature
    ensures { result.0 ≡ md5 (replicate count byte) }
{
    let mut hasher = Md5::new();
    let block = [byte; BLOCK];
    let mut left = count as usize;
    while left > 0 {
        let part = left.min(BLOCK);
        hasher.update(&block[..part]);
        left -= part;
    }
    Signature(hasher.finalize())
}

/// The body that a field spells: `-` for no bytes; digits; or a count, a `*` and two digits.
/// `None` exactly where the field is none of these.
pub(crate) fn read_body(field: &[u8]) -> Option<Body<'_>>
    requires { length field.now ≤ LONGEST_LINE }
    ensures value { option_map bytes_of result ≡ body_of field.now }
    ensures fits { IfSome result IsBody }
{
    if field == b"-".as_slice() {
        return Some(Body::Hex(&field[1..]));
    }
    if field.is_empty() {
        return None;
    }
    let (front, behind) = split_first(field, b'*');
    let Some(behind) = behind else {
        return read_digits(field);
    };
    let (byte, others) = split_first(behind, b'*');
    if others.is_some() {
        return None;
    }
    read_fill(front, byte)
}

fn read_digits(digits: &[u8]) -> Option<Body<'_>>
    requires { length digits.now ≤ LONGEST_LINE }
    ensures value { option_map bytes_of result ≡ digits_of digits.now }
    ensures fits { IfSome result IsBody }
{
    if digits.len() % 2 == 1 {
        return None;
    }
    if are_digits(digits) {
        Some(Body::Hex(digits))
    } else {
        None
    }
}

// Whether each byte of a text is a hexadecimal digit.
fn are_digits(text: &[u8]) -> bool
    ensures { result ≡ list_all is_hex_digit text.now }
{
    text.iter().all(|byte| is_digit(*byte))
}

fn is_digit(byte: u8) -> bool
    ensures { result ≡ is_hex_digit byte }
{
    byte.is_ascii_hexdigit()
}

fn read_fill(count: &[u8], byte: &[u8]) -> Option<Body<'static>>
    ensures value { option_map bytes_of result ≡ filled (number_up_to LONGEST_BODY count.now)
        (result_ok (decode_sized byte.now 1)) }
    ensures fits { IfSome result IsBody }
{
    let count = read_number(count, u64::from(LONGEST_BODY))?;
    let [byte] = <[u8; 1]>::from_hex(byte).ok()?;
    Some(Body::Fill {
        count: count as u32,
        byte,
    })
}
