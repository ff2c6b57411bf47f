//! Bulletins as bytes.
ghost use Rattle.std.specs.Prelude.{◌≡◌, ◌<◌, ◌≤◌, ◌++◌, ◌∷◌, [], None, MatchResult, OnErr, OnOk, take, length};
ghost use Rattle.ldm_wmo.specs.Writing.{HasCause, digit, digits_of, fault_of, written, written_so};

use crate::bulletin::{CLOSING, STARTING, is_text};
use crate::fault::WriteFault;
use crate::heading::is_heading;
use crate::lines::END_OF_LINE;
use crate::stage::LARGEST_BULLETIN;
use std::alloc::AllocError;

/// The largest number of a bulletin.
pub const LARGEST_SEQNO: u32 = 99_999;

// The bytes of a bulletin besides those of number, heading and text.
const BESIDES: usize = STARTING.len() + 2 * END_OF_LINE.len() + CLOSING.len();

/// Appends the bulletin with that number, heading and text. The number has at least three digits, and no blanks follow
/// the number or the heading.
///
/// Where it answers a fault, the buffer holds what it held.
pub fn write_bulletin(
    seqno: u32,
    heading: &[u8],
    text: &[u8],
    out: &mut Vec<u8>,
) -> Result<(), WriteFault>
    ensures ok { OnOk result (out.new.items ≡ out.old.items ++ written seqno heading.now text.now) }
    ensures fault { MatchResult result (λ _. fault_of seqno heading.now text.now ≡ None)
        (HasCause (fault_of seqno heading.now text.now)) }
    ensures stays { OnErr result (out.new.items ≡ out.old.items) }
{
    if seqno > LARGEST_SEQNO {
        return Err(WriteFault::Seqno);
    }
    if !is_heading(heading) {
        return Err(WriteFault::Heading);
    }
    if !is_text(text) {
        return Err(WriteFault::Text);
    }
    let digits = all_digits(seqno);
    let digits = shown_digits(seqno, &digits);
    if text.len() > LARGEST_BULLETIN - (BESIDES + digits.len() + heading.len()) {
        return Err(WriteFault::Long);
    }
    let before = out.len();
    if append(digits, heading, text, out).is_err() {
        out.truncate(before);
        return Err(WriteFault::OutOfMemory);
    }
    Ok(())
}

// Five digits.
fn all_digits(seqno: u32) -> [u8; 5]
    ensures { result ≡ digit 10000 seqno ∷ digit 1000 seqno ∷ digit 100 seqno ∷ digit 10 seqno ∷ digit 1 seqno ∷ [] }
{
    [
        digit(seqno, 10_000),
        digit(seqno, 1000),
        digit(seqno, 100),
        digit(seqno, 10),
        digit(seqno, 1),
    ]
}

fn digit(number: u32, unit: u32) -> u8
    requires { 0 < unit }
    ensures { result ≡ digit unit number }
{
    b'0' + (number / unit % 10) as u8
}

// Those of the five digits that are written: at least three.
fn shown_digits(seqno: u32, digits: &[u8; 5]) -> &[u8]
    requires { digits.now ≡ digit 10000 seqno ∷ digit 1000 seqno ∷ digit 100 seqno ∷ digit 10 seqno ∷ digit 1 seqno
        ∷ [] }
    ensures digits { result.now ≡ digits_of seqno }
    ensures few { length result.now ≤ 5 }
{
    if seqno < 1000 {
        &digits[2..]
    } else if seqno < 10_000 {
        &digits[1..]
    } else {
        digits
    }
}

// Appends the parts of a bulletin, or some of them where memory ends.
fn append(digits: &[u8], heading: &[u8], text: &[u8], out: &mut Vec<u8>) -> Result<(), AllocError>
    ensures ok { OnOk result (out.new.items ≡ out.old.items ++ written_so digits.now heading.now text.now) }
    ensures behind { take (length out.old.items) out.new.items ≡ out.old.items }
{
    out.extend_from_slice(STARTING)?;
    out.extend_from_slice(digits)?;
    out.extend_from_slice(END_OF_LINE)?;
    out.extend_from_slice(heading)?;
    out.extend_from_slice(END_OF_LINE)?;
    out.extend_from_slice(text)?;
    out.extend_from_slice(CLOSING)
}
