//! What a bulletin's bytes say.
ghost use Rattle.std.specs.Prelude.{◌≡◌, ◌≤◌, None, Some, IfSome, MatchOption, length};
ghost use Rattle.ldm_wmo.specs.Bulletins.{bulletin_of, has_no_mark, is_closed_text, is_text_of, starting};
ghost use Rattle.ldm_wmo.specs.Lines.{behind};

use crate::heading::LONGEST_HEADING;
use crate::kind::Kind;
use crate::lines::{heading_in, number_in, split_line};
use memchr::memchr2;

/// The byte with which a bulletin begins.
pub(crate) const START: u8 = 1;

/// The byte with which a bulletin ends.
pub(crate) const END: u8 = 3;

/// The bytes with which a bulletin begins.
pub(crate) const STARTING: &[u8] = b"\x01\r\r\n";

/// The bytes with which a bulletin ends.
pub(crate) const CLOSING: &[u8] = b"\r\r\n\x03";

/// What the two lines of a bulletin say.
#[derive(Clone, Copy, Debug)]
pub(crate) struct Reading<'a> {
    pub(crate) seqno: u32,
    pub(crate) heading: &'a [u8],
}

/// What a bulletin of that kind says, if the bytes are one.
pub(crate) fn read_bulletin(kind: Kind, bytes: &[u8]) -> Option<Reading<'_>>
    ensures read { MatchOption result (bulletin_of kind bytes.now ≡ None)
        (λ read. bulletin_of kind bytes.now ≡ Some (record { seqno = read.seqno; heading = read.heading.now })) }
    ensures short { IfSome result (λ read. length read.heading.now ≤ LONGEST_HEADING) }
{
    let rest = behind_starting(bytes)?;
    let first = split_line(rest)?;
    let seqno = number_in(first.line)?;
    let second = split_line(first.rest)?;
    let heading = heading_in(second.line)?;
    if !is_closed_text(kind, second.rest) {
        return None;
    }
    Some(Reading { seqno, heading })
}

// What stands behind the bytes with which a bulletin begins.
fn behind_starting(bytes: &[u8]) -> Option<&[u8]>
    ensures { MatchOption result (behind starting bytes.now ≡ None)
        (λ rest. behind starting bytes.now ≡ Some rest.now) }
{
    bytes.strip_prefix(STARTING)
}

// Whether it is a text of that kind, and then the end of a bulletin.
#[tactic(auto, unfolding(crate::specs::Bulletins::is_closed_text))]
fn is_closed_text(kind: Kind, bytes: &[u8]) -> bool
    ensures { result ≡ is_closed_text kind bytes.now }
{
    match bytes.strip_suffix(CLOSING) {
        Some(text) => is_text_of(kind, text),
        None => false,
    }
}

fn is_text_of(kind: Kind, text: &[u8]) -> bool
    ensures { result ≡ is_text_of kind text.now }
{
    match kind {
        Kind::Alphanumeric => is_text(text),
        Kind::Binary | Kind::Facsimile => true,
    }
}

/// Whether it has neither a 1 nor a 3.
pub(crate) fn is_text(text: &[u8]) -> bool
    ensures { result ≡ has_no_mark text.now }
{
    memchr2(START, END, text).is_none()
}
