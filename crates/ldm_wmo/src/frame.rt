//! What stands before a message in a frame.
ghost use Rattle.std.specs.Prelude.{◌≡◌, ◌<◌, ◌≤◌, IfSome, MatchOption, None, Some, false, length, true};
ghost use Rattle.std.specs.List.{list_all};
ghost use Rattle.ldm_wmo.specs.declared.stage.TheConstants.{LARGEST_BULLETIN};
ghost use Rattle.ldm_wmo.specs.Frames.{head_of, is_enclosed, is_size, kind_of};
ghost use Rattle.ldm_wmo.specs.Headings.{is_digit};
ghost use Rattle.ldm_wmo.specs.Lines.{number_of};

use crate::bulletin::{END, START};
use crate::kind::Kind;
use crate::lines::number_of;
use crate::stage::LARGEST_BULLETIN;

/// The bytes of a length and a type.
pub(crate) const HEAD_LENGTH: usize = 10;

/// What stands in place of a length and a type where a file of messages ends.
pub(crate) const FILE_END: &[u8] = b"00000000";

// The digits of a length.
const DIGITS: usize = 8;

/// The length and the type of a message.
#[derive(Clone, Copy, Debug)]
pub(crate) struct FrameHead {
    pub(crate) size: usize,
    pub(crate) kind: Kind,
}

/// The length and the type that ten bytes are, if they are.
pub(crate) fn read_head(bytes: &[u8]) -> Option<FrameHead>
    requires { length bytes.now ≡ HEAD_LENGTH }
    ensures read { MatchOption result (head_of bytes.now ≡ None)
        (λ head. head_of bytes.now ≡ Some (record { size = head.size; kind = head.kind })) }
    ensures some { IfSome result (λ head. 0 < head.size) }
    ensures fits { IfSome result (λ head. head.size ≤ LARGEST_BULLETIN) }
{
    let (digits, letters) = bytes.split_at(DIGITS);
    let size = size_in(digits)?;
    let kind = kind_of(letters)?;
    Some(FrameHead { size, kind })
}

// The length that eight digits spell, if they are digits, and a message may have it.
fn size_in(digits: &[u8]) -> Option<usize>
    requires { length digits.now ≡ DIGITS }
    ensures read { MatchOption result (is_size digits.now ≡ false) (λ _. is_size digits.now ≡ true) }
    ensures size { IfSome result (λ size. size ≡ number_of digits.now) }
    ensures some { IfSome result (λ size. 0 < size) }
    ensures fits { IfSome result (λ size. size ≤ LARGEST_BULLETIN) }
{
    if !are_digits(digits) {
        return None;
    }
    let size = number_of(digits) as usize;
    if 1 <= size && size <= LARGEST_BULLETIN {
        Some(size)
    } else {
        None
    }
}

fn are_digits(bytes: &[u8]) -> bool
    ensures { result ≡ list_all is_digit bytes.now }
{
    bytes.iter().all(|byte| byte.is_ascii_digit())
}

fn kind_of(letters: &[u8]) -> Option<Kind>
    ensures { result ≡ kind_of letters.now }
{
    if letters == b"AN".as_slice() {
        Some(Kind::Alphanumeric)
    } else if letters == b"BI".as_slice() {
        Some(Kind::Binary)
    } else if letters == b"FX".as_slice() {
        Some(Kind::Facsimile)
    } else {
        None
    }
}

/// Whether a message begins with its starting byte and ends with its closing one, as one of the right length does.
#[tactic(auto, unfolding(crate::specs::Frames::is_enclosed))]
pub(crate) fn is_enclosed(bytes: &[u8]) -> bool
    ensures { result ≡ is_enclosed bytes.now }
{
    !bytes.is_empty() && bytes[0] == START && bytes[bytes.len() - 1] == END
}
