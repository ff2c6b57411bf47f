//! The two lines that a bulletin begins with.
ghost use Rattle.std.specs.Prelude.{◌≡◌, ◌≤◌, None, Some, IfSome, IfNone, MatchOption, length, take, true, false};
ghost use Rattle.std.specs.List.{prefix_len};
ghost use Rattle.ldm_wmo.specs.Headings.{is_digit};
ghost use Rattle.ldm_wmo.specs.Lines.{begins_so, heading_in, is_numbered, line_of, number_in, number_of, rest_of};

use crate::heading::{LONG_FORM, LONGEST_HEADING, SHORT_FORM, fits};
use ldm_text::{is_blank_text, place_of};

/// Two carriage returns and a line feed.
pub(crate) const END_OF_LINE: &[u8] = b"\r\r\n";

/// The most digits of a number.
const MOST_DIGITS: usize = 5;

/// A line, and what stands behind its end.
#[derive(Clone, Copy, Debug)]
pub(crate) struct Split<'a> {
    pub(crate) line: &'a [u8],
    pub(crate) rest: &'a [u8],
}

/// The first line and what stands behind its end, if it has an end.
pub(crate) fn split_line(bytes: &[u8]) -> Option<Split<'_>>
    ensures line { IfSome result (λ split. split.line.now ≡ line_of bytes.now) }
    ensures rest { MatchOption result (rest_of bytes.now ≡ None) (λ split. rest_of bytes.now ≡ Some split.rest.now) }
{
    let length = place_of(b'\r', bytes);
    let rest = bytes[length..].strip_prefix(END_OF_LINE)?;
    Some(Split {
        line: &bytes[..length],
        rest,
    })
}

/// The number of a line of one to five digits and then any blanks.
pub(crate) fn number_in(line: &[u8]) -> Option<u32>
    ensures { result ≡ number_in line.now }
{
    let count = count_digits(line);
    if !is_numbered(line, count) {
        return None;
    }
    Some(number_of(&line[..count]))
}

// Whether a line of so many digits at its front has few enough, and then blanks alone.
fn is_numbered(line: &[u8], count: usize) -> bool
    requires { count ≤ length line.now }
    ensures { result ≡ is_numbered count line.now }
{
    count >= 1 && count <= MOST_DIGITS && is_blank_text(&line[count..])
}

// How many digits the bytes begin with.
fn count_digits(bytes: &[u8]) -> usize
    ensures count { result ≡ prefix_len is_digit bytes.now }
    ensures inside { result ≤ length bytes.now }
{
    bytes
        .iter()
        .take_while(|byte| byte.is_ascii_digit())
        .count()
}

/// The number that at most eight digits spell.
pub(crate) fn number_of(digits: &[u8]) -> u32
    requires few { length digits.now ≤ 8 }
    ensures { result ≡ number_of digits.now }
{
    let mut value = 0u32;
    for digit in digits {
        value = value * 10 + u32::from(digit.saturating_sub(b'0'));
    }
    value
}

/// The heading of a line of a heading and then any blanks.
#[tactic(auto, unfolding(crate::specs::Lines::heading_in))]
pub(crate) fn heading_in(line: &[u8]) -> Option<&[u8]>
    ensures heading { MatchOption result (heading_in line.now ≡ None)
        (λ heading. heading_in line.now ≡ Some heading.now) }
    ensures short { IfSome result (λ heading. length heading.now ≤ LONGEST_HEADING) }
{
    if let Some(heading) = heading_of_form(LONG_FORM, line) {
        return Some(heading);
    }
    heading_of_form(SHORT_FORM, line)
}

// The heading of that form, with which the line begins, where blanks alone stand behind it.
#[tactic(auto, using(crate::proofs::Forms::too_short))]
fn heading_of_form<'a>(form: &[u8], line: &'a [u8]) -> Option<&'a [u8]>
    ensures found { IfSome result
        (λ heading. (begins_so form.now (length form.now) line.now ≡ true)
        × (heading.now ≡ take (length form.now) line.now)) }
    ensures none { IfNone result (begins_so form.now (length form.now) line.now ≡ false) }
    ensures short { IfSome result (λ heading. length heading.now ≡ length form.now) }
{
    if line.len() < form.len() {
        return None;
    }
    let (heading, blanks) = line.split_at(form.len());
    if fits(form, heading) && is_blank_text(blanks) {
        Some(heading)
    } else {
        None
    }
}
