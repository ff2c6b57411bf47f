//! The text of a set of feedtypes.
ghost use Rattle.std.specs.Prelude.{◌≡◌, ◌<◌, Some, Ok};
ghost use Rattle.std.specs.Char.{digit_char};
ghost use Rattle.ldm_feedtype.specs.FeedSets.{set_of};
ghost use Rattle.ldm_feedtype.specs.Reading.{feed_set, feed_number};
ghost use Rattle.ldm_feedtype.specs.Text.{hex_digits, feed_digits};

use arrayvec::ArrayVec;
use ldm_types::Feed;

/// The text of a set of feedtypes: `0x` and eight lower-case hexadecimal digits.
pub fn feed_text(feed: Feed) -> ArrayVec<u8, 16>
    ensures digits { result.items ≡ feed_digits feed.0 }
    ensures set { feed_set result.items ≡ Ok (set_of feed.0) }
    ensures read_back { feed_number result.items ≡ Some feed.0 }
{
    let mut text = ArrayVec::new();
    text.push(b'0');
    text.push(b'x');
    if text.try_extend_from_slice(&digits_of(feed.0)).is_err() {
        unreachable!();
    }
    text
}

#[tactic(auto, unfolding(crate::specs::Text::hex_digits))]
fn digits_of(number: u32) -> [u8; 8]
    ensures { result ≡ hex_digits 8 number }
{
    let mut digits = [b'0'; 8];
    let mut rest = number;
    let mut place = 8;
    while place > 0 {
        place -= 1;
        digits[place] = digit(rest % 16);
        rest /= 16;
    }
    digits
}

fn digit(value: u32) -> u8
    requires { value < 16 }
    ensures { result ≡ digit_char value }
{
    if value < 10 {
        b'0' + value as u8
    } else {
        b'a' + (value - 10) as u8
    }
}
