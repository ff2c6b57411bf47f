//! Numbers in text.
ghost use Rattle.std.specs.Prelude.{◌≡◌, ◌<◌, ◌≤◌, IfSome};
ghost use Rattle.ldm_answers.specs.Number.{number_up_to, number_below, up_to, digits_from};

/// The number, at most `most`, that a text spells: decimal digits without a sign or a leading zero, `0` itself
/// apart. `None` exactly where the text is no such number.
pub fn read_number(text: &[u8], most: u64) -> Option<u64>
    ensures value { result ≡ number_up_to most text.now }
    ensures bound { IfSome result (λ n. n ≤ most) }
{
    if text.is_empty() || (text[0] == b'0' && text.len() > 1) {
        return None;
    }
    read_digits(text, most)
}

/// The number below `limit` that a text spells. `None` exactly where the text is no such number.
pub fn read_number_below(text: &[u8], limit: u32) -> Option<u32>
    ensures value { result ≡ number_below limit text.now }
    ensures bound { IfSome result (λ n. n < limit) }
{
    let most = limit.checked_sub(1)?;
    let number = read_number(text, u64::from(most))?;
    Some(number as u32)
}

// The number, at most `most`, that digits spell, with leading zeros or none.
fn read_digits(text: &[u8], most: u64) -> Option<u64>
    ensures value { result ≡ up_to most (digits_from 0 text.now) }
    ensures bound { IfSome result (λ n. n ≤ most) }
{
    let mut number = 0u64;
    for byte in text {
        if !byte.is_ascii_digit() {
            return None;
        }
        number = number
            .checked_mul(10)?
            .checked_add(u64::from(*byte - b'0'))?;
    }
    if number <= most { Some(number) } else { None }
}
