//! Instants as dates and times of day.
ghost use Rattle.std.specs.Prelude.{◌≡◌, ◌+◌, ◌*◌, ◌/◌, ◌%◌, ◌≤◌, ◌++◌, ◌∷◌, [], length};
ghost use Rattle.arrayvec.specs.ArrayVec.{array_vec_len};
ghost use Rattle.ldm_pqact_match.specs.Dates.{date_of_day};
ghost use Rattle.ldm_pqact_match.specs.Substitution.{last_digits};
ghost use Rattle.ldm_stats.specs.declared.place.TheConstants.{LAST_HOUR};
ghost use Rattle.ldm_watch.specs.Instants.{date_text, instant_text as text_of};

use arrayvec::ArrayVec;
use ldm_answers::put;
use ldm_stats::hour_text;
use ldm_types::Micros;

// `YYYY-MM-DDTHH:MM:SS.UUUUUUZ`
pub(crate) const LENGTH: usize = 27;

/// `YYYY-MM-DDTHH:MM:SS.UUUUUUZ`: an instant in UTC, with its microseconds.
pub(crate) fn instant_text(instant: Micros) -> ArrayVec<u8, LENGTH>
    ensures text { result.items ≡ text_of instant }
    ensures len { array_vec_len result ≡ 27 }
{
    let micros = instant.get();
    let seconds = micros / 1_000_000;
    let mut text = ArrayVec::new();
    put_date(&mut text, (seconds / 3600) as u32);
    text.push(b':');
    put_digits(&mut text, 2, (seconds % 3600 / 60) as u32);
    text.push(b':');
    put_digits(&mut text, 2, (seconds % 60) as u32);
    text.push(b'.');
    put_digits(&mut text, 6, (micros % 1_000_000) as u32);
    text.push(b'Z');
    text
}

// `YYYY-MM-DDTHH`: the hour so many behind the first of 1970.
fn put_date(text: &mut ArrayVec<u8, LENGTH>, hour: u32)
    requires empty { text.old.items ≡ [] }
    requires bound { hour ≤ LAST_HOUR }
    ensures text { text.new.items ≡ date_text (date_of_day (hour / 24)) ++ 84 ∷ last_digits 2 (hour % 24) }
    ensures len { array_vec_len text.new ≡ 13 }
{
    let digits = hour_text(hour);
    let digits = digits.as_slice();
    put(text, &digits[..4]);
    text.push(b'-');
    put(text, &digits[4..6]);
    text.push(b'-');
    put(text, &digits[6..8]);
    text.push(b'T');
    put(text, &digits[8..10]);
}

// The last so many decimal digits of a number.
fn put_digits(text: &mut ArrayVec<u8, LENGTH>, count: usize, number: u32)
    requires { array_vec_len text.old + count ≤ LENGTH }
    ensures text { text.new.items ≡ text.old.items ++ last_digits count number }
    ensures len { array_vec_len text.new ≡ array_vec_len text.old + count }
{
    if count == 0 {
        return;
    }
    put_digits(text, count - 1, number / 10);
    text.push(b'0' + (number % 10) as u8);
}
