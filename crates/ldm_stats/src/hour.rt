//! Hours as texts.
ghost use Rattle.std.specs.Prelude.{◌≡◌, ◌+◌, ◌*◌, ◌<◌, ◌≤◌, ◌++◌, pos};
ghost use Rattle.arrayvec.specs.ArrayVec.{array_vec_len};
ghost use Rattle.jiff_core.specs.Date.{epoch_day};
ghost use Rattle.ldm_pqact_match.specs.Dates.{date_of_day};
ghost use Rattle.ldm_pqact_match.specs.Substitution.{last_digits};
ghost use Rattle.ldm_stats.specs.Report.{hour_text as text_of};

use crate::place::LAST_HOUR;
use arrayvec::ArrayVec;
use jiff_core::civil::Date;

/// `YYYYMMDDHH`: the hour so many behind the first of 1970, in UTC.
pub fn hour_text(hour: u32) -> ArrayVec<u8, 10>
    requires { hour ≤ LAST_HOUR }
    ensures text { result.items ≡ text_of hour }
    ensures len { array_vec_len result ≡ 10 }
{
    let date = civil(hour / 24);
    let mut text = ArrayVec::new();
    put_two(date.year / 100, &mut text);
    put_two(date.year % 100, &mut text);
    put_two(date.month, &mut text);
    put_two(date.day, &mut text);
    put_two(hour % 24, &mut text);
    text
}

// A date of the calendar; the month and the day are counted from 1.
#[derive(Clone, Copy)]
struct CivilDay {
    year: u32,
    month: u32,
    day: u32,
}

// The date of a day, counted from the first of 1970.
fn civil(day: u32) -> CivilDay
    requires { day ≤ 60000 }
    ensures year { result.year ≡ (date_of_day day).year }
    ensures month { result.month ≡ (date_of_day day).month }
    ensures day { result.day ≡ (date_of_day day).day }
    ensures bound { result.year ≤ 2200 }
{
    let date = shown_on(day);
    CivilDay {
        year: date.year as u32,
        month: u32::from(date.month),
        day: u32::from(date.day),
    }
}

fn shown_on(day: u32) -> Date
    requires { day ≤ 60000 }
    ensures { epoch_day result ≡ pos day }
{
    Date::from_unix_epoch_day(i64::from(day)).unwrap()
}

// The last two decimal digits of a number.
fn put_two(number: u32, out: &mut ArrayVec<u8, 10>)
    requires { array_vec_len out.old ≤ 8 }
    ensures text { out.new.items ≡ out.old.items ++ last_digits 2 number }
    ensures len { array_vec_len out.new ≡ array_vec_len out.old + 2 }
{
    out.push(b'0' + (number / 10 % 10) as u8);
    out.push(b'0' + (number % 10) as u8);
}
