//! Lines of the report.
ghost use Rattle.std.specs.Prelude.{◌≡◌, ◌+◌, ◌≤◌, ◌++◌, []};
ghost use Rattle.arrayvec.specs.ArrayVec.{array_vec_len};
ghost use Rattle.ldm_answers.specs.Answer.{blank_number};
ghost use Rattle.ldm_stats.specs.Report.{line_of};

use crate::hour::hour_text;
use crate::place::Place;
use crate::total::Total;
use ldm_answers::{Text, put, put_number, text_into};
use ldm_feedtype::feed_text;

/// Writes `YYYYMMDDHH FEED ORIGIN COUNT BYTES LATENCY` and a newline.
pub fn put_line(place: &Place, total: Total, line: &mut Text)
    requires { line.old.items ≡ [] }
    ensures { line.new.items ≡ line_of (place.now, total) }
{
    put(line, hour_text(place.hour()).as_slice());
    line.push(b' ');
    put(line, feed_text(place.feed()).as_slice());
    line.push(b' ');
    text_into(place.origin(), line);
    put_field(u64::from(total.count()), line);
    put_field(total.bytes(), line);
    put_field(total.latency(), line);
    line.push(b'\n');
}

// A blank and a number.
fn put_field(number: u64, line: &mut Text)
    requires { array_vec_len line.old + 21 ≤ 16384 }
    ensures text { line.new.items ≡ line.old.items ++ blank_number number }
    ensures len { array_vec_len line.new ≤ array_vec_len line.old + 21 }
{
    line.push(b' ');
    put_number(line, number);
}
