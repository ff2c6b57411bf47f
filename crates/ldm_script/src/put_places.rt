//! Places that are written, a blank in front of each.
ghost use Rattle.std.specs.Prelude.{◌≡◌, ◌+◌, ◌≤◌, ◌++◌};
ghost use Rattle.arrayvec.specs.ArrayVec.{array_vec_len};
ghost use Rattle.ldm_answers.specs.Answer.{blank_field};
ghost use Rattle.ldm_script.specs.Spelling.{place_text, reserve_place_text, IsPlace, IsReservePlace};

use crate::order::{Place, ReservePlace};
use ldm_answers::{LONGEST_ANSWER, Text, put_blank, put_blank_number};

/// Appends the place of a cursor.
pub(crate) fn put_place(out: &mut Text, k: Place)
    requires { array_vec_len out.old + 21 ≤ LONGEST_ANSWER }
    ensures text { out.new.items ≡ out.old.items ++ blank_field (place_text k) }
    ensures len { array_vec_len out.new ≤ array_vec_len out.old + 21 }
    ensures bound { IsPlace k }
{
    match k {
        Place::At(k) => put_blank_number(out, u64::from(k.get())),
        Place::Last => put_blank(out, b"."),
    }
}

/// Appends the place of a reservation.
pub(crate) fn put_reserve_place(out: &mut Text, r: ReservePlace)
    requires { array_vec_len out.old + 21 ≤ LONGEST_ANSWER }
    ensures text { out.new.items ≡ out.old.items ++ blank_field (reserve_place_text r) }
    ensures len { array_vec_len out.new ≤ array_vec_len out.old + 21 }
    ensures bound { IsReservePlace r }
{
    match r {
        ReservePlace::At(r) => put_blank_number(out, u64::from(r.get())),
        ReservePlace::Last => put_blank(out, b"."),
    }
}
