//! A law of dates, and a check of the definitions: worked examples that compute.
ghost use Rattle.std.specs.Prelude.{◌≡◌, ℕ, [], ◌∷◌, codes, true, false};
ghost use Rattle.ldm_types.specs.Info.{Metadata};
ghost use Rattle.ldm_pqact_conf.specs.Entries.{EntryView};
ghost use Rattle.ldm_pqact_match.specs.Choice.{decision_for};
ghost use Rattle.ldm_pqact_match.specs.Days.{first_no_day, groups_asked, is_day, refused_group};

/// An entry is refused as `NoDate` exactly where its forms ask for the date of a group whose part of the ident is no
/// day: it is not one or two digits of a value from 1 to 31. It is told by the first such group in the order of the
/// words.
pub fn no_date_is_no_day()
    ensures { (info : Metadata) (time : ℕ) (entry : EntryView)
        → refused_group (decision_for info time entry) ≡ first_no_day info entry }
{}

/// Worked examples of days, and of the groups that words ask for.
pub fn worked_examples_of_days()
    ensures zero { is_day (codes "0") ≡ false }
    ensures one { is_day (codes "1") ≡ true }
    ensures last { is_day (codes "31") ≡ true }
    ensures behind { is_day (codes "32") ≡ false }
    ensures two_zeros { is_day (codes "00") ≡ false }
    ensures leading_zero { is_day (codes "07") ≡ true }
    ensures three_digits { is_day (codes "007") ≡ false }
    ensures empty { is_day [] ≡ false }
    ensures sign { is_day (codes "+7") ≡ false }
    ensures letter { is_day (codes "1a") ≡ false }
    ensures asked { groups_asked (codes "a(\\3:dd)\\1" ∷ codes "%d(\\2:hh)(\\3:x)(\\0:dd)" ∷ codes "(\\9:mmm)" ∷ []) ≡ 3
        ∷ 2 ∷ 9 ∷ [] }
{}
