//! What the report is, by its hours; and worked examples that compute.
ghost use Rattle.std.specs.Prelude.{◌≡◌, ◌++◌, ℕ, List, [], ◌∷◌, codes};
ghost use Rattle.ldm_stats.specs.Examples.{first, second, later, early};
ghost use Rattle.ldm_stats.specs.Report.{hour_text, hours_of, lines_by, report, AreRising};
ghost use Rattle.ldm_stats.specs.Totals.{Product, totals};

/// The report of products is the lines of its hours, one behind the other: each hour of the totals once, in ascending
/// order.
pub fn report_is_its_hours()
    ensures joined { (window : ℕ) (products : List Product) →
        report window products ≡ lines_by (hours_of (totals window products)) (totals window products) }
    ensures rising { (window : ℕ) (products : List Product) → AreRising (hours_of (totals window products)) }
{}

/// Worked examples of the report and of hours.
pub fn worked_examples()
    ensures one_hour { report 24 (first ∷ second ∷ []) ≡ codes "2024030100 0x00000002 h 2 16 3000000" ++ 10 ∷ [] }
    ensures next_hour { report 1 (first ∷ second ∷ later ∷ []) ≡ codes "2024030101 0x00000002 h 1 4 0" ++ 10 ∷ [] }
    ensures first_hour { report 24 (early ∷ []) ≡ codes "1970010100 0x00000001 - 1 7 0" ++ 10 ∷ [] }
    ensures last_of_year { hour_text 473351 ≡ codes "2023123123" }
    ensures first_of_year { hour_text 473352 ≡ codes "2024010100" }
    ensures hours { hours_of (totals 24 (later ∷ first ∷ second ∷ early ∷ [])) ≡ 474792 ∷ 474793 ∷ [] }
{}
