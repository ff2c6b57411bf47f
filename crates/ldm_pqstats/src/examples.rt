//! A check of the definitions: worked examples that compute.
ghost use Rattle.std.specs.Prelude.{◌≡◌, ◌++◌, ◌<◌, ℕ, Err, List, Ok, [], ◌∷◌, codes, length, true};
ghost use Rattle.ldm_stats.specs.Table.{Table};
ghost use Rattle.ldm_tools.specs.declared.put_fault.PutFault.TheVariants.{Denied};
ghost use Rattle.ldm_tools.specs.Owing.{AreOwed};
ghost use Rattle.ldm_pqstats.specs.declared.end.SendFault.TheVariants.{Put, TooLong};
ghost use Rattle.ldm_pqstats.specs.Owing.{ending_owed, sent_of};
ghost use Rattle.ldm_pqstats.specs.Samples.{sample, sample_answers, sample_denial, sample_hours};
ghost use Rattle.ldm_pqstats.specs.Sending.{body_of, ident_of};

/// Worked examples of what is sent of a table of two hours, and of what is owed.
pub fn worked_examples()
    ensures ident { ident_of 474792 ≡ codes "stats/2024030100" }
    ensures body { body_of sample 474793 ≡ codes "2024030101 0x00000002 h 1 4 0" ++ 10 ∷ [] }
    ensures sent { sent_of sample sample_hours ≡ 474792 ∷ 474793 ∷ [] }
    ensures owed { AreOwed (sent_of sample sample_hours) sample_answers }
    ensures ending { ending_owed sample sample_hours sample_answers ≡ Ok true }
    ensures denied { AreOwed (sent_of sample sample_hours) sample_denial }
    ensures denied_ending { ending_owed sample sample_hours sample_denial ≡ Err (Put Denied) }
    // Of a longer text than 1,073,741,824 bytes nothing is sent, nor of what is behind it.
    ensures long { (stats : Table) (hour : ℕ) (behind : List ℕ) → 1073741824 < length (body_of stats hour)
        → sent_of stats (hour ∷ behind) ≡ [] }
    ensures long_ending { (stats : Table) (hour : ℕ) (behind : List ℕ) → 1073741824 < length (body_of stats hour)
        → ending_owed stats (hour ∷ behind) [] ≡ Err TooLong }
{}
