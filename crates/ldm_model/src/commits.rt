//! A check of the law of insertions: worked examples.
ghost use Rattle.std.specs.Prelude.{ℕ, None};
ghost use Rattle.ldm_model.specs.declared.event.Reply.TheVariants.{TooBig, Duplicate, Locked};
ghost use Rattle.ldm_model.specs.State.{State};
ghost use Rattle.ldm_model.specs.Reservation.{with_reservation};
ghost use Rattle.ldm_model.specs.Examples.{sample_info};
ghost use Rattle.ldm_model.specs.Lawful.{IsCommittedOrRefused, IsWholeAt};
ghost use Rattle.ldm_model.specs.CommitExamples.{reservation_filled, state_doubled, state_filled};

/// Worked examples of what the law of insertions says of a commit.
pub fn worked_examples_of_commits()
    // A reservation is whole once all its bytes are filled in.
    ensures whole { IsWholeAt state_filled 0 0 reservation_filled }
    // A commit that is refused as a duplicate empties the place, and does not keep the reservation.
    ensures refused { IsCommittedOrRefused state_doubled 0 (sample_info 1 4) (Duplicate 0)
        (with_reservation state_doubled 0 None) }
    ensures not_kept { IsCommittedOrRefused state_doubled 0 (sample_info 1 4) (Duplicate 0) state_doubled → ⊥ }
    // It is not refused as a duplicate where no product has the signature, and never as locked or as too big.
    ensures no_duplicate { (new : State) → IsCommittedOrRefused state_filled 0 (sample_info 1 4) (Duplicate 0) new → ⊥ }
    ensures not_locked { (held : ℕ) (new : State)
        → IsCommittedOrRefused state_filled 0 (sample_info 1 4) (Locked held) new → ⊥ }
    ensures not_too_big { (need arena : ℕ) (new : State)
        → IsCommittedOrRefused state_filled 0 (sample_info 1 4) (TooBig need arena) new → ⊥ }
{}
