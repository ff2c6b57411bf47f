//! A check of the definitions: worked examples that compute.
ghost use Rattle.std.specs.Prelude.{◌≡◌, [], ◌∷◌, true, false, map};
ghost use Rattle.ldm_model.specs.Next.{replies};
ghost use Rattle.ldm_upstream.specs.Turn.{Lost, Gave, Quiet, Alive, Passed, Declined, InBlocks};
ghost use Rattle.ldm_upstream.specs.Feeding.{Unanswered};
ghost use Rattle.ldm_between_ends.specs.Alone.{due_rows, is_lost, offered_in, offered_of};
ghost use Rattle.ldm_between_ends.specs.AloneExamples.{sample_queue, first_product, asks_up_to, sample_feeding};
ghost use Rattle.ldm_between_ends.specs.AloneExamples.{sample_calls, calls_of, answers_of};

/// Worked examples of the definitions, worked out by hand. The queue has two products, and the first of them is of the
/// feed that is asked for.
pub fn worked_examples_of_a_sole_reader()
    // The queue answers the calls of a feeding that gives the first product, waits once, and stops.
    ensures answers { answers_of sample_calls ≡ replies sample_queue (calls_of sample_calls) }
    // None of its products is due where the class ends before.
    ensures none_due { due_rows (asks_up_to 99) sample_queue ≡ [] }
    // What is announced is offered, in blocks or not, and what is not due is not.
    ensures offers { offered_in (Gave first_product (Declined 8)) ≡ first_product ∷ [] }
    ensures offers_blocks { offered_in (Gave first_product (InBlocks 8 (9 ∷ []))) ≡ first_product ∷ [] }
    ensures passes { offered_in (Gave first_product Passed) ≡ [] }
    ensures offers_last { offered_of (sample_feeding (Alive 2 9 10 ∷ []) (Unanswered first_product 11)) ≡ first_product
        ∷ [] }
    ensures losses { map is_lost (Lost 1 4 4 ∷ Quiet 2 9 ∷ Gave first_product Passed ∷ []) ≡ true ∷ false ∷ false ∷ [] }
{}
