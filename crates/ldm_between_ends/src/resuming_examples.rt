//! A check of the definitions: worked examples that compute.
ghost use Rattle.std.specs.Prelude.{◌≡◌, [], ◌∷◌, true, false, Some, None};
ghost use Rattle.ldm_model.specs.Law.{given};
ghost use Rattle.ldm_model.specs.declared.event.Reply.TheVariants as reply;
ghost use Rattle.ldm_between_ends.specs.PassingExamples.{inserts, reserves, fills, commits};
ghost use Rattle.ldm_between_ends.specs.Behind.{IsBehind, IsNextBehind};
ghost use Rattle.ldm_between_ends.specs.ResumingExamples.{resumed_life, resumed_session, session_with};
ghost use Rattle.ldm_between_ends.specs.ResumingExamples.{sample_feeding, asks_before, sample_row, givings};
ghost use Rattle.ldm_between_ends.specs.Life.{calls_of};
ghost use Rattle.ldm_between_ends.specs.Offered.{count_settled, is_due_row, numbers_of, offered, products_left};
ghost use Rattle.ldm_between_ends.specs.Resumed.{last_number};

/// Worked examples of the definitions, worked out by hand. The products of the sample session have the numbers 0, 3, 5
/// and 7 in the feeder's queue; product 3 is not due.
pub fn worked_examples_of_resuming()
    // A product is settled by its insertion, whatever the queue replies, by a commit, or by a reservation that is
    // refused; not by a region or by blocks.
    ensures settled { count_settled
        (inserts 500 (reply.Duplicate 0) ∷ reserves (reply.Duplicate 0) ∷ reserves (reply.Reserved 5 0)
        ∷ fills (65 ∷ 66 ∷ 67 ∷ 68 ∷ []) ∷ commits 500 ∷ reserves (reply.Reserved 5 0) ∷ []) ≡ 3 }
    // Cut behind the announcement of product 7, the session offered the two before it.
    ensures cut { offered
        (session_with (inserts 500 (reply.Duplicate 0) ∷ reserves (reply.Duplicate 0) ∷ reserves (reply.Reserved 5 0)
        ∷ []))
        ≡ 0 ∷ 5 ∷ [] }
    ensures left { numbers_of
        (products_left (session_with (inserts 500 (reply.Duplicate 0) ∷ reserves (reply.Duplicate 0) ∷ [])))
        ≡ 7 ∷ [] }
    ensures whole { offered
        (session_with (inserts 500 (reply.Duplicate 0) ∷ reserves (reply.Duplicate 0) ∷ reserves (reply.Reserved 5 0)
        ∷ fills (65 ∷ 66 ∷ 67 ∷ 68 ∷ []) ∷ commits 500 ∷ [])) ≡ 0 ∷ 5 ∷ 7 ∷ [] }
    ensures nothing { offered (session_with []) ≡ [] }
    // What was inserted too late is not due, and neither is what was not admitted.
    ensures late { is_due_row asks_before (Some sample_row) ≡ false }
    ensures not_there { is_due_row asks_before None ≡ false }
    // Of the calls of the feeding the four steps give a product; the others read it or let it go.
    ensures gives { givings (calls_of 3 5 sample_feeding)
        ≡ true ∷ false ∷ false ∷ true ∷ false ∷ true ∷ false ∷ true ∷ false ∷ false ∷ [] }
    // A session in which nothing was offered leaves the product to go on behind.
    ensures last { last_number (Some 2) (4 ∷ 9 ∷ []) ≡ Some 9 }
    ensures none_more { last_number (Some 9) [] ≡ Some 9 }
{}

/// A session that goes on behind product 0, through the queue. Product 1 was evicted before its cursor was given
/// product 2.
pub fn worked_example_of_resuming()
    ensures given { given resumed_life ≡ 2 ∷ [] }
    ensures behind { IsBehind resumed_session 0 }
    // The class does not name product 1.
    ensures not_behind { ¬ (IsBehind resumed_session 1) }
    // Product 1 is passed over, and it was not queued then.
    ensures next { IsNextBehind resumed_session 0 2 }
{}
