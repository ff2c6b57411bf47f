//! A check of the definitions: worked examples that compute.
ghost use Rattle.std.specs.Prelude.{◌≡◌, [], ◌∷◌, Some, None, ◌++◌};
ghost use Rattle.ldm_types.specs.Arena.{gaps};
ghost use Rattle.ldm_model.specs.Figures.{figures};
ghost use Rattle.ldm_model.specs.State.{occupied};
ghost use Rattle.ldm_model.specs.Room.{fit_in};
ghost use Rattle.ldm_model.specs.Evict.{held, unheld, evict, evict_all};
ghost use Rattle.ldm_model.specs.Stat.{stat_reply};
ghost use Rattle.ldm_model.specs.Law.{due, given, lost, told, left, hold_of};
ghost use Rattle.ldm_model.specs.Examples.{answers, answers_to, last_answers, by, insert_of, insert_for};
ghost use Rattle.ldm_model.specs.Examples.{insert_body, open_from, after_signature, look_for, expire_from};
ghost use Rattle.ldm_model.specs.Examples.{state_after, region, sample_info, holding_second, reading};
ghost use Rattle.ldm_model.specs.Examples.{untold_of_first, insert_into, two_readers, told_and_given};
ghost use Rattle.ldm_model.specs.Examples.{told_again, evicted_out_of_order, all_open, example_calls, reader};
ghost use Rattle.ldm_model.specs.declared.event.Start.TheVariants.{Oldest, Next, After};
ghost use Rattle.ldm_model.specs.declared.event.Event.TheVariants.{Expire, Step, Read, Release, Close};
ghost use Rattle.ldm_model.specs.declared.event.Event.TheVariants.{Tally as TallyCall, Stat as StatCall};
ghost use Rattle.ldm_model.specs.declared.event.Reply.TheVariants.{Admitted, TooBig, Duplicate, TimeEnd, Locked};
ghost use Rattle.ldm_model.specs.declared.event.Reply.TheVariants.{Opened, AllBusy, NotQueued, Product, Gap};
ghost use Rattle.ldm_model.specs.declared.event.Reply.TheVariants.{End, NoCursor, Holding, Bytes, NotHeld};
ghost use Rattle.ldm_model.specs.declared.event.Reply.TheVariants.{BadOffset, Released, Closed, Queued, Absent};
ghost use Rattle.ldm_model.specs.declared.event.Reply.TheVariants.{Expired, Nothing, Tally, Stat};

use ldm_types::GREATEST_INSTANT;

/// Worked examples of the definitions, worked out by hand. A sample product of 4 bytes has the extent 56, one
/// of 12 bytes 64, one of 68 bytes 120.
pub fn worked_examples()
    ensures too_big { answers 168 10 (insert_of 100 1 117 ∷ []) ≡ TooBig 176 168 ∷ [] }
    ensures just_fits { answers 168 10 (insert_of 100 1 116 ∷ []) ≡ Admitted 0 100 0 ∷ [] }
    ensures equal_and_falling_now { answers 168 10 (insert_of 100 1 4 ∷ insert_of 100 2 4 ∷ insert_of 50 3 4 ∷ [])
        ≡ Admitted 0 100 0 ∷ Admitted 1 101 0 ∷ Admitted 2 102 0 ∷ [] }
    ensures duplicate { answers 168 10 (insert_of 100 1 4 ∷ insert_of 200 1 12 ∷ []) ≡ Admitted 0 100 0 ∷ Duplicate 0
        ∷ [] }
    ensures no_duplicate_of_an_evicted_one { insert_into (evict (state_after 168 10 (insert_of 100 1 4 ∷ [])) 0) 100 1 4
        ≡ Admitted 1 101 0 }
    ensures last_instant { answers 64 10 (insert_of GREATEST_INSTANT 1 4 ∷ insert_of 100 1 4 ∷ insert_of 100 2 4 ∷ [])
        ≡ Admitted 0 GREATEST_INSTANT 0 ∷ Duplicate 0 ∷ TimeEnd ∷ [] }
    ensures found_and_absent { answers 168 10 (insert_of 100 1 4 ∷ look_for 1 ∷ look_for 2 ∷ []) ≡ Admitted 0 100 0
        ∷ Queued 0 100 ∷ Absent ∷ [] }
    ensures evicts_the_oldest { answers 168 10
        (insert_of 100 1 4 ∷ insert_of 100 2 4 ∷ insert_of 100 3 4 ∷ insert_of 100 4 4 ∷ look_for 1 ∷ [])
        ≡ Admitted 0 100 0 ∷ Admitted 1 101 0 ∷ Admitted 2 102 0 ∷ Admitted 3 103 1 ∷ Absent ∷ [] }
    ensures evicts_for_a_slot { answers 240 2 (insert_of 100 1 4 ∷ insert_of 100 2 4 ∷ insert_of 100 3 4 ∷ [])
        ≡ Admitted 0 100 0 ∷ Admitted 1 101 0 ∷ Admitted 2 102 1 ∷ [] }

    ensures expires_the_oldest { answers 168 10
        (insert_of 100 1 4 ∷ insert_of 100 2 4 ∷ Expire ∷ look_for 1 ∷ Expire ∷ Expire ∷ [])
        ≡ Admitted 0 100 0 ∷ Admitted 1 101 0 ∷ Expired 0 ∷ Absent ∷ Expired 1 ∷ Nothing ∷ [] }
    ensures expires_past_the_held { expire_from
        (holding_second (state_after 168 10 (insert_of 100 1 4 ∷ insert_of 100 2 4 ∷ Expire ∷ []))) ≡ Nothing }
    ensures counts { answers 240 10
        (StatCall ∷ insert_of 100 1 68 ∷ insert_of 100 2 4 ∷ Expire ∷ insert_of 100 3 4 ∷ StatCall ∷ [])
        ≡ Stat (figures 0 0 0 0 240) ∷ Admitted 0 100 0 ∷ Admitted 1 101 0 ∷ Expired 0 ∷ Admitted 2 102 0 ∷ Stat (figures 3 2 0 112 120)
        ∷ [] }
    ensures counts_the_held { stat_reply
        (holding_second (state_after 168 10 (insert_of 100 1 4 ∷ insert_of 100 2 4 ∷ []))) ≡ Stat (figures 2 2 1 112 56) }

    // Two gaps, of 64 and of 56 bytes: the shorter one that is long enough is taken, though the other comes first.
    ensures gaps_between { gaps
        (occupied (evict_all (state_after 240 10
        (insert_of 100 1 12 ∷ insert_of 100 2 4 ∷ insert_of 100 3 4 ∷ insert_of 100 4 12 ∷ [])) (0 ∷ 2 ∷ []))) 240
        ≡ region 0 64 ∷ region 120 56 ∷ [] }
    ensures best_fit { fit_in
        (evict_all (state_after 240 10
        (insert_of 100 1 12 ∷ insert_of 100 2 4 ∷ insert_of 100 3 4 ∷ insert_of 100 4 12 ∷ [])) (0 ∷ 2 ∷ [])) 56
        ≡ Some 120 }
    ensures longer_fit { fit_in
        (evict_all (state_after 240 10
        (insert_of 100 1 12 ∷ insert_of 100 2 4 ∷ insert_of 100 3 4 ∷ insert_of 100 4 12 ∷ [])) (0 ∷ 2 ∷ [])) 64
        ≡ Some 0 }
    // A longer gap in front does not tempt it.
    ensures not_the_first_fit { fit_in (evict (state_after 240 10 (insert_of 100 1 68 ∷ insert_of 100 2 4 ∷ [])) 0) 56
        ≡ Some 176 }
    // Neighbouring gaps are one gap, and of two equally short ones the lower is taken.
    ensures merged { gaps
        (occupied (evict_all (state_after 168 10 (insert_of 100 1 4 ∷ insert_of 100 2 4 ∷ insert_of 100 3 4 ∷ []))
        (0 ∷ 1 ∷ []))) 168 ≡ region 0 112 ∷ [] }
    ensures lowest_on_a_tie { fit_in
        (evict_all (state_after 168 10 (insert_of 100 1 4 ∷ insert_of 100 2 4 ∷ insert_of 100 3 4 ∷ [])) (0 ∷ 2 ∷ []))
        56 ≡ Some 0 }

    // With product 1 held, no 64 bytes in a row can be made free; without a holder, two evictions make them.
    ensures locked { insert_into
        (holding_second (state_after 168 10 (insert_of 100 1 4 ∷ insert_of 100 2 4 ∷ insert_of 100 3 4 ∷ []))) 100 4 12
        ≡ Locked 1 }
    ensures held_and_unheld { held
        (holding_second (state_after 168 10 (insert_of 100 1 4 ∷ insert_of 100 2 4 ∷ insert_of 100 3 4 ∷ []))) ≡ 1
        ∷ [] }
    ensures passes_over_the_held { unheld
        (holding_second (state_after 168 10 (insert_of 100 1 4 ∷ insert_of 100 2 4 ∷ insert_of 100 3 4 ∷ []))) ≡ 0 ∷ 2
        ∷ [] }
    ensures not_locked { insert_into
        (state_after 168 10 (insert_of 100 1 4 ∷ insert_of 100 2 4 ∷ insert_of 100 3 4 ∷ [])) 100 4 12
        ≡ Admitted 3 103 2 }
    // A loss is noted by a cursor whose feedtypes meet the product's, and by no other.
    ensures loss_noted { untold_of_first (evict (reading 2 (state_after 168 10 (insert_of 100 1 4 ∷ []))) 0) ≡ 0 ∷ [] }
    ensures loss_of_another_feed { untold_of_first (evict (reading 4 (state_after 168 10 (insert_of 100 1 4 ∷ []))) 0)
        ≡ [] }
{}

/// Worked examples of cursors, worked out by hand.
pub fn worked_examples_of_cursors()
    // The first cursor is told of the loss of product 0 before it is given product 1.
    ensures gap_before_later { last_answers 3 (two_readers ++ by 1 (Step 0) ∷ by 1 (Step 0) ∷ by 1 (TallyCall 0) ∷ [])
        ≡ Gap 1 0 0 ∷ Product 1 101 (sample_info 2 4) ∷ Tally 1 1 2 ∷ [] }
    // Product 1 is held, so the next eviction passes over it. The loss of product 0 is not told again.
    ensures held_passed_over { last_answers 6 example_calls
        ≡ Admitted 4 104 1 ∷ Holding 1 ∷ Released 1 ∷ Gap 1 2 2 ∷ Product 3 103 (sample_info 4 4) ∷ Tally 2 2 1 ∷ [] }
    // Product 1 was evicted before product 0: the least and the greatest number are told, and not the first and the
    // last loss.
    ensures gap_of_two { last_answers 4 (evicted_out_of_order ++ by 1 (Step 0) ∷ [])
        ≡ Admitted 3 103 1 ∷ Released 0 ∷ Admitted 4 104 1 ∷ Gap 2 0 1 ∷ [] }
    ensures loss_of_another_feed { last_answers 4
        (by 0 (insert_for 4 1 4) ∷ by 1 (open_from Oldest) ∷ by 0 Expire ∷ by 1 (Step 0) ∷ by 1 (TallyCall 0) ∷ [])
        ≡ Opened 0 ∷ Expired 0 ∷ End 1 ∷ Tally 0 0 0 ∷ [] }
    ensures locked_by_a_reader { last_answers 4
        (by 0 (insert_of 100 1 4) ∷ by 0 (insert_of 100 2 4) ∷ by 0 (insert_of 100 3 4)
        ∷ by 1 (open_from (after_signature 1)) ∷ by 1 (Step 0) ∷ by 0 (insert_of 100 4 12) ∷ by 1 (Release 0) ∷ by 0
        (insert_of 100 4 12) ∷ [])
        ≡ Product 1 101 (sample_info 2 4) ∷ Locked 1 ∷ Released 1 ∷ Admitted 3 103 2 ∷ [] }

    // A cursor begins at each of the four places, with such a product and without.
    ensures from_the_oldest { last_answers 2
        (by 0 (insert_of 100 1 4) ∷ by 0 (insert_of 100 2 4) ∷ by 0 Expire ∷ by 1 (open_from Oldest) ∷ by 1 (Step 0)
        ∷ [])
        ≡ Opened 0 ∷ Product 1 101 (sample_info 2 4) ∷ [] }
    ensures from_the_end { last_answers 2 (by 0 (insert_of 100 1 4) ∷ by 1 (open_from Next) ∷ by 1 (Step 0) ∷ [])
        ≡ Opened 0 ∷ End 1 ∷ [] }
    ensures after_a_time { last_answers 2
        (by 0 (insert_of 100 1 4) ∷ by 0 (insert_of 100 2 4) ∷ by 1 (open_from (After 100)) ∷ by 1 (Step 0) ∷ [])
        ≡ Opened 0 ∷ Product 1 101 (sample_info 2 4) ∷ [] }
    ensures after_the_last_time { last_answers 2
        (by 0 (insert_of 100 1 4) ∷ by 1 (open_from (After 100)) ∷ by 1 (Step 0) ∷ []) ≡ Opened 0 ∷ End 1 ∷ [] }
    ensures behind_a_product { last_answers 2
        (by 0 (insert_of 100 1 4) ∷ by 0 (insert_of 100 2 4) ∷ by 1 (open_from (after_signature 1)) ∷ by 1 (Step 0)
        ∷ [])
        ≡ Opened 0 ∷ Product 1 101 (sample_info 2 4) ∷ [] }
    ensures behind_no_product { answers_to 168 10
        (by 1 (open_from (after_signature 1)) ∷ by 1 (open_from Oldest) ∷ by 1 (Step 0) ∷ []) ≡ NotQueued ∷ Opened 0
        ∷ End 0 ∷ [] }
    // That all places are taken is told before that the product is not queued.
    ensures all_busy { last_answers 2 (all_open ++ by 1 (open_from (after_signature 1)) ∷ []) ≡ Opened 63 ∷ AllBusy
        ∷ [] }

    // Only the owner has the cursor. A close ends a hold, so that the product can be evicted.
    ensures closed_while_held { last_answers 6
        (by 0 (insert_of 100 1 4) ∷ by 1 (open_from Oldest) ∷ by 1 (Step 0) ∷ by 0 Expire
        ∷ by 2 (Close 0) ∷ by 1 (Close 0) ∷ by 0 Expire ∷ by 1 (Close 0) ∷ [])
        ≡ Product 0 100 (sample_info 1 4) ∷ Nothing ∷ NoCursor ∷ Closed ∷ Expired 0 ∷ NoCursor ∷ [] }
    ensures read_in_parts { last_answers 7
        (by 0 (insert_body 1 (65 ∷ 66 ∷ 67 ∷ 68 ∷ [])) ∷ by 1 (open_from Oldest) ∷ by 1 (Read 0 0 8)
        ∷ by 1 (Step 0) ∷ by 1 (Read 0 0 8) ∷ by 1 (Read 0 1 2) ∷ by 1 (Read 0 4 8) ∷ by 1 (Read 0 5 1) ∷ by 1
        (Release 0) ∷ [])
        ≡ NotHeld ∷ Product 0 100 (sample_info 1 4) ∷ Bytes (65 ∷ 66 ∷ 67 ∷ 68 ∷ []) ∷ Bytes (66 ∷ 67 ∷ []) ∷ Bytes []
        ∷ BadOffset 4 ∷ Released 0 ∷ [] }
{}

/// What the law of readers says of the first reader of the example, at three points of its life.
pub fn worked_example_of_the_law()
    // Product 0 was evicted, and nothing was told yet.
    ensures due_first { due (reader 3) ≡ 0 ∷ 1 ∷ 2 ∷ 3 ∷ [] }
    ensures given_first { given (reader 3) ≡ [] }
    ensures lost_first { lost (reader 3) ≡ 0 ∷ [] }
    ensures told_first { told (reader 3) ≡ [] }
    // The loss was told, product 1 was given and is held, and product 2 was evicted.
    ensures due_then { due (reader 7) ≡ 0 ∷ 1 ∷ 2 ∷ 3 ∷ 4 ∷ [] }
    ensures given_then { given (reader 7) ≡ 1 ∷ [] }
    ensures lost_then { lost (reader 7) ≡ 0 ∷ 2 ∷ [] }
    ensures told_then { told (reader 7) ≡ 0 ∷ [] }
    ensures held_then { hold_of (reader 7) ≡ Some (record { number = 1; place = Some 56 }) }
    // Both losses were told, product 3 was given, and product 4 is left.
    ensures given_last { given (reader 12) ≡ 1 ∷ 3 ∷ [] }
    ensures lost_last { lost (reader 12) ≡ 0 ∷ 2 ∷ [] }
    ensures told_last { told (reader 12) ≡ 0 ∷ 2 ∷ [] }
    ensures left_last { left (reader 12) ≡ 4 ∷ [] }
{}
