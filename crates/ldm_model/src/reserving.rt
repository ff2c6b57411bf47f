//! A check of the definitions of reservations: worked examples that compute.
ghost use Rattle.std.specs.Prelude.{◌≡◌, [], ◌∷◌, ◌++◌, replicate, Some};
ghost use Rattle.ldm_types.specs.Arena.{gaps};
ghost use Rattle.ldm_model.specs.Figures.{figures};
ghost use Rattle.ldm_model.specs.State.{occupied};
ghost use Rattle.ldm_model.specs.Examples.{answers, answers_to, by, insert_of, open_from, sample_info};
ghost use Rattle.ldm_model.specs.Examples.{reserve_of, fill_of, state_after, reserved_first, region};
ghost use Rattle.ldm_types.specs.declared.limits.TheConstants.{GREATEST_INSTANT};
ghost use Rattle.ldm_model.specs.declared.event.Start.TheVariants.{Oldest};
ghost use Rattle.ldm_model.specs.declared.event.Event.TheVariants.{Expire, Step, Read, Commit};
ghost use Rattle.ldm_model.specs.declared.event.Event.TheVariants.{Discard, Stat as StatCall};
ghost use Rattle.ldm_model.specs.declared.event.Reply.TheVariants.{Admitted, TooBig, Duplicate, TimeEnd, Locked};
ghost use Rattle.ldm_model.specs.declared.event.Reply.TheVariants.{Opened, Product, End, Bytes, Expired, Nothing};
ghost use Rattle.ldm_model.specs.declared.event.Reply.TheVariants.{Stat, Reserved, AllReserved, NoReservation, Filled};
ghost use Rattle.ldm_model.specs.declared.event.Reply.TheVariants.{Overfill, Unfilled, Committed, Discarded};

/// Worked examples of reservations, worked out by hand.
pub fn worked_examples_of_reservations()
    // A body that comes in two pieces is a product after the commit, and not before. Only its owner fills and commits
    // it.
    ensures filled_and_committed { answers_to 168 10
        (by 0 (reserve_of 1 4) ∷ by 1 (open_from Oldest) ∷ by 1 (Step 0) ∷ by 0 (fill_of 0 (65 ∷ 66 ∷ []))
        ∷ by 0 (Commit 0 500) ∷ by 0 (fill_of 0 (65 ∷ 66 ∷ 67 ∷ [])) ∷ by 0 (fill_of 0 (67 ∷ 68 ∷ [])) ∷ by 1
        (Commit 0 500) ∷ by 0 (Commit 0 500)
        ∷ by 1 (Step 0) ∷ by 1 (Read 0 0 8) ∷ [])
        ≡ Reserved 0 0 ∷ Opened 0 ∷ End 0 ∷ Filled 2 ∷ Unfilled 2 ∷ Overfill 2 ∷ Filled 0 ∷ NoReservation
        ∷ Committed 0 500
        ∷ Product 0 500 (sample_info 1 4) ∷ Bytes (65 ∷ 66 ∷ 67 ∷ 68 ∷ []) ∷ [] }
    // A product that was inserted meanwhile makes the commit a duplicate, which ends the reservation. Its time is that
    // of the commit.
    ensures duplicate_at_commit { answers 168 10
        (reserve_of 1 4 ∷ insert_of 100 1 4 ∷ Commit 0 200 ∷ StatCall ∷ fill_of 0 (replicate 4 65) ∷ Commit 0 200
        ∷ StatCall ∷ Commit 0 200 ∷ [])
        ≡ Reserved 0 0 ∷ Admitted 0 100 0 ∷ Unfilled 4 ∷ Stat (figures 1 1 1 112 56) ∷ Filled 0 ∷ Duplicate 0 ∷ Stat (figures 1 1 0 56 56)
        ∷ NoReservation ∷ [] }
    ensures duplicate_before_time_end { answers 168 10
        (reserve_of 1 0 ∷ insert_of GREATEST_INSTANT 1 4 ∷ Commit 0 200 ∷ [])
        ≡ Reserved 0 0 ∷ Admitted 0 GREATEST_INSTANT 0 ∷ Duplicate 0 ∷ [] }
    ensures time_of_the_commit { answers 168 10
        (reserve_of 1 0 ∷ insert_of 100 2 4 ∷ insert_of 300 3 4 ∷ Commit 0 200 ∷ [])
        ≡ Reserved 0 0 ∷ Admitted 0 100 0 ∷ Admitted 1 300 0 ∷ Committed 2 301 ∷ [] }
    ensures no_time_left { answers 168 10
        (reserve_of 1 0 ∷ insert_of GREATEST_INSTANT 2 4 ∷ Commit 0 200 ∷ Discard 0 ∷ [])
        ≡ Reserved 0 0 ∷ Admitted 0 GREATEST_INSTANT 0 ∷ TimeEnd ∷ NoReservation ∷ [] }
    // The product lies where it was filled in, although a lower gap is as long.
    ensures stays_in_place { gaps
        (occupied (state_after 168 10 (reserve_of 1 0 ∷ reserve_of 2 0 ∷ Discard 0 ∷ Commit 1 200 ∷ []))) 168
        ≡ region 0 56 ∷ region 112 56 ∷ [] }
    // A reservation is held, and is no row that could be evicted.
    ensures held { answers 64 10
        (reserve_of 1 12 ∷ insert_of 100 2 4 ∷ Expire ∷ Discard 0 ∷ insert_of 100 2 4 ∷ reserve_of 3 12 ∷ [])
        ≡ Reserved 0 0 ∷ Locked 1 ∷ Nothing ∷ Discarded ∷ Admitted 0 100 0 ∷ Reserved 0 1 ∷ [] }
    // It takes a slot.
    ensures takes_a_slot { answers 240 1 (reserve_of 1 4 ∷ insert_of 100 2 4 ∷ Discard 0 ∷ insert_of 100 2 4 ∷ [])
        ≡ Reserved 0 0 ∷ Locked 1 ∷ Discarded ∷ Admitted 0 100 0 ∷ [] }
    // Two reservations may have one signature; the least empty place is taken.
    ensures least_place { answers 240 10
        (reserve_of 1 4 ∷ reserve_of 1 4 ∷ Discard 0 ∷ reserve_of 2 4 ∷ reserve_of 3 4 ∷ [])
        ≡ Reserved 0 0 ∷ Reserved 1 0 ∷ Discarded ∷ Reserved 0 0 ∷ Reserved 2 0 ∷ [] }
    // The cases of reserving in their order.
    ensures too_big { answers 168 10 (insert_of 100 1 4 ∷ reserve_of 1 117 ∷ []) ≡ Admitted 0 100 0 ∷ TooBig 176 168
        ∷ [] }
    ensures duplicate { reserved_first 64 (state_after 168 10 (insert_of 100 1 4 ∷ [])) 1 4 ≡ Duplicate 0 }
    ensures places_before_room { reserved_first 64 (state_after 64 10 (insert_of 100 1 4 ∷ [])) 2 4 ≡ AllReserved }
    ensures locked_before_times { answers 56 10 (reserve_of 1 4 ∷ reserve_of 2 4 ∷ []) ≡ Reserved 0 0 ∷ Locked 1 ∷ [] }
    ensures evicts { answers 168 10
        (insert_of 100 1 4 ∷ insert_of 100 2 4 ∷ insert_of 100 3 4 ∷ reserve_of 4 12 ∷ StatCall ∷ [])
        ≡ Admitted 0 100 0 ∷ Admitted 1 101 0 ∷ Admitted 2 102 0 ∷ Reserved 0 2 ∷ Stat (figures 3 1 1 120 48) ∷ [] }
{}
