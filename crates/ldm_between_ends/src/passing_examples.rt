//! A check of the definitions: worked examples that compute.
ghost use Rattle.std.specs.Prelude.{◌≡◌, [], ◌∷◌, Some, None};
ghost use Rattle.ldm_model.specs.declared.event.Reply.TheVariants as reply;
ghost use Rattle.ldm_model.specs.State.{empty};
ghost use Rattle.ldm_relay.specs.declared.message.SoonAnswer.TheVariants as soon;
ghost use Rattle.ldm_upstream.specs.Examples.{sample, sample_signature, feeding_of};
ghost use Rattle.ldm_upstream.specs.Turn as turn;
ghost use Rattle.ldm_upstream.specs.Feeding.{Unanswered};
ghost use Rattle.ldm_between_ends.specs.Codes.{Agree};
ghost use Rattle.ldm_between_ends.specs.PassingExamples.{first, second, other_signature, inserts};
ghost use Rattle.ldm_between_ends.specs.PassingExamples.{reserves, fills, commits, code, only_row};
ghost use Rattle.ldm_between_ends.specs.Handed as way;
ghost use Rattle.ldm_between_ends.specs.Handed.{handed, last_of};
ghost use Rattle.ldm_between_ends.specs.Queue.{passed_all};
ghost use Rattle.ldm_between_ends.specs.Takings.{TakesProduct, BeginsFirst};

/// Worked examples of the definitions, worked out by hand: the products have 4 bytes, `ABCD`, and the reservation place
/// 5.
pub fn worked_examples_of_passing()
    // What is not due does not go; what was announced last may have no reply.
    ensures goes { handed (feeding_of (turn.Gave sample turn.Passed ∷ turn.Gave sample (turn.Whole 8) ∷ turn.Alive 1 9 9
        ∷ turn.Gave sample (turn.Declined 9) ∷ turn.Gave sample (turn.InBlocks 9 (9 ∷ [])) ∷ []) (Unanswered sample 9))
        ≡ first way.Whole ∷ first way.Declined ∷ first way.InBlocks ∷ first way.Announced ∷ [] }
    // The one to go on behind.
    ensures last { last_of None (first way.Whole ∷ second way.Declined ∷ []) ≡ Some other_signature }
    ensures none_more { last_of (Some sample_signature) [] ≡ Some sample_signature }
    // A product is taken by an insertion, whatever the queue replies to it, and not by two.
    ensures whole { TakesProduct 3 (400 ∷ 500 ∷ []) (first way.Whole) (inserts 500 (reply.Duplicate 0) ∷ []) }
    ensures once { ¬ (TakesProduct 3 (500 ∷ []) (first way.Whole)
        (inserts 500 reply.TimeEnd ∷ inserts 500 reply.TimeEnd ∷ [])) }
    ensures in_time { ¬ (TakesProduct 3 (400 ∷ []) (first way.Whole) (inserts 500 (reply.Duplicate 0) ∷ [])) }
    // It is taken by a reservation that is refused, where it was declined, and by all of its blocks, where it was not.
    ensures declined { TakesProduct 3 [] (first way.Declined) (reserves (reply.Duplicate 0) ∷ []) }
    ensures not_declined { ¬ (TakesProduct 3 [] (first way.Declined) (reserves (reply.Reserved 5 0) ∷ [])) }
    ensures blocks { TakesProduct 3 (500 ∷ []) (first way.InBlocks)
        (reserves (reply.Reserved 5 0) ∷ fills (65 ∷ 66 ∷ 67 ∷ 68 ∷ []) ∷ commits 500 ∷ []) }
    ensures other_block { ¬ (TakesProduct 3 (500 ∷ []) (first way.InBlocks)
        (reserves (reply.Reserved 5 0) ∷ fills (65 ∷ 66 ∷ 67 ∷ []) ∷ commits 500 ∷ [])) }
    ensures begun { BeginsFirst 3 (first way.InBlocks ∷ []) (reserves (reply.Reserved 5 0) ∷ []) }
    ensures not_begun { ¬ (BeginsFirst 3 (first way.Whole ∷ []) (inserts 500 (reply.Duplicate 0) ∷ [])) }
    // Replies agree as far as both go.
    ensures agree { Agree (code soon.Ok ∷ []) (code soon.Ok ∷ code soon.DontSend ∷ []) }
    ensures differ { ¬ (Agree (code soon.Ok ∷ []) (code soon.DontSend ∷ [])) }
    // A queue is passed on the product whole, or in blocks, and comes to the same.
    ensures queued { (passed_all 3 4 500 (sample.product ∷ []) (empty 168 10)).rows ≡ only_row }
    ensures no_room { (passed_all 3 3 500 (sample.product ∷ []) (empty 40 10)).rows ≡ [] }
    ensures queued_in_blocks { (passed_all 3 3 500 (sample.product ∷ []) (empty 168 10)).rows ≡ only_row }
{}
