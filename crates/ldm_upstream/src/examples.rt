//! A check of the definitions: worked examples that compute.
ghost use Rattle.std.specs.Prelude.{◌≡◌, ◌-◌, ◌^◌, [], ◌∷◌, true, false, codes, Some};
ghost use Rattle.ldm_model.specs.declared.event.Start.TheVariants as start;
ghost use Rattle.ldm_model.specs.declared.event.Reply.TheVariants as reply;
ghost use Rattle.ldm_outside.specs.declared.gate.Go.TheVariants as go;
ghost use Rattle.ldm_relay.specs.Sent as sent;
ghost use Rattle.ldm_relay.specs.declared.message.ClassAnswer.TheVariants as class_answer;
ghost use Rattle.ldm_relay.specs.declared.message.SoonAnswer.TheVariants as soon;
ghost use Rattle.ldm_session.specs.Gaps.{gap_log};
ghost use Rattle.ldm_session.specs.Idle.{is_silent_since};
ghost use Rattle.ldm_upstream.specs.Blocks.{count_blocks};
ghost use Rattle.ldm_sender.specs.Opening.{Busy, Denied, feeds_of, from_instant, opening_calls, opening_entries};
ghost use Rattle.ldm_upstream.specs.Turn.{Lost, Gave, Quiet, Alive, Whole, Declined, InBlocks};
ghost use Rattle.ldm_sender.specs.Calls.{later_call};
ghost use Rattle.ldm_upstream.specs.Feeding.{GoesOn, Stopped, Unanswered, messages_of};
ghost use Rattle.ldm_upstream.specs.Feeding.{entries_of, instants_of, goes_of, codes_of};
ghost use Rattle.ldm_upstream.specs.Complete.{announcements_of};
ghost use Rattle.ldm_upstream.specs.Examples.{sample_asked, asks_for, spec_for, sample, sample_info, feeding_of};
ghost use Rattle.ldm_upstream.specs.Examples.{replies_of, events_of, opens_at, sample_signature};

/// Worked examples of the definitions, worked out by hand: the product has 4 bytes, `ABCD`, and the cursor place 5.
pub fn worked_examples()
    // It goes whole, and the feeding stops.
    ensures whole { messages_of sample_asked (feeding_of (Gave sample (Whole 8) ∷ []) (Stopped 1))
        ≡ sent.FeedmeReply 1 class_answer.Ok ∷ sent.Hereis 1 sample_info (65 ∷ 66 ∷ 67 ∷ 68 ∷ []) ∷ [] }
    ensures calls { replies_of (entries_of 3 sample_asked (feeding_of (Gave sample (Whole 8) ∷ []) (Stopped 1)))
        ≡ reply.Opened 5 ∷ reply.Product 0 100 sample_info ∷ reply.Bytes (65 ∷ 66 ∷ 67 ∷ 68 ∷ []) ∷ reply.Released 0
        ∷ reply.End 1 ∷ [] }
    ensures asks_the_clock { instants_of (feeding_of (Gave sample (Whole 8) ∷ []) (Stopped 1)) ≡ 7 ∷ 8 ∷ [] }
    ensures asks_the_gate { goes_of (feeding_of (Quiet 1 9 ∷ Alive 1 10 11 ∷ []) (Stopped 1)) ≡ go.On ∷ go.On ∷ go.Stop
        ∷ [] }
    // It is announced, and goes in one block, or not at all.
    ensures in_blocks { messages_of sample_asked
        (feeding_of (Gave sample (InBlocks 8 (9 ∷ [])) ∷ Alive 1 10 11 ∷ []) GoesOn)
        ≡ sent.FeedmeReply 1 class_answer.Ok ∷ sent.Comingsoon 1 sample_info 16384
        ∷ sent.Blkdata 2 sample_info.signature 0 (65 ∷ 66 ∷ 67 ∷ 68 ∷ []) ∷ sent.Isalive 3 ∷ [] }
    ensures declined { messages_of sample_asked (feeding_of (Gave sample (Declined 8) ∷ []) (Unanswered sample 9))
        ≡ sent.FeedmeReply 1 class_answer.Ok ∷ sent.Comingsoon 1 sample_info 16384 ∷ sent.Comingsoon 2 sample_info 16384
        ∷ [] }
    ensures replies { codes_of
        (feeding_of (Gave sample (Declined 8) ∷ Gave sample (InBlocks 8 (9 ∷ [])) ∷ []) (Unanswered sample 9))
        ≡ record { xid = 1; answer = soon.DontSend } ∷ record { xid = 2; answer = soon.Ok } ∷ [] }
    // Announcements alone are answered, each by its number.
    ensures announced { announcements_of sample_asked
        (feeding_of (Gave sample (Declined 8) ∷ Alive 1 10 11 ∷ []) (Unanswered sample 12)) ≡ 1 ∷ 3 ∷ [] }
    ensures numbers_wrap { later_call (2 ^ 32 - 1) 1 ≡ 0 }
    ensures no_block { count_blocks 0 ≡ 0 }
    ensures one_block { count_blocks 16384 ≡ 1 }
    ensures three_blocks_and_a_byte { count_blocks 49153 ≡ 4 }
    // Losses are log lines.
    ensures losses { gap_log sample_asked.host (entries_of 3 sample_asked (feeding_of (Lost 2 4 6 ∷ []) (Stopped 1)))
        ≡ codes "gap h 2 4 6\n" }
    // Thirty seconds are enough, a microsecond less is not.
    ensures silent { is_silent_since 0 30000000 ≡ true }
    ensures not_silent { is_silent_since 0 29999999 ≡ false }
    // Where the cursor begins.
    ensures all_feeds { feeds_of (asks_for 0 (spec_for 2 [] ∷ spec_for 4 [] ∷ [])).class ≡ 6 }
    ensures from_the_oldest { from_instant 0 ≡ start.Oldest }
    ensures from_later { from_instant 100 ≡ start.After 99 }
    ensures behind_a_product { events_of (opening_calls 3 sample_asked (Some sample_signature) false (reply.Opened 5))
        ≡ opens_at (start.AfterSignature (record { 0 = sample_signature })) ∷ [] }
    ensures product_not_queued { events_of (opening_calls 3 sample_asked (Some sample_signature) true (reply.Opened 5))
        ≡ opens_at (start.AfterSignature (record { 0 = sample_signature })) ∷ opens_at start.Oldest ∷ [] }
    ensures busy { replies_of (opening_entries 3 sample_asked (Busy false)) ≡ reply.AllBusy ∷ [] }
    ensures denied { opening_entries 3 sample_asked (Denied 1) ≡ [] }
{}
