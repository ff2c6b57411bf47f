//! A check of the definitions: worked examples that compute.
ghost use Rattle.std.specs.Prelude.{◌≡◌, [], ◌∷◌, codes, length};
ghost use Rattle.ldm_model.specs.declared.event.Reply.TheVariants as reply;
ghost use Rattle.ldm_outside.specs.declared.gate.Go.TheVariants as go;
ghost use Rattle.ldm_relay.specs.Sent as sent;
ghost use Rattle.ldm_relay.specs.declared.message.ClassAnswer.TheVariants as class_answer;
ghost use Rattle.ldm_session.specs.Gaps.{gap_log};
ghost use Rattle.ldm_notify.specs.Turn.{Lost, Gave, Quiet, Alive, Passed, Told};
ghost use Rattle.ldm_notify.specs.Notifying.{GoesOn, Stopped, bytes_of, messages_of, entries_of, instants_of, goes_of};
ghost use Rattle.ldm_notify.specs.Examples.{sample_asked, sample, sample_info, notifying_of, replies_of};

/// Worked examples of the definitions, worked out by hand: the product has 4 bytes, and the cursor place 5.
pub fn worked_examples()
    // The peer is told of it, and the session stops.
    ensures told { messages_of sample_asked (notifying_of (Gave sample (Told 8) ∷ []) (Stopped 1))
        ≡ sent.NotifymeReply 1 class_answer.Ok ∷ sent.Notification 1 sample_info ∷ [] }
    // A reply of 32 bytes, and a record of 96.
    ensures bytes { length (bytes_of sample_asked (notifying_of (Gave sample (Told 8) ∷ []) (Stopped 1))) ≡ 128 }
    // Its body is not read.
    ensures calls { replies_of (entries_of 3 sample_asked (notifying_of (Gave sample (Told 8) ∷ []) (Stopped 1)))
        ≡ reply.Opened 5 ∷ reply.Product 0 100 sample_info ∷ reply.Released 0 ∷ reply.End 1 ∷ [] }
    ensures passed { messages_of sample_asked (notifying_of (Gave sample Passed ∷ []) GoesOn)
        ≡ sent.NotifymeReply 1 class_answer.Ok ∷ [] }
    ensures asks_the_clock { instants_of
        (notifying_of (Gave sample (Told 8) ∷ Quiet 1 9 ∷ Alive 1 10 11 ∷ []) (Stopped 1))
        ≡ 7 ∷ 8 ∷ 9 ∷ 10 ∷ 11 ∷ [] }
    ensures asks_the_gate { goes_of (notifying_of (Quiet 1 9 ∷ Alive 1 10 11 ∷ []) (Stopped 1)) ≡ go.On ∷ go.On
        ∷ go.Stop ∷ [] }
    // Calls are numbered one after another.
    ensures numbered { messages_of sample_asked
        (notifying_of (Gave sample (Told 8) ∷ Alive 1 10 11 ∷ Gave sample (Told 12) ∷ []) GoesOn)
        ≡ sent.NotifymeReply 1 class_answer.Ok ∷ sent.Notification 1 sample_info ∷ sent.Isalive 2
        ∷ sent.Notification 3 sample_info ∷ [] }
    ensures losses { gap_log sample_asked.host (entries_of 3 sample_asked (notifying_of (Lost 2 4 6 ∷ []) (Stopped 1)))
        ≡ codes "gap h 2 4 6\n" }
{}
