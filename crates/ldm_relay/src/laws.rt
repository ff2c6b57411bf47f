//! What holds of all messages. These functions do nothing: their contracts are the laws.
ghost use Rattle.std.specs.Prelude.{◌≡◌, ℕ, ◌<◌, ◌^◌, ◌++◌, List, All, Ok, Err, length, take};
ghost use Rattle.ldm_relay.specs.declared.procedure.Procedure.{Procedure};
ghost use Rattle.ldm_relay.specs.Sent.{Sent};
ghost use Rattle.ldm_relay.specs.declared.procedure.Answered.{Answered};
ghost use Rattle.ldm_relay.specs.declared.message.Refusal.{Refusal};
ghost use Rattle.ldm_relay.specs.declared.fault.RelayFault.TheVariants.{BadMessage};
ghost use Rattle.ldm_relay.specs.declared.front.FeedFront.TheVariants as feed_front;
ghost use Rattle.ldm_relay.specs.declared.front.TheConstants.{LONGEST_CALL, LONGEST_BLOCK_CALL};
ghost use Rattle.ldm_relay.specs.FeedCalls.{IsNoFeedCall};
ghost use Rattle.ldm_relay.specs.Fronts.{feed_front_of};
ghost use Rattle.ldm_relay.specs.Sent as sent;
ghost use Rattle.ldm_relay.specs.Procedure.{number_of, procedure_of};
ghost use Rattle.ldm_relay.specs.Fits.{Fits, RefusalFits, AuthenticationFits};
ghost use Rattle.ldm_relay.specs.Spelling.{written, call_header, accepted_header, reply_header};
ghost use Rattle.ldm_relay.specs.Spelling.{Authentication, call_header_with, reply_header_with};
ghost use Rattle.ldm_relay.specs.Reading.{kind_of, read_as, call_of, reply_of, refusal_of};

/// What is written is read again as the same message: a call as a call, a reply as a reply to its procedure, and a
/// refusal as a refusal. So no two messages that are read alike have one spelling.
pub fn what_is_written_is_read()
    ensures { (m : Sent) → Fits m → read_as (kind_of m) (written m) ≡ Ok m }
{}

/// What is read behind a header as a writer writes it, without a credential, is written again as it was.
pub fn what_is_read_is_written()
    ensures call { (xid : ℕ) (p : Procedure) (body : List ℕ) (m : Sent) → xid < 2 ^ 32 → All (λ byte. byte < 256) body
        → call_of (call_header xid p ++ body) ≡ Ok m → written m ≡ call_header xid p ++ body }
    ensures reply { (xid number : ℕ) (body : List ℕ) (m : Sent) → xid < 2 ^ 32 → All (λ byte. byte < 256) body
        → reply_of number (reply_header xid ++ body) ≡ Ok m → written m ≡ reply_header xid ++ body }
    ensures refusal { (xid : ℕ) (body : List ℕ) (m : Sent) → xid < 2 ^ 32 → All (λ byte. byte < 256) body
        → refusal_of (accepted_header xid ++ body) ≡ Ok m → written m ≡ accepted_header xid ++ body }
{}

/// A refusal that was written is never read as a result, whatever procedure was called: who reads a reply is told the
/// place of its accept status.
pub fn a_refusal_is_no_result()
    ensures { (xid : ℕ) (why : Refusal) (a : Answered) → xid < 2 ^ 32 → RefusalFits why
        → reply_of (number_of (procedure_of a)) (written (sent.Refused xid why)) ≡ Err (BadMessage xid 20) }
{}

/// A credential and a verifier of at most 400 bytes make no difference, whatever their bytes and their padding are: the
/// call or reply is read as the same message.
pub fn credentials_are_passed_over()
    ensures call { (xid : ℕ) (p : Procedure) (credential verifier : Authentication) (body : List ℕ) (m : Sent)
        → xid < 2 ^ 32
        → AuthenticationFits credential → AuthenticationFits verifier
        → call_of (call_header xid p ++ body) ≡ Ok m
        → call_of (call_header_with xid p credential verifier ++ body) ≡ Ok m }
    ensures reply { (xid number : ℕ) (verifier : Authentication) (body : List ℕ) (m : Sent) → xid < 2 ^ 32
        → AuthenticationFits verifier
        → reply_of number (reply_header xid ++ body) ≡ Ok m
        → reply_of number (reply_header_with xid verifier ++ body) ≡ Ok m }
{}

/// Of a record that is longer than the longest call the front tells whether it can be a call of a feed; no reply is as
/// long.
pub fn long_records_carry()
    ensures others { (content : List ℕ) → LONGEST_CALL < length content
        → feed_front_of (take LONGEST_CALL content) ≡ feed_front.Other → IsNoFeedCall (call_of content) }
    ensures blocks { (content : List ℕ) → LONGEST_BLOCK_CALL < length content
        → feed_front_of (take LONGEST_CALL content) ≡ feed_front.Blkdata → IsNoFeedCall (call_of content) }
    // Nor is a refusal.
    ensures replies { (number : ℕ) (content : List ℕ) (m : Sent) → LONGEST_CALL < length content
        → ¬ (reply_of number content ≡ Ok m) }
    ensures refusals { (content : List ℕ) (m : Sent) → LONGEST_CALL < length content
        → ¬ (refusal_of content ≡ Ok m) }
{}
