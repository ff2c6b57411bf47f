//! What holds of all feedings that come to a receiver. These functions do nothing: their contracts are the laws.
ghost use Rattle.std.specs.Prelude.{◌≡◌, ℕ, ◌+◌, ◌≤◌, ◌++◌, length, List, Option, None, IsSome, All, take, false};
ghost use Rattle.ldm_types.specs.declared.class.ClassSpec.{ClassSpec};
ghost use Rattle.ldm_types.specs.declared.limits.TheConstants.{LARGEST_ARENA};
ghost use Rattle.ldm_types.specs.Info.{IsMetadata};
ghost use Rattle.ldm_model.specs.Product.{extent_of};
ghost use Rattle.ldm_model.specs.State.{State};
ghost use Rattle.ldm_model.specs.History.{after_entries, IsLegalFrom};
ghost use Rattle.ldm_rpc.specs.Streams.{Placed};
ghost use Rattle.ldm_session.specs.Owed.{Code, IsNoReply, Said};
ghost use Rattle.ldm_sender.specs.Asked.{Asked};
ghost use Rattle.ldm_upstream.specs.Turn.{Given};
ghost use Rattle.ldm_upstream.specs.Feeding.{Feeding, IsFeeding, Unanswered, bytes_of, codes_of, stands};
ghost use Rattle.ldm_intake.specs.Answered.{number_of_request};
ghost use Rattle.ldm_class.specs.Asking.{asked_class};
ghost use Rattle.ldm_intake.specs.Course.{Leads};
ghost use Rattle.ldm_intake.specs.Opening.{requesting};
ghost use Rattle.ldm_relay.specs.Spelling.{records_of};
ghost use Rattle.ldm_intake.specs.declared.end.RecvEnd.TheVariants.{Ended};
ghost use Rattle.ldm_downstream.specs.Pieces.{hand, joined};
ghost use Rattle.ldm_downstream.specs.Received.{at_stream_end, received};
ghost use Rattle.ldm_between_ends.specs.Codes.{Agree, soon_codes};
ghost use Rattle.ldm_between_ends.specs.Handed.{handed};
ghost use Rattle.ldm_between_ends.specs.Hearing.{heard_so_far};
ghost use Rattle.ldm_between_ends.specs.Narrowing.{IsNarrowing, Narrows};
ghost use Rattle.ldm_between_ends.specs.Passing.{CameAt, Carries, CarriesAll, HasAsked, IsAnswered, IsGranted, IsPassing, IsSound, Passing, PassesFirst, PassesWhole, record_at};
ghost use Rattle.ldm_between_ends.specs.Queue.{passed_all, products_of};
ghost use Rattle.ldm_between_ends.specs.StreamLaws.{StreamLaws};
ghost use Rattle.ldm_between_ends.specs.Takings.{IsAt};
ghost use Rattle.ldm_between_ends.specs.Ungranted.{EndsByReply, IsUngranted};

use ldm_relay::what_is_written_is_read;
use ldm_rpc::{pieces_join, pushes_read_the_stream, records_are_read};

/// What the laws of streams say that those below make use of.
fn streams_are_read()
    ensures { StreamLaws }
{
    records_are_read();
    pieces_join();
    pushes_read_the_stream();
}

/// What a receiver takes of the bytes that a feeder owes, cut anywhere and in whatever pieces: the products that were
/// given and are due, in order, each once.
pub fn products_are_passed_on()
    // No byte of a feeding ends the receiving.
    ensures goes_on { (p : Passing) → IsPassing p → p.came_to.end ≡ None }
    // The first products are taken, each by what a queue is asked for it, and of the next one perhaps some was asked.
    ensures in_order { (p : Passing) → IsPassing p → PassesFirst p }
    // Where all bytes came, all products are taken, and the receiver waits for the next one.
    ensures whole { (p : Passing) → IsPassing p → CarriesAll p → IsAnswered p.feeding.last → PassesWhole p }
    // Behind them no record is begun.
    ensures edge { (p : Passing) → IsPassing p → CarriesAll p →
        hand (record_at p.at) p.pieces ≡ record_at (p.at + length (joined p.pieces)) }
    // So a stream that ends there ends the receiving as it should.
    ensures ends { (p : Passing) → IsPassing p → CarriesAll p → IsAnswered p.feeding.last →
        at_stream_end (hand (record_at p.at) p.pieces) p.came_to.receiving ≡ Ended }
    // Where all pieces came at one moment, that is the moment of each insertion and of each commit.
    ensures at_once { (p : Passing) (now : ℕ) → IsPassing p → CameAt now p.pieces
        → All (λ entry. IsAt now entry.event) p.made }
{
    what_is_written_is_read();
    streams_are_read();
}

/// What the queue of a receiver comes to, where all pieces come at one moment and the queue is asked nothing else
/// meanwhile: the products one after another, each inserted where it is no larger than what is to come whole, and else
/// in blocks.
pub fn a_queue_is_passed_on()
    // Where all bytes came: by all products of the feeding that are due.
    ensures whole { (p : Passing) (now : ℕ) (queue : State) →
        IsPassing p → CarriesAll p → IsAnswered p.feeding.last → CameAt now p.pieces → IsLegalFrom queue p.made →
        after_entries queue p.made ≡ passed_all p.actor p.asked.max_hereis now (products_of (handed p.feeding)) queue }
    // Wherever they were cut: by the products that were taken.
    ensures first { (p : Passing) (now : ℕ) (queue : State) →
        IsFeeding p.asked p.feeding → CameAt now p.pieces → (passes : PassesFirst p)
        → IsLegalFrom queue passes.made_is.first →
        after_entries queue passes.made_is.first ≡ passed_all p.actor p.asked.max_hereis now
        (products_of passes.done) queue }
{
    products_are_passed_on();
}

/// Where a feeder grants a narrower class, a receiver that asked once asks for that one. The feeding that then comes is
/// what these laws are about, from that place of the stream on.
pub fn a_narrower_class_is_asked_for()
    ensures { (p : Passing) (class : ClassSpec) → IsNarrowing p class → Narrows p class }
{
    what_is_written_is_read();
    streams_are_read();
}

/// A feeder that does not grant what it was asked for replies so, and nothing else comes: a receiver that had asked
/// ends by that reply, or asks for the narrower class that it offers.
pub fn a_reply_is_taken()
    ensures whole { (p : Passing) (ungranted : IsUngranted p) → CarriesAll p → EndsByReply p ungranted }
    // No part of the reply ends it.
    ensures part { (p : Passing) → IsUngranted p → IsSome p.came_to.end → CarriesAll p }
{
    what_is_written_is_read();
    streams_are_read();
}

/// A receiver that all bytes of a feeding came to has replied to each announcement. So who hears its replies, all but
/// the last one, finds no other record behind them, nor the beginning of one.
pub fn announcements_are_answered()
    ensures { (p : Passing) (product : Given) (sent_at at : ℕ) (given more : List ℕ) (behind : List Placed)
        → IsPassing p → CarriesAll p →
        p.feeding.last ≡ Unanswered product sent_at → Said given (codes_of p.feeding) behind
        → given ++ more ≡ records_of p.came_to.replies →
        IsNoReply (stands p.feeding).next at given behind → ⊥ }
{
    what_is_written_is_read();
    streams_are_read();
}

/// A feeding up to the first announcement that has no reply, where so many replies are taken. Who looks at a feeding
/// before its end, knows how many replies were heard by then, and that no byte went behind the first announcement that
/// was not answered, asks the other laws of this feeding.
pub fn a_feeding_is_heard_so_far()
    // It is a feeding as it is to be, and is granted where the other one is.
    ensures feeding { (asked : Asked) (feeding : Feeding) (replies : ℕ) → IsFeeding asked feeding →
        IsFeeding asked (heard_so_far replies feeding) }
    ensures granted { (asked : Asked) (feeding : Feeding) (replies : ℕ) → IsGranted asked feeding →
        IsGranted asked (heard_so_far replies feeding) }
    // Its replies are those that were heard, and its bytes are the first ones.
    ensures codes { (asked : Asked) (feeding : Feeding) (replies : ℕ) → IsFeeding asked feeding →
        codes_of (heard_so_far replies feeding) ≡ take replies (codes_of feeding) }
    ensures bytes { (asked : Asked) (feeding : Feeding) (replies : ℕ) → IsFeeding asked feeding →
        (rest : List ℕ) × (bytes_of asked (heard_so_far replies feeding) ++ rest ≡ bytes_of asked feeding) }
{}

/// How what these laws are about comes to be.
pub fn the_setting_is_met()
    // A receiver that requests a class behind the last product has asked for it, and wants all that it asked for.
    ensures requested { (asked : Asked) (class : ClassSpec) (last : Option (List ℕ)) (max_hereis : ℕ) →
        asked.class ≡ asked_class class last → asked.xid ≡ number_of_request false →
        HasAsked asked (requesting class last max_hereis) }
    // A product that an arena can have is sound.
    ensures sound { (given : Given) → IsMetadata given.product.info
        → length given.product.body ≡ given.product.info.size →
        extent_of given.product.info ≤ LARGEST_ARENA → IsSound given }
    // A feeder that read replies in the first bytes of those that the receiver replied heard what agrees with all of
    // them.
    ensures read { (p : Passing) (given more : List ℕ) (behind : List Placed) → IsGranted p.asked p.feeding
        → HasAsked p.asked p.begins →
        Carries p → Leads p.actor (received p.begins (record_at p.at) p.pieces) p.made p.came_to →
        Said given (codes_of p.feeding) behind → given ++ more ≡ records_of p.came_to.replies →
        Agree (codes_of p.feeding) (soon_codes p.came_to.replies) }
    // A feeder that heard the first replies heard what agrees with all of them.
    ensures heard { (codes behind replies : List Code) → codes ++ behind ≡ replies → Agree codes replies }
{
    what_is_written_is_read();
    streams_are_read();
}
