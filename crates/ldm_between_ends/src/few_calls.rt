//! How many calls of their queues the two ends of a feeding make: far fewer than a queue can have.
ghost use Rattle.std.specs.Prelude.{◌≡◌, ℕ, ◌+◌, ◌*◌, ◌≤◌, List, length};
ghost use Rattle.ldm_types.specs.declared.limits.TheConstants.{LARGEST_ARENA};
ghost use Rattle.ldm_model.specs.declared.event.Entry.{Entry};
ghost use Rattle.ldm_outside.specs.Session.{SessionRecord};
ghost use Rattle.ldm_shared.specs.Passes.{PassView};
ghost use Rattle.ldm_rpc.specs.Streams.{Position};
ghost use Rattle.ldm_sender.specs.declared.end.SendEnd.{SendEnd};
ghost use Rattle.ldm_sender.specs.Asked.{Asked};
ghost use Rattle.ldm_upstream.specs.Feeds.{Feeds};
ghost use Rattle.ldm_upstream.specs.Turns.{goes_of_turns};
ghost use Rattle.ldm_intake.specs.Course.{Leads};
ghost use Rattle.ldm_intake.specs.Receiving.{Receiving};
ghost use Rattle.ldm_intake.specs.Taken.{Taken};
ghost use Rattle.ldm_intake.specs.TakesRecord.{Standing};
ghost use Rattle.ldm_downstream.specs.Pieces.{Piece, arrivals, joined};
ghost use Rattle.ldm_downstream.specs.Received.{received};
ghost use Rattle.ldm_downstream.specs.Taking.{BreaksOff};
ghost use Rattle.ldm_between_ends.specs.Counts.{most_fed};
ghost use Rattle.ldm_between_ends.specs.OnePass.{IsOnlyPass};

use ldm_model::regions_lie_apart;
use ldm_shared::{one_pass, products_stay};

/// How many calls of their queues a feeder and a receiver make.
pub fn few_calls_are_made()
    // A receiver asks its queue for two events at most by each record, and a record has a byte.
    ensures received { (actor : ℕ) (s : Receiving) (p : Position) (pieces : List Piece) (made : List Entry)
        (to : Taken) → Leads actor (received s p pieces) made to → length made ≤ 2 * length (joined pieces) }
    ensures broke_off { (p : Position) (pieces : List Piece) (old new : Standing)
        (breaks : BreaksOff (arrivals p pieces) old new) →
        length breaks.takes.made + length breaks.made ≤ 2 * length (joined pieces) + 2 }
    // A feeder that has the only pass of a queue is given each queued product once at most, however it ends.
    ensures fed { (why : SendEnd) (asked : Asked) (ahead : List ℕ) (old new : PassView) (before after : SessionRecord) →
        (feeds : Feeds why asked ahead old new before after) → IsOnlyPass old → old.arena ≤ LARGEST_ARENA →
        length new.seen ≤ length old.seen + most_fed (length (goes_of_turns feeds.feeding.turns)) old.slots }
{
    regions_lie_apart();
    products_stay();
    one_pass();
}
