//! What holds of all feedings. The function does nothing: its contract is the law.
ghost use Rattle.std.specs.Prelude.{◌≡◌, ◌<◌, ◌^◌, ◌++◌, ℕ, List, Some, All, map};
ghost use Rattle.ldm_outside.specs.Session.{SessionRecord};
ghost use Rattle.ldm_shared.specs.Passes.{PassView};
ghost use Rattle.ldm_session.specs.Owed.{Code};
ghost use Rattle.ldm_sender.specs.declared.end.SendEnd.{SendEnd};
ghost use Rattle.ldm_sender.specs.Asked.{Asked};
ghost use Rattle.ldm_sender.specs.Deeds.{records_of};
ghost use Rattle.ldm_upstream.specs.Feeds.{Feeds};
ghost use Rattle.ldm_upstream.specs.Complete.{HasCallsLeft, IsEndFor, NoneRose, RepliesTo};
ghost use Rattle.ldm_upstream.specs.Complete.{announcements_of, numbers_of, reply_for};

use ldm_relay::what_is_written_is_read;
use ldm_rpc::records_are_read;

/// No feeding gives up: where no count rose, the queue can have a call more, and the peer replied to each announcement
/// in what it sent, the answer to the request decides the end, or there is no memory. So a feeding whose cursor was
/// opened goes on until the gate says to stop.
pub fn answered_feedings_are_completed()
    ensures completes { (why : SendEnd) (asked : Asked) (ahead rest : List ℕ) (old new : PassView)
        (before after : SessionRecord) → (fed : Feeds why asked ahead old new before after)
        → NoneRose before after → HasCallsLeft new → before.link.left ≡ Some rest
        → RepliesTo (announcements_of asked fed.feeding) (ahead ++ rest) → IsEndFor fed.feeding.answered why }
    // A peer replies so that sends one reply after another, each as it is spelled, whatever it sends then.
    ensures spelled { (codes : List Code) (more : List ℕ) → All (λ (code : Code). code.xid < 2 ^ 32) codes
        → RepliesTo (numbers_of codes) (records_of (map reply_for codes) ++ more) }
{
    what_is_written_is_read();
    records_are_read();
}
