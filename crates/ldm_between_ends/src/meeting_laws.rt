//! What holds of a feeder and a receiver that a connection joins, each at whatever end.
ghost use Rattle.std.specs.Prelude.{◌≡◌, true};
ghost use mathlib.Core.List.{IsPrefix};
ghost use Rattle.ldm_sender.specs.Acts.{is_whole};
ghost use Rattle.ldm_downstream.specs.Receives.{is_whole_end};
ghost use Rattle.ldm_between_ends.specs.Following.{Follows};
ghost use Rattle.ldm_between_ends.specs.Meeting.{FeedingCall, ReceivingCall, Connects, WasGranted};
ghost use Rattle.ldm_between_ends.specs.Meeting.{IsSessionOf, IsNoFault, came_to};
ghost use Rattle.ldm_between_ends.specs.Passing.{CarriesAll};
ghost use Rattle.ldm_between_ends.specs.Session.{Session};

use crate::passing_laws::{products_are_passed_on, the_setting_is_met};
use ldm_model::products_were_admitted;
use ldm_shared::{own_readers, products_stay};

/// What a call that feeds and a call that receives come to, of which the one was asked what the other asks, and where
/// of what either sent the first bytes came to the other, perhaps all. Each of the two may have come to any of its
/// ends, as where a connection is cut with an announcement open.
pub fn two_ends_make_a_session()
    // They make a session, of which `cut_sessions_resume` and `products_are_passed_on` speak.
    ensures session { (f : FeedingCall) (r : ReceivingCall) → Connects f r → WasGranted f
        → (s : Session) × IsSessionOf f r s }
    // No byte that came ended the receiver.
    ensures no_fault { (f : FeedingCall) (r : ReceivingCall) → Connects f r → WasGranted f → IsNoFault r.end }
    // Where both came to a whole end and all came that was sent, that is all of the feeding.
    ensures whole { (f : FeedingCall) (r : ReceivingCall) (s : Session) → IsSessionOf f r s → is_whole f.end ≡ true →
        came_to r ≡ f.feeds.sent → is_whole_end r.end ≡ true → CarriesAll s.passing }
    // Sessions of calls that were made one after another, where the receiver asks behind the last product that it was
    // answered, follow one another.
    ensures follows { (f g : FeedingCall) (r q : ReceivingCall) (s t : Session) → IsSessionOf f r s →
        IsSessionOf g q t → Connects g q → q.class ≡ r.class → q.behind ≡ r.last → f.new.arena ≡ g.old.arena →
        f.new.slots ≡ g.old.slots → IsPrefix f.new.seen g.old.seen → Follows r.class s t }
{
    products_are_passed_on();
    the_setting_is_met();
    products_were_admitted();
    products_stay();
    own_readers();
}
