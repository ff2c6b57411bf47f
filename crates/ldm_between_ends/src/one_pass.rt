//! The same law of the call that feeds, on a queue of one pass.
ghost use Rattle.std.specs.Prelude.{◌≡◌, ℕ, List, true, None};
ghost use Rattle.ldm_outside.specs.Session.{SessionRecord};
ghost use Rattle.ldm_class.specs.Classes.{resumed};
ghost use Rattle.ldm_shared.specs.Passes.{PassView};
ghost use Rattle.ldm_sender.specs.declared.end.SendEnd.{SendEnd};
ghost use Rattle.ldm_sender.specs.declared.end.SendEnd.TheVariants as end;
ghost use Rattle.ldm_sender.specs.Asked.{Asked};
ghost use Rattle.ldm_sender.specs.Acts.{is_whole};
ghost use Rattle.ldm_upstream.specs.Feeds.{Feeds};
ghost use Rattle.ldm_between_ends.specs.Alone.{due_rows, offered_of};
ghost use Rattle.ldm_between_ends.specs.OnePass.{IsOnlyPass, state_of};

use crate::alone::{a_sole_reader_is_given_all, due_products_are_offered};
use ldm_shared::one_pass;

/// What a call feeds that has the only pass of a queue. Where the gate stopped it, just the products were offered to
/// the peer that were queued when it began, those that are due, in order. After each whole end the queue is as it was.
pub fn one_pass_is_fed_all()
    ensures offered { (asked : Asked) (ahead : List ℕ) (old new : PassView) (before after : SessionRecord) →
        (feeds : Feeds end.Stopped asked ahead old new before after) → IsOnlyPass old →
        asked.class.from ≡ 0 → resumed asked.class.specs.items ≡ None
        → offered_of feeds.feeding ≡ due_rows asked (state_of old) }
    ensures unchanged { (why : SendEnd) (asked : Asked) (ahead : List ℕ) (old new : PassView)
        (before after : SessionRecord) →
        Feeds why asked ahead old new before after → IsOnlyPass old → is_whole why ≡ true
        → state_of new ≡ state_of old }
{
    one_pass();
    a_sole_reader_is_given_all();
    due_products_are_offered();
}
