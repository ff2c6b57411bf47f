//! What holds of all sessions, cut anywhere, and of those that are resumed.
ghost use Rattle.std.specs.Prelude.{◌≡◌, ◌++◌, ℕ, ◌<◌, Bool, false, List, Contains, None, All};
ghost use Rattle.std.specs.List.Sorted.{IsStrictlyIncreasing};
ghost use mathlib.Core.List.{IsPrefix};
ghost use Rattle.ldm_types.specs.declared.class.ClassSpec.{ClassSpec};
ghost use Rattle.ldm_outside.specs.Session.{SessionRecord};
ghost use Rattle.ldm_model.specs.declared.event.Entry.{Entry};
ghost use Rattle.ldm_model.specs.Law.{Point};
ghost use Rattle.ldm_shared.specs.Passes.{PassView, HasSeen, Calls};
ghost use Rattle.ldm_sender.specs.declared.end.SendEnd.{SendEnd};
ghost use Rattle.ldm_sender.specs.Asked.{Asked};
ghost use Rattle.ldm_sender.specs.Opening.{Opened, opening_entries};
ghost use Rattle.ldm_upstream.specs.Feeding.{Feeding};
ghost use Rattle.ldm_upstream.specs.Feeds.{Feeds};
ghost use Rattle.ldm_between_ends.specs.Handed.{Handed, handed, last_of};
ghost use Rattle.ldm_between_ends.specs.Life.{HasLife, calls_of, gives};
ghost use Rattle.ldm_between_ends.specs.Session.{Session, IsSession};
ghost use Rattle.ldm_between_ends.specs.Offered.{IsAskedFor, offered, offered_products, products_left, due};
ghost use Rattle.ldm_between_ends.specs.Behind.{IsBehind, IsNextBehind};
ghost use Rattle.ldm_between_ends.specs.Resumed.{AreResumed, all_offered};
ghost use Rattle.ldm_between_ends.specs.Following.{CanName, FollowInTurn, AllFind};
ghost use Rattle.ldm_between_ends.specs.Blocks.{CameOrDeclined};

use crate::passing_laws::products_are_passed_on;
use ldm_model::{every_reader_is_served, signatures_differ};
use ldm_shared::{own_readers, products_stay};
use ldm_signature::reads_what_is_written;

/// What a feeder offers a receiver in sessions that are cut, and resumed behind the last product that was offered.
pub fn cut_sessions_resume()
    // What was offered are the first of the due products that the cursor was given, in order.
    ensures first { (s : Session) → IsSession s → IsPrefix (offered s) (due s) }
    // They are those that the receiver asked its queue for, and of the next one perhaps some was asked.
    ensures taken { (s : Session) → IsSession s → IsAskedFor s.passing (offered_products s) (products_left s) }
    // What it asked fits no others of the products that the feeder sent or announced.
    ensures no_others { (s : Session) (done left : List Handed) → done ++ left ≡ handed s.passing.feeding →
        IsAskedFor s.passing done left → done ≡ offered_products s }
    // The receiver goes on behind the last of them.
    ensures last { (s : Session) → IsSession s →
        s.passing.came_to.receiving.last ≡ last_of s.passing.begins.last (offered_products s) }
    // A product that is larger than what is to come whole, and has a byte, was offered only where its last block came
    // or it was declined.
    ensures in_blocks { (s : Session) → IsSession s → (product : Handed) → Contains (offered_products s) product →
        s.passing.asked.max_hereis < product.given.product.info.size → 0 < product.given.product.info.size →
        CameOrDeclined s.passing product.given.product }
    // A session that goes on behind a product offers only later ones.
    ensures behind { (s : Session) (n : ℕ) → IsSession s → IsBehind s n → All (λ m. n < m) (offered s) }
    // It passes over none that stayed queued.
    ensures passes_over { (s : Session) (n : ℕ) → IsSession s → IsBehind s n → All (IsNextBehind s n) (offered s) }
    // Sessions that go on behind the last product of those before offer none twice.
    ensures rising { (sessions : List Session) → AreResumed None sessions
        → IsStrictlyIncreasing (all_offered sessions) }
    // A receiver that asks for a class behind the last product that it has taken goes on so, while the feeder finds
    // that product.
    ensures resumed { (class : ClassSpec) (sessions : List Session) → CanName class → FollowInTurn class sessions →
        AllFind None sessions → AreResumed None sessions }
{
    every_reader_is_served();
    signatures_differ();
    products_are_passed_on();
    products_stay();
    reads_what_is_written();
}

/// How the life of a cursor, of which the sessions speak, comes to be.
pub fn feedings_have_lives()
    // A pass that made the calls of a feeding, and perhaps broke off behind the last one that gave a product, and then
    // made others.
    ensures called { (old new : PassView) (asked : Asked) (feeding : Feeding) (missed : Bool) (k : ℕ)
        (called unmade more : List Entry) →
        HasSeen old → Calls old new (opening_entries old.actor asked feeding.answered ++ (called ++ more)) →
        feeding.answered ≡ Opened missed k → called ++ unmade ≡ calls_of old.actor k feeding →
        All (λ entry. gives entry.reply ≡ false) unmade → (life : Point) × HasLife new asked feeding life }
    // A call that feeds, at each of its ends.
    ensures fed { (why : SendEnd) (asked : Asked) (ahead : List ℕ) (old new : PassView) (before after : SessionRecord) →
        (feeds : Feeds why asked ahead old new before after) → HasSeen old →
        (missed : Bool) (k : ℕ) → feeds.feeding.answered ≡ Opened missed k → (life : Point)
        × HasLife new asked feeds.feeding life }
{
    own_readers();
}
