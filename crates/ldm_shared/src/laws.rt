//! Laws of passes: what the clauses of their calls amount to.
ghost use Rattle.std.specs.Prelude.{◌≡◌, ◌↔◌, ℕ, ◌+◌, ◌++◌, ◌∷◌, [], List, true, All, Some};
ghost use Rattle.std.specs.List.Sorted.{IsStrictlyIncreasing};
ghost use mathlib.Core.List.{IsPrefix};
ghost use Rattle.ldm_types.specs.Info.{Metadata};
ghost use Rattle.ldm_model.specs.declared.event.Event.{Event};
ghost use Rattle.ldm_model.specs.declared.event.Event.TheVariants.{Step, Read};
ghost use Rattle.ldm_model.specs.declared.event.Reply.{Reply};
ghost use Rattle.ldm_model.specs.declared.event.Reply.TheVariants as reply;
ghost use Rattle.ldm_model.specs.declared.event.Entry.{Entry};
ghost use Rattle.ldm_model.specs.History.{IsLegal};
ghost use Rattle.ldm_model.specs.Law.{Point, is_step, IsServed, IsAnsweredAt};
ghost use Rattle.ldm_shared.specs.Own.{own, Adds};
ghost use Rattle.ldm_shared.specs.Passes.{SharedView, PassView, new_pass, HasSeen, Makes, Calls};
ghost use Rattle.ldm_shared.specs.Passes.{entry_of, Grows, FindsWorn, HasMet, HasAllOf, IsLast};
ghost use Rattle.ldm_shared.specs.OwnReaders.{OwnPoint, IsSeenAt, IsCalledAt, Agrees, HasLost, IsAdmittedFor};
ghost use Rattle.ldm_shared.specs.OwnReaders.{IsAdmittedWith, ReadsOfHeld, AtEveryOwnPoint, AtEveryOwnCall};
ghost use Rattle.ldm_shared.specs.OwnReaders.{numbers_given, losses_told, number_held};

use ldm_book::fifo;
use ldm_model::{histories_append, products_were_admitted};

/// What a run of calls on a pass comes to: just these entries of its own, in order, whatever other passes did
/// meanwhile.
///
/// A caller begins with `none`, adds by `one` each call that was made and by `worn`, or `met`, what made none, and
/// joins by `in_a_row`. At the end of the queue, `end` finds the same entries in the whole history.
pub fn calls_made()
    ensures none { (pass : PassView) → HasSeen pass → Makes pass pass [] }
    ensures one { (old new : PassView) (event : Event) (reply : Reply) → Grows old new event reply
        → Makes old new (entry_of old event reply ∷ []) }
    ensures worn { (old new : PassView) (turns : ℕ) → FindsWorn old new turns → Makes old new [] }
    ensures met { (old other new : PassView) → HasMet old other new → Makes old new [] }
    ensures in_a_row { (first second third : PassView) (made more : List Entry) → Makes first second made
        → Makes second third more → Makes first third (made ++ more) }
    ensures end { (old new last : PassView) (made : List Entry) → Makes old new made → HasAllOf last new
        → Adds old.actor old.seen last.seen made }

    // The same of a caller that may make none, and of whose pass nothing is known before.
    ensures nothing { (pass : PassView) → Calls pass pass [] }
    ensures some { (old new : PassView) (made : List Entry) → Makes old new made → Calls old new made }
    ensures more { (first second third : PassView) (made more : List Entry) → Calls first second made
        → Calls second third more → Calls first third (made ++ more) }

    // A new pass has seen a history that its queue can have, and so has a pass that has seen less than another.
    ensures new { (shared : SharedView) (actor : ℕ) → HasSeen (new_pass shared actor) }
    ensures front { (pass : PassView) (seen : List Entry) → HasSeen pass → IsPrefix seen pass.seen
        → HasSeen (record pass { seen = seen }) }
{
    histories_append();
}

/// With one pass the history has the entries of that pass alone: the calls that were made with it, from the opening of
/// the queue on, are the whole of it.
pub fn one_pass()
    ensures all_own { (pass : PassView) → HasSeen pass → pass.passes ≡ 1 → own 0 pass.seen ≡ pass.seen }
    ensures goes_on { (old new : PassView) (made : List Entry) → Makes old new made → old.passes ≡ 1 → old.actor ≡ 0
        → new.seen ≡ old.seen ++ made }
    ensures since_opening { (shared : SharedView) (pass : PassView) (made : List Entry)
        → Makes (new_pass shared 0) pass made → shared.passes ≡ 1 →
        (pass.seen ≡ made) × IsLegal shared.arena shared.slots made }
    ensures at_end { (shared : SharedView) (pass last : PassView) (made : List Entry)
        → Makes (new_pass shared 0) pass made → shared.passes ≡ 1 →
        IsLast shared last → HasAllOf last pass → last.seen ≡ made }
{}

/// The law of readers over a pass's own entries: what a caller can conclude of a cursor from its own calls and their
/// answers alone, whatever other actors did in between.
///
/// It holds of every pass and every cursor that it opened, at every point until it closes it. What was admitted, any
/// actor may have inserted or committed: by entries of the history that the pass has seen.
pub fn own_readers()
    // The numbers that it was given rise strictly, and under each a product of its feedtypes was admitted.
    ensures in_order { AtEveryOwnPoint (λ (pass : PassView) (q : OwnPoint). IsStrictlyIncreasing (numbers_given q)) }
    ensures of_its_feeds { AtEveryOwnPoint
        (λ (pass : PassView) (q : OwnPoint). All (IsAdmittedFor pass.seen q.feed) (numbers_given q)) }
    // What it is given was admitted with that time and these metadata, and what it reads is of the body of what it
    // holds.
    ensures gives_admitted { AtEveryOwnCall
        (λ (pass : PassView) (q : OwnPoint) (entry : Entry). (n time : ℕ) (info : Metadata) →
        entry.reply ≡ reply.Product n time info → IsAdmittedWith pass.seen n time info) }
    ensures reads_admitted { AtEveryOwnCall
        (λ (pass : PassView) (q : OwnPoint) (entry : Entry). (offset len : ℕ) (bytes : List ℕ) →
        entry.event ≡ Read q.k offset len → entry.reply ≡ reply.Bytes bytes
        → ReadsOfHeld pass.seen (number_held q) offset len bytes) }
    // With each gap it was told just what it had lost by then, and at a product or the end it has been told all.
    ensures gap_tells_all { AtEveryOwnCall (λ (pass : PassView) (q : OwnPoint) (entry : Entry). (count first last : ℕ) →
        entry.event ≡ Step q.k → entry.reply ≡ reply.Gap count first last
        → HasLost pass q entry (losses_told q + count)) }
    ensures product_after_all { AtEveryOwnCall
        (λ (pass : PassView) (q : OwnPoint) (entry : Entry). (n time : ℕ) (info : Metadata) →
        entry.reply ≡ reply.Product n time info → HasLost pass q entry (losses_told q)) }
    ensures end_after_all { AtEveryOwnCall (λ (pass : PassView) (q : OwnPoint) (entry : Entry). (at : ℕ) →
        entry.reply ≡ reply.End at → HasLost pass q entry (losses_told q)) }
    // A step is answered so exactly while it holds a product.
    ensures holding { AtEveryOwnCall
        (λ (pass : PassView) (q : OwnPoint) (entry : Entry). (n : ℕ) → is_step entry.event ≡ true →
        (entry.reply ≡ reply.Holding n) ↔ (number_held q ≡ Some n)) }

    // Each point of its own entries is one of the whole history, where the law of readers holds, and there both say the
    // same.
    ensures seen { AtEveryOwnPoint (λ (pass : PassView) (q : OwnPoint). (p : Point) × IsSeenAt pass q p) }
    ensures agrees { AtEveryOwnPoint
        (λ (pass : PassView) (q : OwnPoint). (p : Point) → IsSeenAt pass q p → Agrees q p) }
    ensures served { AtEveryOwnPoint
        (λ (pass : PassView) (q : OwnPoint). (p : Point) → IsSeenAt pass q p → IsServed p) }
    ensures answered { AtEveryOwnCall
        (λ (pass : PassView) (q : OwnPoint) (entry : Entry). (p : Point) × IsCalledAt pass q entry p
        × IsAnsweredAt p entry) }
{
    fifo();
    histories_append();
    products_were_admitted();
}
