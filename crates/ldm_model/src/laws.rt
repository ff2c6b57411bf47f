//! Laws of histories: what follows from the definitions for every one of them.
ghost use Rattle.std.specs.Prelude.{◌≡◌, ◌↔◌, ◌++◌, ◌∷◌, ◌+◌, ◌≤◌, ℕ, List, true, false, All, Some, slice_get};
ghost use Rattle.std.specs.List.{AllPairs};
ghost use Rattle.ldm_types.specs.Arena.{Region, AreApart};
ghost use Rattle.ldm_types.specs.Info.{Metadata};
ghost use Rattle.ldm_model.specs.declared.event.Reply.TheVariants as reply;
ghost use Rattle.ldm_model.specs.declared.event.Entry.{Entry};
ghost use Rattle.ldm_model.specs.Product.{Product, extent_of};
ghost use Rattle.ldm_model.specs.State.{State, Row, end_of, is_queued, occupied};
ghost use Rattle.ldm_model.specs.Room.{has_room};
ghost use Rattle.ldm_model.specs.Evict.{is_held, unheld, evict_all};
ghost use Rattle.ldm_model.specs.Insert.{insert, after_evicting};
ghost use Rattle.ldm_model.specs.Law.{ObeysLaw};
ghost use Rattle.ldm_model.specs.Always.{Always, TimesRise, TimesAreInstants, LastIsNewest};
ghost use Rattle.ldm_model.specs.Always.{SignaturesDiffer, LiesOnEights, HasSlots, IsInsertable};
ghost use Rattle.ldm_model.specs.Filling.{ObeysFilling};
ghost use Rattle.ldm_model.specs.Lawful.{IsLawful};
ghost use Rattle.ldm_model.specs.History.{after, after_entries, IsLegal, IsLegalFrom, IsAdmitted, count_admissions};

/// How a history that is appended to goes on: it is legal exactly where its front is, and what stands behind is legal
/// from the state after the front on.
pub fn histories_append()
    ensures legal { (arena slots : ℕ) (front behind : List Entry) →
        IsLegal arena slots (front ++ behind) ↔
        (IsLegal arena slots front × IsLegalFrom (after arena slots front) behind) }
    ensures state { (arena slots : ℕ) (front behind : List Entry) →
        after arena slots (front ++ behind) ≡ after_entries (after arena slots front) behind }
{}

/// A product that a cursor holds is queued, after every legal history.
pub fn held_products_are_queued()
    ensures { (arena slots : ℕ) (history : List Entry) → IsLegal arena slots history →
        (n : ℕ) → is_held (after arena slots history) n ≡ true → is_queued (after arena slots history) n ≡ true }
{}

/// Every product of the state that a legal history leads to was admitted by the history, as the number and at the time
/// that it has: one entry inserted it, or one reserved a region for its metadata, others of that actor filled its body
/// in, and one committed it.
pub fn products_were_admitted()
    ensures { (arena slots : ℕ) (history : List Entry) → IsLegal arena slots history →
        (n : ℕ) (row : Row) → slice_get (after arena slots history).rows n ≡ Some row
        → IsAdmitted history n row.product row.time }
{}

/// Products are numbered in the order of their admission, from 0: each has as its number how many were admitted before
/// it.
pub fn admissions_are_numbered()
    ensures number { (arena slots : ℕ) (front : List Entry) (entry : Entry) (behind : List Entry)
        → IsLegal arena slots (front ++ entry ∷ behind) →
        (n time evicted : ℕ) → entry.reply ≡ reply.Admitted n time evicted → n ≡ count_admissions front }
    ensures committed { (arena slots : ℕ) (front : List Entry) (entry : Entry) (behind : List Entry)
        → IsLegal arena slots (front ++ entry ∷ behind) →
        (n time : ℕ) → entry.reply ≡ reply.Committed n time → n ≡ count_admissions front }
    ensures end { (arena slots : ℕ) (history : List Entry) → IsLegal arena slots history
        → end_of (after arena slots history) ≡ count_admissions history }
{}

/// The law of readers: every legal history serves each reader in the order of insertion, passes over no product that is
/// for it, and tells it of each loss once. What it is given, and what it reads, was admitted.
pub fn every_reader_is_served()
    ensures obeys_law { (arena slots : ℕ) (history : List Entry) → IsLegal arena slots history
        → ObeysLaw arena slots history }
{}

/// Insertion times rise strictly with the numbers of products, and are instants. The last insertion time is that of the
/// product that was admitted last.
pub fn times_rise()
    ensures rise { Always TimesRise }
    ensures instants { Always TimesAreInstants }
    ensures last { Always LastIsNewest }
{}

/// No two queued products have the same signature.
pub fn signatures_differ()
    ensures { Always SignaturesDiffer }
{}

/// Evicting more never takes room away. So a product that could be inserted otherwise is refused as locked exactly
/// where evicting every product that nobody holds would not make room.
pub fn evictions_make_room()
    ensures kept { (s : State) (info : Metadata) (i j : ℕ) → i ≤ j
        → has_room (after_evicting s i) (extent_of info) ≡ true
        → has_room (after_evicting s j) (extent_of info) ≡ true }
    ensures locked { (s : State) (now : ℕ) (p : Product) → IsInsertable s p →
        ((held : ℕ) × ((insert s now p).reply ≡ reply.Locked held)) ↔
        (has_room (evict_all s (unheld s)) (extent_of p.info) ≡ false) }
{}

/// What occupies the arena after a legal history, queued products and open reservations, lies within it, and no two
/// regions share a position. All begin at multiples of eight, and are multiples of eight long. No more slots are taken
/// than there are.
pub fn regions_lie_apart()
    ensures within { (arena slots : ℕ) (history : List Entry) → IsLegal arena slots history →
        All (λ (region : Region). region.start + region.extent ≤ arena) (occupied (after arena slots history)) }
    ensures apart { (arena slots : ℕ) (history : List Entry) → IsLegal arena slots history
        → AllPairs AreApart (occupied (after arena slots history)) }
    ensures eights { Always LiesOnEights }
    ensures slots { Always HasSlots }
{}

/// The filling law: from the entry that reserves a region to the one that ends the reservation, its positions are
/// covered by no queued product and no other reservation, and it has the bytes that its owner filled in. A commit
/// admits the reserved metadata with these bytes.
pub fn reservations_are_filled()
    ensures { (arena slots : ℕ) (history : List Entry) → IsLegal arena slots history
        → ObeysFilling arena slots history }
{}

/// The law of the queue: in every legal history each reader is given the queued products of its feeds whole, in
/// insertion order and each once, and is told exactly how many were evicted unread before anything later is given; each
/// reservation keeps its region and what is filled in; and an insertion is refused only as a duplicate still queued,
/// larger than the arena, locked by held regions, or out of insertion times, and then changes nothing.
pub fn histories_are_lawful()
    ensures { (arena slots : ℕ) (history : List Entry) → IsLegal arena slots history → IsLawful arena slots history }
{
    every_reader_is_served();
    reservations_are_filled();
    histories_append();
    evictions_make_room();
}
