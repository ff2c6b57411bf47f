//! The law of one who reads a queue alone.
ghost use Rattle.std.specs.Prelude.{◌≡◌, ℕ, Bool, false, List, All, None};
ghost use Rattle.ldm_model.specs.declared.event.Entry.{Entry};
ghost use Rattle.ldm_model.specs.History.{after, IsLegal};
ghost use Rattle.ldm_class.specs.Classes.{resumed};
ghost use Rattle.ldm_sender.specs.Asked.{Asked};
ghost use Rattle.ldm_sender.specs.Opening.{Opened, closing_entries};
ghost use Rattle.ldm_upstream.specs.Feeding.{Feeding, Stopped, IsFeeding, given_of};
ghost use Rattle.ldm_between_ends.specs.Alone.{AreRowsOf, due_of, due_rows, is_lost, offered_of, with_feeding};

use ldm_shared::products_stay;

/// A feeding of a queue that nobody else calls meanwhile gives just the products that are queued when it begins, those
/// that are due, in order; and then the queue is as it was.
pub fn a_sole_reader_is_given_all()
    // where it is asked for all times and names no product to go on behind, and goes on to the end
    ensures given { (arena slots actor : ℕ) (front behind : List Entry) (asked : Asked) (feeding : Feeding) →
        (missed : Bool) (k end : ℕ) → IsLegal arena slots (with_feeding front actor asked feeding behind) →
        feeding.answered ≡ Opened missed k → feeding.last ≡ Stopped end →
        asked.class.from ≡ 0 → resumed asked.class.specs.items ≡ None →
        AreRowsOf (after arena slots (with_feeding front actor asked feeding behind)) (given_of feeding) →
        due_of asked (given_of feeding) ≡ due_rows asked (after arena slots front) }
    // whatever it is asked for, and however it ends
    ensures nothing_lost { (arena slots actor : ℕ) (front behind : List Entry) (asked : Asked) (feeding : Feeding) →
        IsLegal arena slots (with_feeding front actor asked feeding behind) → IsFeeding asked feeding →
        All (λ turn. is_lost turn ≡ false) feeding.turns }
    // with the call that closes the cursor, where one was opened
    ensures unchanged { (arena slots actor : ℕ) (front : List Entry) (asked : Asked) (feeding : Feeding) →
        IsLegal arena slots (with_feeding front actor asked feeding (closing_entries actor feeding.answered)) →
        IsFeeding asked feeding →
        after arena slots (with_feeding front actor asked feeding (closing_entries actor feeding.answered))
        ≡ after arena slots front }
{
    products_stay();
}

/// Of the products that its cursor is given, a feeding offers the peer just those that are due, in order.
pub fn due_products_are_offered()
    ensures { (asked : Asked) (feeding : Feeding) → IsFeeding asked feeding →
        offered_of feeding ≡ due_of asked (given_of feeding) }
{}
