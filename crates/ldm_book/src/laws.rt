//! Laws of the queue: what the contracts of its calls amount to over whole runs.
ghost use Rattle.std.specs.Prelude.{◌≡◌, ◌++◌, ◌∷◌, [], ℕ, List};
ghost use Rattle.ldm_model.specs.declared.event.Entry.{Entry};
ghost use Rattle.ldm_model.specs.State.{State, empty};
ghost use Rattle.ldm_model.specs.History.{after, IsLegal};
ghost use Rattle.ldm_model.specs.Law.{ObeysLaw};
ghost use Rattle.ldm_model.specs.Filling.{ObeysFilling};
ghost use Rattle.ldm_book.specs.View.{BookView};
ghost use Rattle.ldm_book.specs.Stands.{StandsFor};
ghost use Rattle.ldm_book.specs.Restoring.{all_closed};
ghost use Rattle.ldm_book.specs.Reopening.{closings, reopened};
ghost use Rattle.ldm_book.specs.Runs.{Made, IsCall, IsRun, entries};

use ldm_model::{every_reader_is_served, histories_append, reservations_are_filled};

/// The first-in-first-out law: whatever is inserted, held, released, evicted and stepped over, each reader is given the
/// queued products of its feeds whole, in insertion order and each once, and is told exactly how many were evicted
/// unread before anything later is given.
///
/// It holds of every legal history, with no premise beyond that. [`runs_are_legal`] binds the calls of a `Book` to it.
pub fn fifo()
    ensures obeys_law { (arena slots : ℕ) (history : List Entry) → IsLegal arena slots history
        → ObeysLaw arena slots history }
{
    every_reader_is_served();
}

/// The filling law: from the call that reserves a region to the one that ends the reservation, its positions are
/// covered by no queued product and no other reservation, and it has the bytes that its owner filled in. A commit
/// admits the reserved metadata with these bytes.
///
/// It holds of every legal history, as [`fifo`] does.
pub fn filled()
    ensures { (arena slots : ℕ) (history : List Entry) → IsLegal arena slots history
        → ObeysFilling arena slots history }
{
    reservations_are_filled();
}

/// A run of a book is a legal history: calls of a new book, each answered as its clause `answers` says by the book that
/// the call before it left. So [`fifo`] holds of the replies of every run.
///
/// A caller who makes one call after another keeps to `start` and `call`. A new book stands for the state after no
/// entry. If a book stands for the state after a legal history, then the history with the entry of one more call behind
/// it is legal, and the book that the call leaves stands for the state after it.
pub fn runs_are_legal()
    ensures run { (arena slots : ℕ) (book : BookView) (calls : List Made) → StandsFor book (empty arena slots)
        → IsRun book calls →
        IsLegal arena slots (entries calls) }
    ensures start { (arena slots : ℕ) (book : BookView) → StandsFor book (empty arena slots) →
        IsLegal arena slots [] × StandsFor book (after arena slots []) }
    ensures call { (arena slots : ℕ) (history : List Entry) (book : BookView) (made : Made) →
        IsLegal arena slots history → StandsFor book (after arena slots history) → IsCall book made →
        IsLegal arena slots (history ++ made.entry ∷ [])
        × StandsFor made.book (after arena slots (history ++ made.entry ∷ [])) }
{
    histories_append();
}

/// A queue that is restored goes on where the saved one would, had each cursor been closed by its owner, and then each
/// reservation given up by its: these calls can be made after every legal history, and lead to the state that the
/// restored queue stands for. So what holds of legal histories, as [`fifo`], goes on to hold over a restoring.
pub fn closing_reopens()
    ensures stands { (book : BookView) (s : State) → StandsFor book s → StandsFor (all_closed book) (reopened s) }
    ensures legal { (arena slots : ℕ) (history : List Entry) → IsLegal arena slots history
        → IsLegal arena slots (history ++ closings (after arena slots history)) }
    ensures state { (arena slots : ℕ) (history : List Entry) → IsLegal arena slots history
        → after arena slots (history ++ closings (after arena slots history)) ≡ reopened (after arena slots history) }
{
    histories_append();
}
