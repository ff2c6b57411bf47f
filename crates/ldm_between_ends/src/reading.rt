//! What calls that only read leave.
ghost use Rattle.std.specs.Prelude.{◌++◌, ℕ, List, All};
ghost use Rattle.ldm_model.specs.declared.event.Entry.{Entry};
ghost use Rattle.ldm_model.specs.State.{State};
ghost use Rattle.ldm_model.specs.History.{after_entries};
ghost use Rattle.ldm_sender.specs.Asked.{Asked};
ghost use Rattle.ldm_sender.specs.Opening.{closing_entries};
ghost use Rattle.ldm_upstream.specs.Feeding.{Feeding, entries_of};
ghost use Rattle.ldm_between_ends.specs.Reading.{OnlyReads, KeepsProducts};

/// Calls that only read change nothing of a queue but cursor places, whatever they are answered.
pub fn readers_keep_products()
    ensures { (s : State) (entries : List Entry) → All OnlyReads entries → KeepsProducts s (after_entries s entries) }
{}

/// All calls of a feeding only read.
pub fn feedings_only_read()
    ensures { (actor : ℕ) (asked : Asked) (feeding : Feeding) →
        All OnlyReads (entries_of actor asked feeding ++ closing_entries actor feeding.answered) }
{}
