//! Laws of crashes: what the contracts of the calls of a disk amount to over many.
ghost use Rattle.std.specs.Prelude.{◌≡◌, ◌∷◌, [], Bool, true, ℕ, List};
ghost use Rattle.ldm_disk.specs.Told.{FileRecord, IsConsistent};
ghost use Rattle.ldm_disk.specs.Model.{Step, written_at, cut_to};
ghost use Rattle.ldm_disk.specs.Moments.{Elapses, Run, LeavesOnly, AllKeep, Passes};

/// Whatever calls are made, a crash at any moment since their start leaves a file that passes a test, if each that a
/// crash may leave at the start passes it and each call keeps it.
pub fn crashes_keep()
    ensures { (test : List ℕ → Bool) (steps : List Step) (old new : FileRecord) → IsConsistent old →
        ((left : List ℕ) → old.may_leave left ≡ true → test left ≡ true) → AllKeep test steps → Run steps old new →
        LeavesOnly (Passes test) old new }
{}

/// Where a crash at each moment of one run leaves what passes a test, and so at each moment of a next run, it is so at
/// each moment of both.
pub fn crashes_add_up()
    ensures { (test : List ℕ → Bool) (old mid new : FileRecord) → LeavesOnly (Passes test) old mid →
        LeavesOnly (Passes test) mid new → LeavesOnly (Passes test) old new }
{}

/// Worked examples of the model, worked out by hand: what a write and a cut make of a file.
pub fn worked_examples()
    ensures over { written_at 1 (7 ∷ 8 ∷ []) (1 ∷ 2 ∷ 3 ∷ 4 ∷ []) ≡ 1 ∷ 7 ∷ 8 ∷ 4 ∷ [] }
    ensures across_the_end { written_at 1 (7 ∷ 8 ∷ []) (1 ∷ 2 ∷ []) ≡ 1 ∷ 7 ∷ 8 ∷ [] }
    ensures past_the_end { written_at 3 (7 ∷ []) (1 ∷ []) ≡ 1 ∷ 0 ∷ 0 ∷ 7 ∷ [] }
    ensures nothing { written_at 3 [] (1 ∷ []) ≡ 1 ∷ [] }
    ensures shorter { cut_to 1 (1 ∷ 2 ∷ []) ≡ 1 ∷ [] }
    ensures longer { cut_to 3 (1 ∷ []) ≡ 1 ∷ 0 ∷ 0 ∷ [] }
{}
