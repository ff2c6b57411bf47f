//! Examples of what a crash may leave.
ghost use Rattle.std.specs.Prelude.{◌≡◌, ◌∷◌, [], true, false};
ghost use Rattle.ldm_disk_memory.specs.MemDisk.{first_file, file_written, file_cut, leaves};

/// Worked examples, worked out by hand: which files a crash may leave after a write and after a cut.
pub fn worked_examples()
    // A piece of one byte is written at 1 over three.
    ensures any_byte { leaves (file_written 1 (7 ∷ []) (first_file (1 ∷ 2 ∷ 3 ∷ []))).now (1 ∷ 99 ∷ 3 ∷ []) ≡ true }
    ensures not_before { leaves (file_written 1 (7 ∷ []) (first_file (1 ∷ 2 ∷ 3 ∷ []))).now (9 ∷ 7 ∷ 3 ∷ []) ≡ false }
    ensures not_behind { leaves (file_written 1 (7 ∷ []) (first_file (1 ∷ 2 ∷ 3 ∷ []))).now (1 ∷ 7 ∷ 9 ∷ []) ≡ false }
    // A piece of one byte is written at 2, one past the end.
    ensures old_length { leaves (file_written 2 (7 ∷ []) (first_file (1 ∷ []))).now (1 ∷ []) ≡ true }
    ensures new_length { leaves (file_written 2 (7 ∷ []) (first_file (1 ∷ []))).now (1 ∷ 8 ∷ 9 ∷ []) ≡ true }
    ensures none_between { leaves (file_written 2 (7 ∷ []) (first_file (1 ∷ []))).now (1 ∷ 8 ∷ []) ≡ false }
    // Three bytes are cut to one.
    ensures uncut { leaves (file_cut 1 (first_file (1 ∷ 2 ∷ 3 ∷ []))).now (1 ∷ 2 ∷ 3 ∷ []) ≡ true }
    ensures cut { leaves (file_cut 1 (first_file (1 ∷ 2 ∷ 3 ∷ []))).now (1 ∷ []) ≡ true }
    ensures not_half_cut { leaves (file_cut 1 (first_file (1 ∷ 2 ∷ 3 ∷ []))).now (1 ∷ 2 ∷ []) ≡ false }
    ensures not_changed_by_a_cut { leaves (file_cut 1 (first_file (1 ∷ 2 ∷ 3 ∷ []))).now (1 ∷ 9 ∷ 3 ∷ []) ≡ false }
{}
