//! A check of the definitions: worked examples that compute.
ghost use Rattle.std.specs.Prelude.{◌≡◌, ◌++◌, ◌∷◌, [], length, take, drop, replicate};
ghost use Rattle.ldm_book.specs.Restoring.{IsRestorable};
ghost use Rattle.ldm_image.specs.Image.{image, image_with};
ghost use Rattle.ldm_image.specs.Fault.{arena_in, slots_in, admitted_in, last_in, count_in, number_in};
ghost use Rattle.ldm_image.specs.Fault.{time_in, place_in, arena_start, arena_bytes, fields, IsFaultyAt};
ghost use Rattle.ldm_image.specs.Fault.{Magic, Version, Gate, Zeros, Arena, Slots, Admitted, Last, Count};
ghost use Rattle.ldm_image.specs.Fault.{RowNumber, RowTime, RowPlace, Bytes, Surplus};
ghost use Rattle.ldm_image.specs.Examples.{empty_book, book_of_one, sample_bytes, small};

/// Worked examples of the image, worked out by hand: of an empty queue of 64 bytes and 10 slots, and of one with a
/// product of four bytes at the beginning of the arena, inserted at 100.
pub fn worked_examples()
    ensures empty { image (empty_book 64 10)
        ≡ (76 ∷ 68 ∷ 77 ∷ 81 ∷ 1 ∷ 1 ∷ 0 ∷ 0 ∷ []) ++ small 64 ++ small 10 ++ small 0 ++ small 0 ++ small 0
        ++ replicate 64 0 }
    ensures one { image book_of_one
        ≡ (76 ∷ 68 ∷ 77 ∷ 81 ∷ 1 ∷ 1 ∷ 0 ∷ 0 ∷ []) ++ small 64 ++ small 10 ++ small 1 ++ small 101 ++ small 1
        ++ small 0 ++ small 100 ++ small 0 ++ sample_bytes ++ replicate 8 0 }
    ensures length_of_one { length (image book_of_one) ≡ 136 }
    ensures gate_alone { image_with 0 book_of_one ≡ take 5 (image book_of_one) ++ 0 ∷ drop 6 (image book_of_one) }
    ensures sizes { (arena_in (image book_of_one) ≡ 64) × (slots_in (image book_of_one) ≡ 10) }
    ensures numbers { (admitted_in (image book_of_one) ≡ 1) × (last_in (image book_of_one) ≡ 101)
        × (count_in (image book_of_one) ≡ 1) }
    ensures row { (number_in 0 (image book_of_one) ≡ 0) × (time_in 0 (image book_of_one) ≡ 100)
        × (place_in 0 (image book_of_one) ≡ 0) }
    ensures arena { (arena_start (image book_of_one) ≡ 72) × (arena_bytes (image book_of_one) ≡ book_of_one.bytes) }
    ensures all_fields { fields (image book_of_one)
        ≡ Magic ∷ Version ∷ Gate ∷ Zeros ∷ Arena ∷ Slots ∷ Admitted ∷ Last ∷ Count ∷ RowNumber 0 ∷ RowTime 0
        ∷ RowPlace 0 ∷ Bytes ∷ Surplus ∷ [] }
    // An empty queue has an image; no bytes have none, nor have the first 12 of it, nor has it with a byte more.
    ensures lawful { IsRestorable (empty_book 64 10) }
    ensures no_bytes { IsFaultyAt [] 0 }
    ensures cut_short { IsFaultyAt (take 12 (image (empty_book 64 10))) 8 }
    ensures surplus { IsFaultyAt (image (empty_book 64 10) ++ 0 ∷ []) 112 }
{}
