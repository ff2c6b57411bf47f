//! A check of the definitions: worked examples that compute.
ghost use Rattle.std.specs.Prelude.{◌≡◌, [], ◌∷◌, ◌++◌, Ok, Err, codes, replicate};
ghost use Rattle.ldm_xdr.specs.declared.fault.XdrFault.TheVariants.{Short, TooLong, Padding, Micros, Nul};
ghost use Rattle.ldm_xdr.specs.Examples.{small, to_origin, to_ident};
ghost use Rattle.ldm_xdr.specs.Reading.{metadata_at_front};

/// Worked examples of metadata that cannot be read: each fault with its place.
#[tactic(auto, unfolding(crate::specs::Reading::metadata_at_front, crate::specs::Reading::metadata_in, crate::specs::Reading::micros_in, crate::specs::Reading::text_in, crate::specs::Fields::padded_in, crate::specs::Fields::number_in))]
pub fn worked_examples()
    ensures nothing { metadata_at_front [] ≡ Err (Short 0) }
    ensures micros_short { metadata_at_front (small 1 ++ 0 ∷ 0 ∷ 0 ∷ []) ≡ Err (Short 4) }
    // 1,000,000, and one less with nothing behind it
    ensures micros { metadata_at_front (small 1 ++ 0 ∷ 15 ∷ 66 ∷ 64 ∷ []) ≡ Err (Micros 4) }
    ensures most_micros { metadata_at_front (small 1 ++ 0 ∷ 15 ∷ 66 ∷ 63 ∷ []) ≡ Err (Short 8) }
    ensures signature_short { metadata_at_front (small 1 ++ small 0 ++ replicate 15 7) ≡ Err (Short 8) }
    ensures length_short { metadata_at_front (to_origin ++ 0 ∷ 0 ∷ 0 ∷ []) ≡ Err (Short 24) }
    ensures origin_long { metadata_at_front (to_origin ++ small 65) ≡ Err (TooLong 24) }
    // a text without the byte of its padding
    ensures origin_short { metadata_at_front (to_origin ++ small 3 ++ codes "abc") ≡ Err (Short 24) }
    // a zero byte in a text, whose padding is not zero either
    ensures nul { metadata_at_front (to_origin ++ small 3 ++ 97 ∷ 0 ∷ 99 ∷ 1 ∷ []) ≡ Err (Nul 29) }
    ensures padding { metadata_at_front (to_origin ++ small 1 ++ 97 ∷ 0 ∷ 7 ∷ 0 ∷ []) ≡ Err (Padding 30) }
    ensures feed_short { metadata_at_front (to_origin ++ small 0) ≡ Err (Short 28) }
    ensures seqno_short { metadata_at_front (to_origin ++ small 0 ++ small 4 ++ 0 ∷ []) ≡ Err (Short 32) }
    ensures ident_long { metadata_at_front (to_ident ++ 0 ∷ 0 ∷ 1 ∷ 0 ∷ []) ≡ Err (TooLong 36) }
    ensures size_short { metadata_at_front (to_ident ++ small 2 ++ codes "ab" ++ 0 ∷ 0 ∷ 0 ∷ 0 ∷ 0 ∷ [])
        ≡ Err (Short 44) }
    ensures whole { metadata_at_front (to_ident ++ small 0 ++ small 9) ≡ Ok (
      record { arrival = 1000000; signature = replicate 16 7; origin = []; feed = 4; seqno = 2; ident = []; size = 9 },
      44,
    ) }
{}
