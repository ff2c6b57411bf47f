//! What holds of all spellings. These functions do nothing: their contracts are the laws.
ghost use Rattle.std.specs.Prelude.{◌≡◌, ◌↔◌, ℕ, List, [], ◌++◌, length, Err};
ghost use Rattle.ldm_types.specs.Info.{Metadata, AreBytes, metadata_len};
ghost use Rattle.ldm_xdr.specs.Faults.{IsFirstFault, Size, before, field};
ghost use Rattle.ldm_xdr.specs.Reading.{metadata_at_front};
ghost use Rattle.ldm_xdr.specs.Spelling.{Fits, spelling};
ghost use Rattle.ldm_xdr.specs.declared.fault.XdrFault.{XdrFault};

/// The same bytes begin with at most one spelling, and no spelling is a proper prefix of another.
pub fn no_spelling_begins_another()
    ensures one { (a b : Metadata) (x y : List ℕ) → Fits a → Fits b → spelling a ++ x ≡ spelling b ++ y → (a ≡ b)
        × (x ≡ y) }
    ensures no_longer { (a b : Metadata) (rest : List ℕ) → Fits a → Fits b → spelling b ≡ spelling a ++ rest
        → rest ≡ [] }
{}

/// A spelling has the length that [`info_len`](crate::info_len) computes.
pub fn spelling_has_metadata_len()
    ensures { (info : Metadata) → length info.signature ≡ 16 → length (spelling info) ≡ metadata_len info }
{}

/// [`read_info`](crate::read_info) answers a fault exactly where it is that of the first field at which no spelling
/// goes on: the bytes in front of it are those of the spelling of some metadata, and no spelling goes on with what
/// stands there.
pub fn finds_the_first_fault()
    ensures fields { (info : Metadata) → spelling info ≡ before Size info ++ field Size info }
    ensures first { (bytes : List ℕ) (fault : XdrFault) → AreBytes bytes →
        (metadata_at_front bytes ≡ Err fault) ↔ IsFirstFault bytes fault }
{}
