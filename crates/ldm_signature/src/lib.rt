//! Signatures of products: their making from a body, and their hexadecimal text.
#![tactic(auto)]

ghost use Rattle.std.specs.Prelude.{◌≡◌, ◌<◌, ◌↔◌, ℕ, List, length, Some, IsSome, slice_index};
ghost use Rattle.std.specs.List.{AllPass};
ghost use Rattle.std.specs.Option.{option_map};
ghost use Rattle.hex.specs.Hex.{IsBytes, encode_lower, is_hex_digit};
ghost use Rattle.md5.specs.Md5.{md5};
ghost use Rattle.ldm_signature.specs.HexSignature.{hex_signature};

use arrayvec::ArrayVec;
use hex::FromHex;
use ldm_types::Signature;
use md5::{Digest, Md5};

/// The MD5 digest of a body (RFC 1321).
pub fn sign(bytes: &[u8]) -> Signature
    ensures { result.0 ≡ md5 bytes.now }
{
    Signature(Md5::digest(bytes))
}

/// The signature that 32 hexadecimal digits of either case spell, two for each byte.
/// `None` exactly where the text is anything else.
pub fn read_hex(text: &[u8]) -> Option<Signature>
    ensures value { option_map (λ s. s.0) result ≡ hex_signature text.now }
    ensures digits { IsSome result ↔ ((length text.now ≡ 32) × AllPass is_hex_digit text.now) }
{
    <[u8; 16]>::from_hex(text).ok().map(Signature)
}

/// The 32 lower-case hexadecimal digits of a signature, two for each byte.
pub fn write_hex(s: &Signature) -> ArrayVec<u8, 32>
    ensures digits { result.items ≡ encode_lower s.now.0 }
    ensures count { length result.items ≡ 32 }
    ensures read_back { hex_signature result.items ≡ Some s.now.0 }
{
    are_bytes(s.0);
    let mut digits = [0; 32];
    if hex::encode_to_slice(s.0, &mut digits).is_err() {
        unreachable!();
    }
    ArrayVec::from(digits)
}

// What the type of the array says of it: that its digits read back rests on it.
fn are_bytes(bytes: [u8; 16])
    ensures count { length bytes ≡ 16 }
    ensures small { IsBytes bytes }
{}

/// A signature that was written is read as the same signature.
pub fn reads_what_is_written()
    ensures { (bytes : List ℕ) → length bytes ≡ 16 → IsBytes bytes → hex_signature (encode_lower bytes) ≡ Some bytes }
{}
