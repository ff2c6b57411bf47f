//! How many bytes metadata take.
ghost use Rattle.std.specs.Prelude.{◌≡◌, ◌+◌, ◌<◌, ◌≤◌, ◌^◌};
ghost use Rattle.ldm_types.specs.Info.{pad4, metadata_len};

use ldm_types::Info;

/// The most bytes that metadata take: both texts as long as they may be.
pub const LONGEST_METADATA: usize = 364;

/// The number of bytes that the metadata take when they are spelled: 44 for the numbers, the signature
/// and the lengths of the two texts, and each text with its padding (RFC 4506, sections 4.9 and 4.11).
pub fn info_len(info: &Info) -> usize
    ensures value { result ≡ metadata_len info.now }
    ensures bound { result ≤ LONGEST_METADATA }
{
    44 + padded(info.origin().len()) + padded(info.ident().len())
}

/// A length rounded up to a multiple of four.
pub(crate) fn padded(length: usize) -> usize
    requires { length + 3 < 2 ^ 64 }
    ensures { result ≡ pad4 length }
{
    length.div_ceil(4) * 4
}
