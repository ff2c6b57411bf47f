//! Metadata to bytes.
ghost use Rattle.std.specs.Prelude.{◌≡◌, ◌+◌, ◌≤◌, ◌<◌, ◌^◌, ◌++◌, length, drop};
ghost use Rattle.ldm_types.specs.Info.{pad4, metadata_len};
ghost use Rattle.ldm_xdr.specs.Spelling.{Fits, spelling, unsigned, opaque};
ghost use Rattle.ldm_xdr.specs.Writing.{put_at};

use crate::length::padded;
use byteorder::{BigEndian, ByteOrder};
use ldm_types::Info;

/// Writes the one spelling of the metadata at the front, leaves what is behind it, and answers how many
/// bytes the spelling takes.
pub fn write_info(info: &Info, into: &mut [u8]) -> usize
    requires { metadata_len info.now ≤ length into.old }
    ensures len { result ≡ metadata_len info.now }
    ensures written { into.new ≡ spelling info.now ++ drop (metadata_len info.now) into.old }
    // So what is written can be read.
    ensures fits { Fits info.now }
{
    let arrival = info.arrival().get();
    let micros_at = put_unsigned(into, 0, (arrival / 1_000_000) as u32);
    let signature_at = put_unsigned(into, micros_at, (arrival % 1_000_000) as u32);
    let origin_at = put_bytes(into, signature_at, &info.signature().0);
    let feed_at = put_text(into, origin_at, info.origin());
    let seqno_at = put_unsigned(into, feed_at, info.feed().0);
    let ident_at = put_unsigned(into, seqno_at, info.seqno());
    let size_at = put_text(into, ident_at, info.ident());
    put_unsigned(into, size_at, info.size())
}

// Each of these writes a field at a place, and answers the place behind it.

fn put_unsigned(into: &mut [u8], at: usize, n: u32) -> usize
    requires { at + 4 ≤ length into.old }
    ensures end { result ≡ at + 4 }
    ensures written { into.new ≡ put_at at (unsigned n) into.old }
{
    BigEndian::write_u32(&mut into[at..], n);
    at + 4
}

fn put_bytes(into: &mut [u8], at: usize, bytes: &[u8]) -> usize
    requires { at + length bytes.now ≤ length into.old }
    ensures end { result ≡ at + length bytes.now }
    ensures written { into.new ≡ put_at at bytes.now into.old }
{
    let end = at + bytes.len();
    into[at..end].copy_from_slice(bytes);
    end
}

fn put_text(into: &mut [u8], at: usize, text: &[u8]) -> usize
    requires short { length text.now < 2 ^ 32 }
    requires room { at + 4 + pad4 (length text.now) ≤ length into.old }
    ensures end { result ≡ at + 4 + pad4 (length text.now) }
    ensures written { into.new ≡ put_at at (opaque text.now) into.old }
{
    let text_at = put_unsigned(into, at, text.len() as u32);
    let padding_at = put_bytes(into, text_at, text);
    let end = text_at + padded(text.len());
    into[padding_at..end].fill(0);
    end
}
