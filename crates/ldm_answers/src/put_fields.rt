//! Fields that are written, a blank in front of each.
ghost use Rattle.std.specs.Prelude.{◌≡◌, ◌+◌, ◌*◌, ◌<◌, ◌≤◌, ◌++◌, length, decimal, Some};
ghost use Rattle.arrayvec.specs.ArrayVec.{array_vec_len};
ghost use Rattle.hex.specs.Hex.{IsBytes, encode_lower};
ghost use Rattle.ldm_feedtype.specs.Text.{feed_digits};
ghost use Rattle.ldm_feedtype.specs.Reading.{feed_number};
ghost use Rattle.ldm_signature.specs.HexSignature.{hex_signature};
ghost use Rattle.ldm_answers.specs.Answer.{blank_field, blank_number, info_text, product_text};
ghost use Rattle.ldm_answers.specs.Number.{instant_of, four_bytes};
ghost use Rattle.ldm_answers.specs.ReadsBack.{InfoReadsBack, ProductReadsBack};
ghost use Rattle.ldm_answers.specs.Texts.{spelled};

use crate::answer::{LONGEST_ANSWER, Text};
use crate::texts::{put, put_number, spell};
use ldm_feedtype::feed_text;
use ldm_signature::write_hex;
use ldm_types::{Feed, Info, Micros, Signature};

/// Appends a field.
pub fn put_blank(out: &mut Text, field: &[u8])
    requires { array_vec_len out.old + length field.now + 1 ≤ LONGEST_ANSWER }
    ensures text { out.new.items ≡ out.old.items ++ blank_field field.now }
    ensures len { array_vec_len out.new ≡ array_vec_len out.old + length field.now + 1 }
{
    out.push(b' ');
    put(out, field);
}

/// Appends the spelling of a text.
pub fn put_blank_text(out: &mut Text, text: &[u8])
    requires { array_vec_len out.old + 3 * length text.now + 2 ≤ LONGEST_ANSWER }
    ensures text { out.new.items ≡ out.old.items ++ blank_field (spelled text.now) }
    ensures len { array_vec_len out.new ≤ array_vec_len out.old + 3 * length text.now + 2 }
    ensures bytes { IsBytes text.now }
{
    out.push(b' ');
    spell(text, out);
}

/// Appends a number in decimal digits.
pub fn put_blank_number(out: &mut Text, n: u64)
    requires { array_vec_len out.old + 21 ≤ LONGEST_ANSWER }
    ensures text { out.new.items ≡ out.old.items ++ blank_number n }
    ensures len { array_vec_len out.new ≤ array_vec_len out.old + 21 }
{
    out.push(b' ');
    put_number(out, n);
}

/// Appends an instant.
pub fn put_instant(out: &mut Text, instant: Micros)
    requires { array_vec_len out.old + 21 ≤ LONGEST_ANSWER }
    ensures text { out.new.items ≡ out.old.items ++ blank_number instant }
    ensures len { array_vec_len out.new ≤ array_vec_len out.old + 21 }
    ensures read_back { instant_of (decimal instant) ≡ Some instant }
{
    put_blank_number(out, instant.get());
}

/// Appends a number of four bytes.
pub fn put_four_bytes(out: &mut Text, n: u32)
    requires { array_vec_len out.old + 21 ≤ LONGEST_ANSWER }
    ensures text { out.new.items ≡ out.old.items ++ blank_number n }
    ensures len { array_vec_len out.new ≤ array_vec_len out.old + 21 }
    ensures read_back { four_bytes (decimal n) ≡ Some n }
{
    put_blank_number(out, u64::from(n));
}

/// Appends the 32 digits of a signature.
pub fn put_signature(out: &mut Text, signature: &Signature)
    requires { array_vec_len out.old + 33 ≤ LONGEST_ANSWER }
    ensures text { out.new.items ≡ out.old.items ++ blank_field (encode_lower signature.now.0) }
    ensures len { array_vec_len out.new ≤ array_vec_len out.old + 33 }
    ensures read_back { hex_signature (encode_lower signature.now.0) ≡ Some signature.now.0 }
{
    put_blank(out, write_hex(signature).as_slice());
}

/// Appends a set of feedtypes.
pub fn put_feed(out: &mut Text, feed: Feed)
    requires { array_vec_len out.old + 17 ≤ LONGEST_ANSWER }
    ensures text { out.new.items ≡ out.old.items ++ blank_field (feed_digits feed.0) }
    ensures len { array_vec_len out.new ≤ array_vec_len out.old + 17 }
    ensures read_back { feed_number (feed_digits feed.0) ≡ Some feed.0 }
{
    put_blank(out, feed_text(feed).as_slice());
}

/// Appends `SIG FEED SEQNO ORIGIN IDENT` of a product.
pub fn put_product_fields(out: &mut Text, info: &Info)
    requires { array_vec_len out.old ≤ 200 }
    ensures text { out.new.items ≡ out.old.items ++ product_text info.now }
    ensures len { array_vec_len out.new ≤ array_vec_len out.old + 1100 }
    ensures read_back { ProductReadsBack info.now }
{
    put_signature(out, &info.signature());
    put_feed(out, info.feed());
    put_four_bytes(out, info.seqno());
    put_blank_text(out, info.origin());
    put_blank_text(out, info.ident());
}

/// Appends `ARRIVAL SIG FEED SEQNO ORIGIN IDENT SIZE` of a product.
pub fn put_info(out: &mut Text, info: &Info)
    requires { array_vec_len out.old ≤ 150 }
    ensures text { out.new.items ≡ out.old.items ++ info_text info.now }
    ensures room { array_vec_len out.new < LONGEST_ANSWER }
    ensures read_back { InfoReadsBack info.now }
{
    put_instant(out, info.arrival());
    put_product_fields(out, info);
    put_four_bytes(out, info.size());
}
