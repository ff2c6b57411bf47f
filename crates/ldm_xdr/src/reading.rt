//! Metadata from bytes.
ghost use Rattle.std.specs.Prelude.{◌≡◌, ℕ, ◌≤◌, ◌<◌, ◌==◌, ◌++◌, List, length, drop, IfOk, Ok, None, position};
ghost use Rattle.ldm_types.specs.Info.{Metadata, AreBytes, metadata_len};
ghost use Rattle.ldm_xdr.specs.FieldReads.{Gives};
ghost use Rattle.ldm_xdr.specs.Fields.{unsigned_in, fixed_in};
ghost use Rattle.ldm_xdr.specs.Spelling.{Fits, spelling};
ghost use Rattle.ldm_xdr.specs.Reading.{cut_short, micros_in, text_in, metadata_in, metadata_at_front};

use crate::fault::XdrFault;
use crate::fields::Fields;
use crate::length::padded;
use ldm_types::{Feed, Info, LONGEST_IDENT, LONGEST_ORIGIN, Micros, Signature};

/// Reads the metadata at the front of the bytes, and answers how many bytes they take. Bytes may follow
/// them. An `Err` is the fault of the first field that cannot be read, from the left.
pub fn read_info(bytes: &[u8]) -> Result<(Info, usize), XdrFault>
    // What is read is spelled so, each byte of it, and is within the bounds.
    ensures found { IfOk result (λ x. bytes.now ≡ spelling x.0 ++ drop x.1 bytes.now) }
    ensures len { IfOk result
        (λ x. (x.1 ≡ metadata_len x.0) × (x.1 ≡ length (spelling x.0)) × (x.1 ≤ length bytes.now)) }
    ensures fits { IfOk result (λ x. Fits x.0 × AreBytes (x.0.signature ++ x.0.origin ++ x.0.ident)) }
    // What is spelled so is read, whatever follows it.
    ensures only { (info : Metadata) (rest : List ℕ) → Fits info → bytes.now ≡ spelling info ++ rest
        → result ≡ Ok (info, metadata_len info) }
    // Which fault it is.
    ensures exact { result ≡ metadata_at_front bytes.now }
{
    read_front(bytes)
}

#[tactic(auto, unfolding(crate::specs::Reading::metadata_at_front))]
fn read_front(bytes: &[u8]) -> Result<(Info, usize), XdrFault>
    ensures { result ≡ metadata_at_front bytes.now }
{
    let mut fields = Fields::of(bytes);
    let info = read_metadata(bytes.len(), &mut fields)?;
    Ok((info, bytes.len().saturating_sub(fields.left())))
}

// Each of these reads a field. `whole` is how many bytes there were before the first field was read.

/// The metadata at the front of what is left.
#[tactic(auto, using(crate::proofs::Places::no_fault), unfolding(crate::specs::Reading::metadata_in))]
pub(crate) fn read_metadata(whole: usize, fields: &mut Fields) -> Result<Info, XdrFault>
    ensures { Gives (λ info. info) result (metadata_in whole fields.old) fields.new }
{
    let seconds = read_unsigned(whole, fields)?;
    let micros = read_micros(whole, fields)?;
    let signature = read_signature(whole, fields)?;
    let origin = read_text(whole, LONGEST_ORIGIN, fields)?;
    let feed = read_unsigned(whole, fields)?;
    let seqno = read_unsigned(whole, fields)?;
    let ident = read_text(whole, LONGEST_IDENT, fields)?;
    let size = read_unsigned(whole, fields)?;
    // The tests of the fields leave nothing to refuse.
    let arrival = u64::from(seconds) * 1_000_000 + u64::from(micros);
    let Some(arrival) = Micros::new(arrival) else {
        unreachable!();
    };
    let Ok(info) = Info::new(arrival, signature, origin, Feed(feed), seqno, ident, size) else {
        unreachable!();
    };
    Ok(info)
}

fn read_unsigned(whole: usize, fields: &mut Fields) -> Result<u32, XdrFault>
    ensures { Gives (λ n. n) result (cut_short whole (unsigned_in fields.old)) fields.new }
{
    match fields.unsigned() {
        Ok(number) => Ok(number),
        Err(left) => Err(XdrFault::Short {
            at: whole.saturating_sub(left),
        }),
    }
}

#[tactic(auto, unfolding(crate::specs::Reading::micros_in))]
fn read_micros(whole: usize, fields: &mut Fields) -> Result<u32, XdrFault>
    ensures value { Gives (λ n. n) result (micros_in whole fields.old) fields.new }
    ensures small { IfOk result (λ micros. micros < 1000000) }
{
    let left = fields.left();
    let micros = read_unsigned(whole, fields)?;
    if micros >= 1_000_000 {
        return Err(XdrFault::Micros {
            at: whole.saturating_sub(left),
        });
    }
    Ok(micros)
}

fn read_signature(whole: usize, fields: &mut Fields) -> Result<Signature, XdrFault>
    ensures { Gives (λ signature. signature.0) result (cut_short whole (fixed_in 16 fields.old)) fields.new }
{
    match fields.fixed(16) {
        Ok(bytes) => {
            let mut signature = [0; 16];
            signature.copy_from_slice(bytes);
            Ok(Signature(signature))
        }
        Err(left) => Err(XdrFault::Short {
            at: whole.saturating_sub(left),
        }),
    }
}

// The text of a string of at most so many bytes.
#[tactic(auto, unfolding(crate::specs::Reading::text_in))]
fn read_text<'a>(whole: usize, limit: usize, fields: &mut Fields<'a>) -> Result<&'a [u8], XdrFault>
    ensures value { Gives (λ text. text.now) result (text_in whole limit fields.old) fields.new }
    ensures short { IfOk result (λ text. length text.now ≤ limit) }
    ensures no_nul { IfOk result (λ text. position (λ byte. byte == 0) text.now ≡ None) }
{
    let field = fields.left();
    let count = read_unsigned(whole, fields)?;
    if count as usize > limit {
        return Err(XdrFault::TooLong {
            at: whole.saturating_sub(field),
        });
    }
    let left = fields.rest();
    if left.len() < padded(count as usize) {
        return Err(XdrFault::Short {
            at: whole.saturating_sub(field),
        });
    }
    if let Some(place) = zero_byte(&left[..count as usize]) {
        return Err(XdrFault::Nul {
            at: whole.saturating_sub(left.len().saturating_sub(place)),
        });
    }
    match fields.padded(field, count) {
        Ok(text) => Ok(text),
        Err(left) => Err(XdrFault::Padding {
            at: whole.saturating_sub(left),
        }),
    }
}

// The place of the first byte that is zero.
fn zero_byte(bytes: &[u8]) -> Option<usize>
    ensures { result ≡ position (λ byte. byte == 0) bytes.now }
{
    bytes.iter().position(|byte| *byte == 0)
}
