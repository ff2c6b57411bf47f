//! Calls that carry bytes: their records with room for these, and up to these.
ghost use Rattle.std.specs.Prelude.{◌≡◌, ◌+◌, ◌≤◌, ◌<◌, ◌^◌, ◌++◌, ℕ, List, length, replicate, OnOk, OnErr, IfOk, IsOk};
ghost use Rattle.std.specs.Vec.{vec_len, vec_capacity};
ghost use Rattle.ldm_types.specs.Info.{pad4};
ghost use Rattle.ldm_xdr.specs.Writing.{put_at};
ghost use Rattle.ldm_rpc.specs.Spelling.{Fits as RecordFits};
ghost use Rattle.ldm_relay.specs.Appends.{HasRoom, Appends};
ghost use Rattle.ldm_relay.specs.Bodies.{body_len, with_body, front_of, CanCarry};
ghost use Rattle.ldm_relay.specs.Fits.{Fits};
ghost use Rattle.ldm_relay.specs.Spelling.{written, in_one, record_of};
ghost use Rattle.ldm_relay.specs.declared.message.TheConstants.{LARGEST_CONTENT};

use crate::length::{call_len, padded};
use crate::write::{put_front, put_unsigned, put_zeros};
use ldm_rpc::LAST_FRAGMENT;
use ldm_types::{Info, OutOfMemory, Signature};

/// A call that carries bytes, without these: who writes it says how many there will be, and has them later.
#[derive(Clone, Copy)]
pub enum CallWithBody<'a> {
    /// A [`Hereis`](crate::Hereis) with a body of `info.size()` bytes.
    Hereis {
        xid: u32,
        info: &'a Info,
    },
    /// A [`Put`](crate::Put) with a body of `info.size()` bytes.
    Put {
        xid: u32,
        info: &'a Info,
    },
    /// A [`Blkdata`](crate::Blkdata) with a block of `len` bytes.
    Blkdata {
        xid: u32,
        signature: Signature,
        number: u32,
        len: u32,
    },
}

impl CallWithBody<'_> {
    /// How many bytes it carries.
    pub fn body_len(&self) -> usize
        ensures value { result ≡ body_len self.now }
        ensures bound { result < 2 ^ 32 }
    {
        match self {
            CallWithBody::Hereis { info, .. } | CallWithBody::Put { info, .. } => {
                info.size() as usize
            }
            CallWithBody::Blkdata { len, .. } => *len as usize,
        }
    }
}

/// Where the body of a record lies in the buffer to which the record was appended.
#[derive(Clone, Copy, Debug, PartialEq, Eq)]
pub struct BodyPlace {
    /// The place of its first byte, from the beginning of the buffer.
    pub start: usize,
    /// How many bytes it has.
    pub len: usize,
}

/// Appends the record of a call, with zero bytes in the place of its body, and answers where these lie. Who writes the
/// body there has the record of the call with that body, as [`write_message`](crate::write_message) appends it: so a
/// body that comes in parts is copied into the record, and nowhere else.
///
/// A body must leave the content within [`LARGEST_CONTENT`](crate::LARGEST_CONTENT), and a block must have at most
/// [`LARGEST_BLOCK`](crate::LARGEST_BLOCK) bytes. After an `Err`, `out` is as before.
pub fn write_with_room(call: &CallWithBody, out: &mut Vec<u8>) -> Result<BodyPlace, OutOfMemory>
    requires { CanCarry call.now }
    ensures zeros { OnOk result
        (out.new.items ≡ out.old.items ++ record_of (written (with_body call.now (replicate (body_len call.now) 0)))) }
    // Whatever bytes are then written there, what was appended is the record of the call with these bytes.
    ensures filled { IfOk result (λ place. (body : List ℕ) → length body ≡ body_len call.now
        → put_at place.start body out.new.items ≡ out.old.items ++ record_of (written (with_body call.now body))) }
    ensures place { IfOk result
        (λ place. (place.len ≡ body_len call.now) × (place.start + place.len ≤ length out.new.items)) }
    // With any such body it is within the bounds of the law that it is read again, and one record of a stream.
    ensures fits { (body : List ℕ) → length body ≡ body_len call.now → Fits (with_body call.now body) }
    ensures record_fits { (body : List ℕ) → length body ≡ body_len call.now
        → RecordFits LARGEST_CONTENT (in_one (written (with_body call.now body))) }
    ensures err { OnErr result (out.new.items ≡ out.old.items) }
    // Memory is asked for only where there is no room.
    ensures enough { HasRoom out.old (record_of (written (with_body call.now (replicate (body_len call.now) 0))))
        → IsOk result }
{
    let len = call_len(call);
    out.reserve(4 + len)?;
    put_unsigned(out, LAST_FRAGMENT + len as u32);
    let start = put_zeroed(out, call);
    Ok(BodyPlace {
        start,
        len: call.body_len(),
    })
}

// Appends the content with zero bytes in the place of the body, and answers where these begin.
#[tactic(auto, using(crate::proofs::Appending::appending))]
fn put_zeroed(out: &mut Vec<u8>, call: &CallWithBody) -> usize
    requires { HasRoom out.old (front_of call.now ++ replicate (pad4 (body_len call.now)) 0) }
    ensures written { Appends out.old out.new (front_of call.now ++ replicate (pad4 (body_len call.now)) 0) }
    ensures start { result ≡ vec_len out.old + length (front_of call.now) }
{
    put_front(out, call);
    let start = out.len();
    put_zeros(out, padded(call.body_len()));
    start
}

/// Appends the record of a call up to where its body begins, and answers how many zero bytes follow the body: 0 to 3.
/// Who sends what was appended, then the body, then so many zero bytes, has sent the record of the call with that body,
/// as [`write_message`](crate::write_message) appends it: so a body may be larger than any buffer.
///
/// A body must leave the content within [`LARGEST_CONTENT`](crate::LARGEST_CONTENT), and a block must have at most
/// [`LARGEST_BLOCK`](crate::LARGEST_BLOCK) bytes. No memory is taken for the body. After an `Err`, `out` is as before.
pub fn write_head(call: &CallWithBody, out: &mut Vec<u8>) -> Result<usize, OutOfMemory>
    requires { CanCarry call.now }
    // With each body of that length, what stands there is what `write_message` appends.
    ensures ok { IfOk result (λ padding. (body : List ℕ) → length body ≡ body_len call.now
        → out.new.items ++ (body ++ replicate padding 0) ≡ out.old.items ++ record_of
        (written (with_body call.now body))) }
    ensures padding { IfOk result (λ padding. body_len call.now + padding ≡ pad4 (body_len call.now)) }
    // With any such body it is within the bounds of the law that it is read again, and one record of a stream.
    ensures fits { (body : List ℕ) → length body ≡ body_len call.now → Fits (with_body call.now body) }
    ensures record_fits { (body : List ℕ) → length body ≡ body_len call.now
        → RecordFits LARGEST_CONTENT (in_one (written (with_body call.now body))) }
    ensures err { OnErr result (out.new.items ≡ out.old.items) }
    // Memory is asked for only where there is no room for the header of the fragment and the content up to the body.
    ensures enough { vec_len out.old + 4 + length (front_of call.now) ≤ vec_capacity out.old → IsOk result }
{
    let len = call_len(call);
    let body = call.body_len();
    let with_padding = padded(body);
    out.reserve(4 + len - with_padding)?;
    put_unsigned(out, LAST_FRAGMENT + len as u32);
    put_front(out, call);
    Ok(with_padding - body)
}
