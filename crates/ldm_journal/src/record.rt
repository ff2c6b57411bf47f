//! The record of a product.
ghost use Rattle.std.specs.Prelude.{◌≡◌, ◌↔◌, IsTrue, ◌+◌, ◌≤◌, ◌<◌, ◌++◌, ◌^◌, length, take, IfSome};
ghost use Rattle.arrayvec.specs.ArrayVec.{array_vec_len};
ghost use Rattle.ldm_types.specs.Info.{metadata_len};
ghost use Rattle.ldm_types.specs.declared.limits.TheConstants.{GREATEST_INSTANT};
ghost use Rattle.ldm_xdr.specs.Spelling.{spelling};
ghost use Rattle.md5.specs.Md5.{md5};
ghost use Rattle.std.specs.List.{between};
ghost use Rattle.ldm_xdr.specs.Spelling.{Fits};
ghost use Rattle.ldm_journal.specs.Format.{number_at};
ghost use Rattle.ldm_journal.specs.Records.{eight, head_bytes};
ghost use Rattle.ldm_journal.specs.Reading.{JudgesCounted, JudgesRecord, TellsRecord};

use crate::entry::Entry;
use arrayvec::ArrayVec;
use byteorder::{BigEndian, ByteOrder};
use ldm_types::{Info, Micros};
use ldm_xdr::{LONGEST_METADATA, info_len, read_info, write_info};
use md5::{Digest, Md5};

/// Bytes of a record beside the metadata and the body: three numbers and the sum.
pub(crate) const FRAME: usize = 40;

// Bytes of the sum.
const SUM: usize = 16;

/// The most bytes of what stands in front of a body.
const LONGEST_HEAD: usize = 24 + LONGEST_METADATA;

/// What stands in front of a body.
pub(crate) type Head = ArrayVec<u8, LONGEST_HEAD>;

/// How many bytes the record has of a product with these metadata.
pub fn record_bytes(info: &Info) -> u64
    ensures { result ≡ 40 + metadata_len info.now + info.now.size }
{
    (FRAME + info_len(info)) as u64 + u64::from(info.size())
}

// Appends bytes, for which there is room.
fn put(out: &mut Head, bytes: &[u8])
    requires { array_vec_len out.old + length bytes.now ≤ LONGEST_HEAD }
    ensures text { out.new.items ≡ out.old.items ++ bytes.now }
    ensures len { array_vec_len out.new ≡ array_vec_len out.old + length bytes.now }
{
    if out.try_extend_from_slice(bytes).is_err() {
        unreachable!();
    }
}

/// What stands in front of the body of a product.
#[tactic(auto, unfolding(crate::specs::Records::head_bytes))]
pub(crate) fn head_of(number: u64, time: Micros, info: &Info) -> Head
    ensures text { result.items ≡ head_bytes number time info.now }
    ensures len { array_vec_len result ≡ 24 + metadata_len info.now }
    // So the product can be kept.
    ensures fits { Fits info.now }
    ensures timed { time ≤ GREATEST_INSTANT }
{
    let count = 16 + info_len(info) as u64 + u64::from(info.size());
    let mut head = Head::new();
    put(&mut head, &count.to_be_bytes());
    put(&mut head, &number.to_be_bytes());
    put(&mut head, &time.get().to_be_bytes());
    put_info(&mut head, info);
    head
}

// Appends metadata.
fn put_info(out: &mut Head, info: &Info)
    requires { array_vec_len out.old ≡ 24 }
    ensures text { out.new.items ≡ out.old.items ++ spelling info.now }
    ensures len { array_vec_len out.new ≡ 24 + metadata_len info.now }
    ensures fits { Fits info.now }
{
    let len = info_len(info);
    let mut spelled = [0u8; LONGEST_METADATA];
    write_info(info, &mut spelled);
    put(out, &spelled[..len]);
}

/// The sum of a record, by what stands in front of the body, and the body.
pub(crate) fn sum_of(head: &[u8], body: &[u8]) -> [u8; 16]
    ensures { result ≡ md5 (head.now ++ body.now) }
{
    let mut hasher = Md5::new();
    hasher.update(head);
    hasher.update(body);
    hasher.finalize()
}

/// The product whose record these bytes are, if they are that of one. Their sum is not computed.
pub(crate) fn tell(bytes: &[u8]) -> Option<Entry>
    requires { length bytes.now < 2 ^ 62 }
    ensures told { TellsRecord result bytes.now }
    ensures body { IfSome result (λ entry. entry.body_at + entry.info.size ≤ length bytes.now) }
{
    if bytes.len() < SUM {
        return None;
    }
    let (front, _) = bytes.split_at(bytes.len() - SUM);
    entry_in(front)
}

/// The product whose record these bytes are. `None` where they are the record of none.
pub(crate) fn judge(bytes: &[u8]) -> Option<Entry>
    requires { length bytes.now < 2 ^ 62 }
    ensures judged { JudgesRecord result bytes.now }
    ensures body { IfSome result (λ entry. entry.body_at + entry.info.size ≤ length bytes.now) }
{
    if bytes.len() < SUM {
        return None;
    }
    let (front, sum) = bytes.split_at(bytes.len() - SUM);
    let Some(entry) = entry_in(front) else {
        return None;
    };
    if is_sum(front, sum) {
        Some(entry)
    } else {
        None
    }
}

// Whether bytes end in their sum.
fn is_sum(front: &[u8], sum: &[u8]) -> bool
    ensures { IsTrue result ↔ (sum.now ≡ md5 front.now) }
{
    sum == Md5::digest(front).as_slice()
}

// The product of which these bytes are the record but for its sum.
fn entry_in(bytes: &[u8]) -> Option<Entry>
    requires { length bytes.now < 2 ^ 62 }
    ensures { JudgesCounted result bytes.now }
{
    if bytes.len() < 24 {
        return None;
    }
    let count = number_in(bytes, 0);
    let number = number_in(bytes, 8);
    let Some(time) = Micros::new(number_in(bytes, 16)) else {
        return None;
    };
    let (_, rest) = bytes.split_at(24);
    let Ok((info, len)) = read_info(rest) else {
        return None;
    };
    let body_at = 24 + len;
    let whole = body_at + info.size() as usize;
    if whole != bytes.len() {
        return None;
    }
    if count != (bytes.len() - 8) as u64 {
        return None;
    }
    if number == u64::MAX {
        return None;
    }
    Some(Entry {
        number,
        time,
        info,
        body_at,
    })
}

/// The number in the eight bytes at a place.
pub(crate) fn number_in(bytes: &[u8], at: usize) -> u64
    requires within { at + 8 ≤ length bytes.now }
    requires small { at < 2 ^ 40 }
    ensures value { result ≡ number_at at bytes.now }
    ensures spelled { eight result ≡ between at (at + 8) bytes.now }
{
    read_number(bytes, at)
}

#[tactic(auto, unfolding(crate::specs::Format::number_at))]
fn read_number(bytes: &[u8], at: usize) -> u64
    requires within { at + 8 ≤ length bytes.now }
    requires small { at < 2 ^ 40 }
    ensures { result ≡ number_at at bytes.now }
{
    BigEndian::read_u64(&bytes[at..])
}
