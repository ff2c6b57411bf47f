//! The body of a product, read from the queue into what is gathered.
ghost use Rattle.std.specs.Prelude.{◌≡◌, ◌+◌, ◌≤◌, ◌++◌, ℕ, List, replicate, OnOk};
ghost use Rattle.ldm_outside.specs.Clock.{ClockRecord};
ghost use Rattle.ldm_outside.specs.Link.{IsNotClosed};
ghost use Rattle.ldm_shared.specs.Passes.{IsPassOf, IsSamePass};
ghost use Rattle.ldm_shared.specs.Reader.{Holds};
ghost use Rattle.ldm_upstream.specs.ProductDeeds.{part_of};
ghost use Rattle.ldm_sender.specs.Does.{moment_of};
ghost use Rattle.ldm_upstream.specs.Giving.{given_of, ReadsPart, ReadsAll};

use crate::lent::Lent;
use ldm_outside::Link;
use ldm_relay::LARGEST_BLOCK;
use ldm_sender::SendEnd;
use ldm_session::send_where_full;
use ldm_shared::{Pass, Shared, Turn};
use ldm_types::OutOfMemory;
use std::sync::Wait;

// Appends a part of the body of the product that is held.
pub(crate) fn append_part<H: Wait>(
    rt: &H,
    shared: &Shared,
    pass: &mut Pass,
    lent: &Lent<'_>,
    offset: u32,
    len: u32,
    out: &mut Vec<u8>,
) -> Result<(), SendEnd>
    requires of { IsPassOf shared.now pass.old }
    requires holds { (body : List ℕ) × Holds pass.old lent.now.reader.k lent.now.held.now body }
    requires within { offset + len ≤ lent.now.held.now.info.size }
    ensures kept { IsSamePass pass.old pass.new }
    ensures read { (body : List ℕ) → Holds pass.old lent.now.reader.k lent.now.held.now body
        → ReadsPart result lent.now.reader.k (given_of lent.now.held.now body) offset
        (part_of offset len body) pass.old pass.new out.old.items out.new.items }
{
    out.reserve(len as usize)?;
    match lent
        .reader
        .read_onto(shared, rt, pass, lent.held, offset, len, out)
    {
        Turn::Done(()) => Ok(()),
        Turn::Worn { .. } => Err(SendEnd::Worn),
    }
}

// Appends so many zero bytes.
pub(crate) fn append_zeros(count: usize, out: &mut Vec<u8>) -> Result<(), OutOfMemory>
    requires { count ≤ 3 }
    ensures { OnOk result (out.new.items ≡ out.old.items ++ replicate count 0) }
{
    out.extend_from_slice(&[0; 3][..count])?;
    Ok(())
}

// Appends the whole body of the product that is held, a block at a time, and sends what is gathered where that is much.
pub(crate) fn append_body<H: Wait, K: Link>(
    rt: &H,
    shared: &Shared,
    pass: &mut Pass,
    link: &mut K,
    lent: &Lent<'_>,
    out: &mut Vec<u8>,
) -> Result<(), SendEnd>
    requires of { IsPassOf shared.now pass.old }
    requires holds { (body : List ℕ) × Holds pass.old lent.now.reader.k lent.now.held.now body }
    requires not_closed { IsNotClosed (K.tells link.old) }
    ensures kept { IsSamePass pass.old pass.new }
    ensures still_open { IsNotClosed (K.tells link.new) }
    ensures read { (body : List ℕ) (clock : ClockRecord) → Holds pass.old lent.now.reader.k lent.now.held.now body
        → ReadsAll result lent.now.reader.k (given_of lent.now.held.now body)
        (moment_of pass.old (K.tells link.old) clock out.old.items)
        (moment_of pass.new (K.tells link.new) clock out.new.items) }
{
    let size = lent.held.info.size();
    let mut at = 0;
    while at < size {
        let len = (size - at).min(LARGEST_BLOCK as u32);
        append_part(rt, shared, pass, lent, at, len, out)?;
        send_where_full(out, link)?;
        at += len;
    }
    Ok(())
}
