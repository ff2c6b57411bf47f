//! The messages that carry a product: one that has it whole, or blocks.
ghost use Rattle.std.specs.Prelude.{◌+◌, ◌≤◌, ℕ, List};
ghost use Rattle.ldm_outside.specs.Link.{IsNotClosed};
ghost use Rattle.ldm_shared.specs.Passes.{IsPassOf, IsSamePass};
ghost use Rattle.ldm_shared.specs.Reader.{Holds};
ghost use Rattle.ldm_relay.specs.Writable.{IsShortProduct};
ghost use Rattle.ldm_relay.specs.declared.message.TheConstants.{LARGEST_BLOCK};
ghost use Rattle.ldm_sender.specs.Does.{moment_of};
ghost use Rattle.ldm_upstream.specs.Giving.{given_of, block_of, GivesWhole, GivesBlock, GivesBlocks};

use crate::body::{append_body, append_part, append_zeros};
use crate::lent::{Lent, Part};
use ldm_outside::{Clock, Link};
use ldm_relay::{CallWithBody, LARGEST_BLOCK, write_head};
use ldm_sender::{SendEnd, Standing, count_call};
use ldm_session::send_where_full;
use ldm_shared::{Pass, Shared};
use std::sync::Wait;

// Gives the product that is held whole, in one HEREIS.
pub(crate) fn give_whole<H: Wait, K: Link, C: Clock>(
    rt: &H,
    shared: &Shared,
    pass: &mut Pass,
    link: &mut K,
    clock: &mut C,
    lent: &Lent<'_>,
    standing: &mut Standing,
    out: &mut Vec<u8>,
) -> Result<(), SendEnd>
    requires of { IsPassOf shared.now pass.old }
    requires holds { (body : List ℕ) × Holds pass.old lent.now.reader.k lent.now.held.now body }
    requires short { IsShortProduct lent.now.held.now.info lent.now.held.now.info.size }
    requires not_closed { IsNotClosed (K.tells link.old) }
    ensures kept { IsSamePass pass.old pass.new }
    ensures still_open { IsNotClosed (K.tells link.new) }
    ensures gives { (body : List ℕ) → Holds pass.old lent.now.reader.k lent.now.held.now body
        → GivesWhole result lent.now.reader.k (given_of lent.now.held.now body) standing.old standing.new
        (moment_of pass.old (K.tells link.old) (C.tells clock.old) out.old.items)
        (moment_of pass.new (K.tells link.new) (C.tells clock.new) out.new.items) }
{
    let call = CallWithBody::Hereis {
        xid: standing.next,
        info: &lent.held.info,
    };
    let padding = write_head(&call, out)?;
    append_body(rt, shared, pass, link, lent, out)?;
    append_zeros(padding, out)?;
    count_call(standing, clock);
    send_where_full(out, link)?;
    Ok(())
}

// Gives one block of the product that is held.
pub(crate) fn give_block<H: Wait, K: Link, C: Clock>(
    rt: &H,
    shared: &Shared,
    pass: &mut Pass,
    link: &mut K,
    clock: &mut C,
    part: &Part<'_>,
    standing: &mut Standing,
    out: &mut Vec<u8>,
) -> Result<(), SendEnd>
    requires of { IsPassOf shared.now pass.old }
    requires holds { (body : List ℕ) × Holds pass.old part.now.lent.reader.k part.now.lent.held.now body }
    requires within { part.now.offset + part.now.len ≤ part.now.lent.held.now.info.size }
    requires block { part.now.len ≤ LARGEST_BLOCK }
    requires not_closed { IsNotClosed (K.tells link.old) }
    ensures kept { IsSamePass pass.old pass.new }
    ensures still_open { IsNotClosed (K.tells link.new) }
    ensures gives { (body : List ℕ) → Holds pass.old part.now.lent.reader.k part.now.lent.held.now body
        → GivesBlock result part.now.lent.reader.k (given_of part.now.lent.held.now body)
        (block_of part.now body) standing.old standing.new
        (moment_of pass.old (K.tells link.old) (C.tells clock.old) out.old.items)
        (moment_of pass.new (K.tells link.new) (C.tells clock.new) out.new.items) }
{
    let call = CallWithBody::Blkdata {
        xid: standing.next,
        signature: part.lent.held.info.signature(),
        number: part.number,
        len: part.len,
    };
    let padding = write_head(&call, out)?;
    append_part(rt, shared, pass, &part.lent, part.offset, part.len, out)?;
    append_zeros(padding, out)?;
    count_call(standing, clock);
    send_where_full(out, link)?;
    Ok(())
}

// Gives the product that is held in blocks.
pub(crate) fn give_blocks<H: Wait, K: Link, C: Clock>(
    rt: &H,
    shared: &Shared,
    pass: &mut Pass,
    link: &mut K,
    clock: &mut C,
    lent: &Lent<'_>,
    standing: &mut Standing,
    out: &mut Vec<u8>,
) -> Result<(), SendEnd>
    requires of { IsPassOf shared.now pass.old }
    requires holds { (body : List ℕ) × Holds pass.old lent.now.reader.k lent.now.held.now body }
    requires not_closed { IsNotClosed (K.tells link.old) }
    ensures kept { IsSamePass pass.old pass.new }
    ensures still_open { IsNotClosed (K.tells link.new) }
    ensures gives { (body : List ℕ) → Holds pass.old lent.now.reader.k lent.now.held.now body
        → GivesBlocks result lent.now.reader.k (given_of lent.now.held.now body) standing.old standing.new
        (moment_of pass.old (K.tells link.old) (C.tells clock.old) out.old.items)
        (moment_of pass.new (K.tells link.new) (C.tells clock.new) out.new.items) }
{
    // The number of the call is read since its bound is known then.
    let _next = standing.next;
    let size = lent.held.info.size();
    let mut at = 0;
    let mut number = 0;
    while at < size {
        let len = (size - at).min(LARGEST_BLOCK as u32);
        let part = Part {
            lent: Lent {
                reader: lent.reader,
                held: lent.held,
            },
            offset: at,
            number,
            len,
        };
        give_block(rt, shared, pass, link, clock, &part, standing, out)?;
        at += len;
        number += 1;
    }
    Ok(())
}
