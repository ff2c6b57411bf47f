//! The body of a product that is held, which is read from the queue and written as it is read.
ghost use Rattle.std.specs.Prelude.{◌≡◌, ◌+◌, ◌<◌, ◌≤◌, ℕ, List, length, take, drop};
ghost use Rattle.ldm_shared.specs.Passes.{IsPassOf, IsSamePass};
ghost use Rattle.ldm_shared.specs.Reader.{Holds};
ghost use Rattle.ldm_gather.specs.Writing.{Reads, part_of, sight_of};

use ldm_outside::{Sink, write_all};
use ldm_shared::{Held, Pass, Reader, Shared, Turn};
use std::sync::Wait;

// Why a body was not written, all of it.
#[derive(Clone, Copy, Debug, PartialEq, Eq)]
pub(crate) enum WriteStop {
    // The sink failed, and its count of faults rose.
    SinkFault,
    // The queue has had all the calls that it can have.
    Worn,
}

// Reads the part of the body from that offset on that fills a piece, and writes it.
fn write_piece<H: Wait, K: Sink>(
    rt: &H,
    shared: &Shared,
    pass: &mut Pass,
    reader: &Reader,
    held: &Held,
    offset: u32,
    piece: &mut [u8],
    sink: &mut K,
) -> Result<(), WriteStop>
    requires of { IsPassOf shared.now pass.old }
    requires holds { (body : List ℕ) × Holds pass.old reader.now.k held.now body }
    requires within { offset + length piece.old ≤ held.now.info.size }
    ensures kept { IsSamePass pass.old pass.new }
    ensures reads { (body : List ℕ) → Holds pass.old reader.now.k held.now body
        → Reads result reader.now.k (part_of held.now body (take (length piece.old) (drop offset body)))
        (sight_of pass.old (K.tells sink.old)) (sight_of pass.new (K.tells sink.new)) }
{
    if let Turn::Worn { .. } = reader.read(shared, rt, pass, held, offset, piece) {
        return Err(WriteStop::Worn);
    }
    match write_all(sink, piece) {
        Ok(()) => Ok(()),
        Err(_) => Err(WriteStop::SinkFault),
    }
}

/// Writes the whole body, in pieces of at most the size of the buffer.
pub(crate) fn write_body<H: Wait, K: Sink>(
    rt: &H,
    shared: &Shared,
    pass: &mut Pass,
    reader: &Reader,
    held: &Held,
    buffer: &mut [u8],
    sink: &mut K,
) -> Result<(), WriteStop>
    requires of { IsPassOf shared.now pass.old }
    requires holds { (body : List ℕ) × Holds pass.old reader.now.k held.now body }
    requires room { 0 < length buffer.old }
    ensures kept { IsSamePass pass.old pass.new }
    ensures reads { (body : List ℕ) → Holds pass.old reader.now.k held.now body
        → Reads result reader.now.k (part_of held.now body body) (sight_of pass.old (K.tells sink.old))
        (sight_of pass.new (K.tells sink.new)) }
{
    let size = held.info.size() as usize;
    let mut offset = 0;
    while offset < size {
        let len = (size - offset).min(buffer.len());
        write_piece(
            rt,
            shared,
            pass,
            reader,
            held,
            offset as u32,
            &mut buffer[..len],
            sink,
        )?;
        offset += len;
    }
    Ok(())
}
