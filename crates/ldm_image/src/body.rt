//! Writing all bytes of an image but its gate.
ghost use Rattle.std.specs.Prelude.{◌≡◌, ◌+◌, ◌*◌, ◌<◌, ◌≤◌, ◌∷◌, ◌++◌, [], ℕ, List, IfOk, IfSome, OnErr, OnOk, ◌^◌};
ghost use Rattle.std.specs.Prelude.{vec_len};
ghost use Rattle.std.specs.Prelude.{length};
ghost use Rattle.std.specs.Vec.{vec_capacity};
ghost use Rattle.ldm_outside.specs.Count.{Rose};
ghost use Rattle.ldm_disk.specs.Calls.{FileChanges, KeepsDisk, Rises};
ghost use Rattle.ldm_image.specs.Image.{eight, last_field};
ghost use Rattle.ldm_image.specs.Bodies.{Appends, Begins, Ends, Finishes, HasRoom, IsBeing, IsShut, WritesBody};
ghost use Rattle.ldm_image.specs.Bodies.{WritesHead};
ghost use Rattle.ldm_image.specs.Bodies.{WritesMore, between_rows, sizes_of};

use byteorder::{BigEndian, ByteOrder};
use ldm_book::{Book, RowNote};
use ldm_disk::Disk;
use ldm_outside::Failed;
use ldm_types::Micros;
use std::alloc::{AllocError, Global};

/// A piece is written once it has so many bytes.
pub(crate) const PIECE: usize = 262_144;

/// Bytes of a row.
pub(crate) const ROW: usize = 24;

// Bytes of the opening behind the gate, and of the five numbers.
const SIZES: usize = 42;

// Where they begin.
const BEHIND_THE_GATE: u64 = 6;

/// A buffer for a piece: all the memory that saving takes.
pub(crate) fn make_piece(alloc: Global) -> Result<Vec<u8>, AllocError>
    ensures empty { IfOk result (λ piece. piece.items ≡ []) }
    ensures len { IfOk result (λ piece. vec_len piece ≡ 0) }
    ensures room { IfOk result (λ piece. PIECE + ROW ≤ vec_capacity piece) }
{
    Vec::with_capacity(alloc, PIECE + ROW)
}

fn put(out: &mut Vec<u8>, bytes: &[u8])
    requires { HasRoom out.old (length bytes.now) }
    ensures { Appends out.old out.new bytes.now }
{
    if out.extend_from_slice(bytes).is_err() {
        unreachable!();
    }
}

fn put_number(out: &mut Vec<u8>, n: u64)
    requires { HasRoom out.old 8 }
    ensures { Appends out.old out.new (eight n) }
{
    let mut bytes = [0; 8];
    BigEndian::write_u64(&mut bytes, n);
    put(out, &bytes);
}

fn put_row(out: &mut Vec<u8>, note: &RowNote)
    requires { HasRoom out.old ROW }
    ensures { Appends out.old out.new (eight note.now.n ++ eight note.now.time ++ eight note.now.place) }
{
    put_number(out, note.n);
    put_number(out, note.time.get());
    put_number(out, note.place);
}

// How many rows a queue has.
fn count_rows(book: &Book) -> u32
    ensures { result ≡ length book.now.rows }
{
    let slots = book.slots();
    for i in 0..slots {
        if book.row_at(i).is_none() {
            return i;
        }
    }
    slots
}

// Gathers what stands between the gate and the rows.
fn put_sizes(out: &mut Vec<u8>, book: &Book, count: u32)
    requires room { HasRoom out.old SIZES }
    requires count { count ≡ length book.now.rows }
    ensures { Appends out.old out.new (sizes_of book.now) }
{
    put(out, &[0, 0]);
    put_number(out, book.bytes().len() as u64);
    put_number(out, u64::from(book.slots()));
    put_number(out, book.admitted());
    put_number(out, end_of_times(book.last()));
    put_number(out, u64::from(count));
}

// The time behind the last insertion time, or 0 where there is none.
fn end_of_times(last: Option<Micros>) -> u64
    ensures { result ≡ last_field last }
{
    match last {
        Some(last) => last.get() + 1,
        None => 0,
    }
}

// Gathers rows from one on, until the piece is full or there are no more. Gives the row behind them.
fn add_rows(book: &Book, first: u32, count: u32, piece: &mut Vec<u8>) -> u32
    requires count { count ≡ length book.now.rows }
    requires first { first ≤ count }
    requires short { vec_len piece.old < PIECE }
    requires room { PIECE + ROW ≤ vec_capacity piece.old }
    ensures within { (first ≤ result) × (result ≤ count) }
    ensures some { first < count → first < result }
    ensures gathered { piece.new.items ≡ piece.old.items ++ between_rows first result book.now }
    ensures len { vec_len piece.new + 24 * first ≡ vec_len piece.old + 24 * result }
    ensures room { PIECE + ROW ≤ vec_capacity piece.new }
{
    let mut next = first;
    while next < count && piece.len() < PIECE {
        let Some(note) = book.row_at(next) else {
            unreachable!()
        };
        put_row(piece, &note);
        next += 1;
    }
    next
}

// Writes a piece behind what stands, and empties it. Gives the place behind it.
fn write_piece<D: Disk>(disk: &mut D, at: u64, piece: &mut Vec<u8>) -> Result<u64, Failed>
    requires being { IfSome (D.tells disk.old).file (IsBeing at) }
    requires fits { at + vec_len piece.old < 2 ^ 64 }
    ensures written { FileChanges (WritesMore result at piece.old.items) (D.tells disk.old).file
        (D.tells disk.new).file }
    ensures at { IfOk result (λ behind. behind ≡ at + vec_len piece.old) }
    ensures empty { OnOk result (piece.new.items ≡ []) }
    ensures len { OnOk result (vec_len piece.new ≡ 0) }
    ensures capacity { vec_capacity piece.old ≤ vec_capacity piece.new }
    ensures failed { OnErr result (Rose (D.tells disk.old).faults (D.tells disk.new).faults) }
    ensures kept { KeepsDisk (D.tells disk.old) (D.tells disk.new) }
{
    disk.write_at(at, piece)?;
    let behind = at + piece.len() as u64;
    piece.clear();
    Ok(behind)
}

// Writes the opening up to the gate.
fn write_opening<D: Disk>(disk: &mut D) -> Result<(), Failed>
    requires shut { IfSome (D.tells disk.old).file IsShut }
    ensures begun { FileChanges (Begins result) (D.tells disk.old).file (D.tells disk.new).file }
    ensures failed { Rises result (D.tells disk.old) (D.tells disk.new) }
    ensures kept { KeepsDisk (D.tells disk.old) (D.tells disk.new) }
{
    disk.write_at(0, b"LDMQ\x01")
}

// Writes the opening, the numbers and the rows, but for the gate. Gives the place behind them.
fn write_head<D: Disk>(disk: &mut D, book: &Book, piece: &mut Vec<u8>) -> Result<u64, Failed>
    requires shut { IfSome (D.tells disk.old).file IsShut }
    requires empty { piece.old.items ≡ [] }
    requires len { vec_len piece.old ≡ 0 }
    requires room { PIECE + ROW ≤ vec_capacity piece.old }
    ensures written { FileChanges (WritesHead result book.now) (D.tells disk.old).file (D.tells disk.new).file }
    ensures at { IfOk result (λ at. at ≡ 48 + 24 * length book.now.rows) }
    ensures few { length book.now.rows < 2 ^ 32 }
    ensures failed { OnErr result (Rose (D.tells disk.old).faults (D.tells disk.new).faults) }
    ensures kept { KeepsDisk (D.tells disk.old) (D.tells disk.new) }
{
    let count = count_rows(book);
    put_sizes(piece, book, count);
    write_opening(disk)?;
    let mut at = BEHIND_THE_GATE;
    let mut next = add_rows(book, 0, count, piece);
    while next < count {
        at = write_piece(disk, at, piece)?;
        next = add_rows(book, next, count, piece);
    }
    write_piece(disk, at, piece)
}

// Cuts the file behind what was written, and syncs it.
fn finish<D: Disk>(disk: &mut D, len: u64) -> Result<(), Failed>
    requires being { IfSome (D.tells disk.old).file (IsBeing len) }
    ensures finished { FileChanges (Finishes result len) (D.tells disk.old).file (D.tells disk.new).file }
    ensures failed { Rises result (D.tells disk.old) (D.tells disk.new) }
    ensures kept { KeepsDisk (D.tells disk.old) (D.tells disk.new) }
{
    disk.cut(len)?;
    disk.sync()
}

// Writes the arena from a place on, and ends the file behind it.
fn write_arena<D: Disk>(disk: &mut D, at: u64, arena: &[u8]) -> Result<(), Failed>
    requires being { IfSome (D.tells disk.old).file (IsBeing at) }
    requires fits { at + length arena.now < 2 ^ 64 }
    ensures ended { FileChanges (Ends result at arena.now) (D.tells disk.old).file (D.tells disk.new).file }
    ensures failed { Rises result (D.tells disk.old) (D.tells disk.new) }
    ensures kept { KeepsDisk (D.tells disk.old) (D.tells disk.new) }
{
    disk.write_at(at, arena)?;
    finish(disk, at + arena.len() as u64)
}

/// Writes all bytes of the image but the gate, and syncs them. The gate stays as it is.
pub(crate) fn write_body<D: Disk>(
    disk: &mut D,
    book: &Book,
    piece: &mut Vec<u8>,
) -> Result<(), Failed>
    requires shut { IfSome (D.tells disk.old).file IsShut }
    requires empty { piece.old.items ≡ [] }
    requires len { vec_len piece.old ≡ 0 }
    requires room { PIECE + ROW ≤ vec_capacity piece.old }
    ensures written { FileChanges (WritesBody result book.now) (D.tells disk.old).file (D.tells disk.new).file }
    ensures failed { Rises result (D.tells disk.old) (D.tells disk.new) }
    ensures kept { KeepsDisk (D.tells disk.old) (D.tells disk.new) }
{
    let at = write_head(disk, book, piece)?;
    write_arena(disk, at, book.bytes())
}
