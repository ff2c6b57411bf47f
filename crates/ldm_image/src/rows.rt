//! Reading the rows of an image.
ghost use Rattle.std.specs.Prelude.{◌≡◌, ◌+◌, ◌*◌, ◌<◌, ◌≤◌, List, ℕ, IfOk};
ghost use Rattle.ldm_image.specs.Rows.{AreFrom, AreRows, HoldsTable, JudgesRow};

use crate::body::ROW;
use crate::sizes::{HEAD, Sizes, number_in};
use ldm_book::RowNote;
use ldm_types::{ARENA_UNIT, Micros};
use std::alloc::{AllocError, Global};

/// The rows of a file up to the first whose own three numbers are not lawful, and the place of that number.
#[derive(Drop)]
pub(crate) struct Rows {
    pub(crate) notes: Vec<RowNote>,
    pub(crate) fault: Option<u64>,
}

/// Where a row begins.
pub(crate) fn row_start(row: u32) -> u64
    ensures { result ≡ 48 + 24 * row }
{
    HEAD + ROW as u64 * u64::from(row)
}

/// The rows whose bytes are given: all of the file, or those that its end does not cut off.
pub(crate) fn judge_rows(alloc: Global, table: &[u8], sizes: &Sizes) -> Result<Rows, AllocError>
    ensures { (file : List ℕ) → HoldsTable table.now sizes.now file →
        IfOk result (λ rows. AreRows rows.notes.items rows.fault file) }
{
    let mut notes = Vec::new(alloc);
    let (mut number, mut time) = (0, 0);
    for i in 0..sizes.count {
        match read_row(table, i, number, time, sizes) {
            Ok(note) => {
                number = note.n + 1;
                time = note.time.get() + 1;
                if let Err(error) = notes.push(note) {
                    return Err(error.into());
                }
            }
            Err(at) => {
                return Ok(Rows {
                    notes,
                    fault: Some(at),
                });
            }
        }
    }
    Ok(Rows { notes, fault: None })
}

// A row, whose number and time are from these on. An error is where the first number begins that is not lawful,
// whatever stands in the arena.
fn read_row(table: &[u8], row: u32, number: u64, time: u64, sizes: &Sizes) -> Result<RowNote, u64>
    requires { row < sizes.now.count }
    ensures judged { (file : List ℕ) → HoldsTable table.now sizes.now file → AreFrom number time row file →
        JudgesRow result row file }
    ensures few { IfOk result (λ note. note.n < sizes.now.admitted) }
{
    let at = ROW * row as usize;
    let start = HEAD + at as u64;
    let Some(n) = number_in(table, at) else {
        return Err(start);
    };
    if n < number || n >= sizes.admitted {
        return Err(start);
    }
    let Some(end) = number_in(table, at + 8) else {
        return Err(start + 8);
    };
    if end < time || end >= sizes.end {
        return Err(start + 8);
    }
    if n + 1 == sizes.admitted && end + 1 != sizes.end {
        return Err(start + 8);
    }
    let Some(place) = number_in(table, at + 16) else {
        return Err(start + 16);
    };
    if place % ARENA_UNIT != 0 {
        return Err(start + 16);
    }
    match Micros::new(end) {
        Some(time) => Ok(RowNote { n, time, place }),
        None => Err(start + 8),
    }
}
