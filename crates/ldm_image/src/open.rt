//! Opening the image of a queue.
ghost use Rattle.std.specs.Prelude.{◌≡◌, ◌≢◌, ◌≤◌, List, ℕ, length, Err, IfSome};
ghost use Rattle.ldm_types.specs.declared.limits.TheConstants.{LARGEST_ARENA};
ghost use Rattle.ldm_disk.specs.Calls.{KeepsDisk};
ghost use Rattle.ldm_image.specs.Fault.{HasArena};
ghost use Rattle.ldm_image.specs.Judging.{AreBytesIfWhole, HoldsAll, RestoresRows};
ghost use Rattle.ldm_image.specs.Opening.{OpensFile, OpensImage};
ghost use Rattle.ldm_image.specs.Rows.{AreRows};
ghost use Rattle.ldm_image.specs.Saving.{IsReady};
ghost use Rattle.ldm_image.specs.Sizes.{HasSizes, Rejects};
ghost use Rattle.ldm_image.specs.Stages.{IsHeaded, IsListed};
ghost use Rattle.ldm_image.specs.declared.open.ImageFault.TheVariants.{BadImage, DiskFault};

use crate::reading::{read_head, read_part};
use crate::rows::{Rows, judge_rows, row_start};
use crate::sizes::{HEAD, Sizes, read_sizes};
use ldm_book::{Book, RestoreFault, RowFault};
use ldm_disk::Disk;
use ldm_outside::Failed;
use std::alloc::{AllocError, Global};

/// Why no queue was opened. The faults are tested in this order, but that the disk may fail before.
#[derive(Clone, Copy, Debug, PartialEq, Eq)]
pub enum ImageFault {
    /// The file was not written whole: it has a gate, and this is not 1.
    Unclean { gate: u8 },
    /// The file is else no image: the first field that is not lawful begins at that place.
    BadImage { at: u64 },
    /// The disk failed, and its count of faults rose.
    DiskFault,
    /// There is too little memory.
    OutOfMemory,
}

impl From<AllocError> for ImageFault {
    ghost use Rattle.std.specs.Prelude.{◌≡◌};
    ghost use Rattle.ldm_image.specs.declared.open.ImageFault.TheVariants as fault;

    ghost from_gives = { λ _ made. made ≡ fault.OutOfMemory };

    fn from(_error: AllocError) -> ImageFault {
        ImageFault::OutOfMemory
    }
}

/// Opens the file of a disk, which is attached and of which nothing is pending: the queue whose image it is.
///
/// The file and what a crash may leave of it stay. Memory is taken for what the file has, and not for what it says that
/// it has: the arena is read into the bytes that become the queue's, and beside it there are the bytes of the rows, 24
/// for each, and what is noted of them, as much again, until the queue is made.
pub fn open_image<D: Disk>(alloc: Global, disk: &mut D) -> Result<Book, ImageFault>
    requires { IsReady (D.tells disk.old) }
    ensures opens { OpensImage result (D.tells disk.old) (D.tells disk.new) }
    ensures kept { KeepsDisk (D.tells disk.old) (D.tells disk.new) }
{
    match disk.len() {
        Ok(len) => open_file(alloc, disk, len),
        Err(Failed) => Err(ImageFault::DiskFault),
    }
}

// Opens a file of that length.
fn open_file<D: Disk>(alloc: Global, disk: &mut D, len: u64) -> Result<Book, ImageFault>
    requires { IfSome (D.tells disk.old).file (λ file. len ≡ length file.bytes) }
    ensures opens { OpensImage result (D.tells disk.old) (D.tells disk.new) }
    ensures kept { KeepsDisk (D.tells disk.old) (D.tells disk.new) }
{
    let head = match read_head(disk, len) {
        Ok(head) => head,
        Err(fault) => return Err(fault),
    };
    match read_sizes(&head[..len.min(HEAD) as usize]) {
        Ok(sizes) => open_rows(alloc, disk, len, &sizes),
        Err(fault) => Err(fault),
    }
}

// Opens a file of that length, with these numbers in front of its rows.
fn open_rows<D: Disk>(
    alloc: Global,
    disk: &mut D,
    len: u64,
    sizes: &Sizes,
) -> Result<Book, ImageFault>
    requires headed { IfSome (D.tells disk.old).file (λ file. IsHeaded len sizes.now file.bytes) }
    requires long { HEAD ≤ len }
    requires small { sizes.now.arena ≤ LARGEST_ARENA }
    ensures opens { OpensImage result (D.tells disk.old) (D.tells disk.new) }
    ensures kept { KeepsDisk (D.tells disk.old) (D.tells disk.new) }
{
    let end = row_start(sizes.count).min(len);
    let table = match read_part(alloc, disk, HEAD, end - HEAD) {
        Ok(table) => table,
        Err(fault) => return Err(fault),
    };
    match judge_rows(alloc, &table, sizes) {
        Ok(rows) => open_arena(alloc, disk, len, sizes, &rows),
        Err(_) => Err(ImageFault::OutOfMemory),
    }
}

// Opens a file of that length, with these numbers and these rows in front of its arena.
fn open_arena<D: Disk>(
    alloc: Global,
    disk: &mut D,
    len: u64,
    sizes: &Sizes,
    rows: &Rows,
) -> Result<Book, ImageFault>
    requires listed { IfSome (D.tells disk.old).file
        (λ file. IsListed len sizes.now rows.now.notes.items rows.now.fault file.bytes) }
    requires small { sizes.now.arena ≤ LARGEST_ARENA }
    ensures opens { OpensImage result (D.tells disk.old) (D.tells disk.new) }
    ensures kept { KeepsDisk (D.tells disk.old) (D.tells disk.new) }
{
    let start = row_start(sizes.count);
    if len < start + sizes.arena {
        return Err(ImageFault::BadImage {
            at: cut_at(sizes, rows),
        });
    }
    match read_part(alloc, disk, start, sizes.arena) {
        Ok(arena) => queue_of(alloc, arena, sizes, rows, len),
        Err(fault) => Err(fault),
    }
}

// Where the first field begins that is not lawful in a file whose end cuts the arena.
fn cut_at(sizes: &Sizes, rows: &Rows) -> u64
    ensures { (file : List ℕ) → HasSizes sizes.now file → AreRows rows.now.notes.items rows.now.fault file
        → ¬ (HasArena file) → Rejects (BadImage result) file }
{
    rows.fault.unwrap_or(row_start(sizes.count))
}

// The queue of a file of that length, of which all was read; or its first field that is not lawful.
// No disk is asked, so none fails.
fn queue_of(
    alloc: Global,
    arena: Vec<u8>,
    sizes: &Sizes,
    rows: &Rows,
    len: u64,
) -> Result<Book, ImageFault>
    ensures opens { (file : List ℕ) → HoldsAll sizes.now rows.now.notes.items rows.now.fault arena.items file
        → AreBytesIfWhole file → len ≡ length file → OpensFile result file }
    ensures no_disk_fault { result ≢ Err DiskFault }
{
    let end = row_start(sizes.count) + arena.len() as u64;
    let book = restore(alloc, arena, sizes, rows)?;
    if let Some(at) = rows.fault {
        return Err(ImageFault::BadImage { at });
    }
    if len > end {
        return Err(ImageFault::BadImage { at: end });
    }
    Ok(book)
}

// The queue of the arena and of the rows whose own numbers are lawful, or the first of these that is none in the arena.
fn restore(alloc: Global, arena: Vec<u8>, sizes: &Sizes, rows: &Rows) -> Result<Book, ImageFault>
    ensures restores { (file : List ℕ) → HoldsAll sizes.now rows.now.notes.items rows.now.fault arena.items file
        → RestoresRows result sizes.now rows.now.notes.items file }
    ensures no_disk_fault { result ≢ Err DiskFault }
{
    let (slots, admitted, last) = (sizes.slots, sizes.admitted, sizes.last);
    match Book::restore(alloc, arena, slots, admitted, last, &rows.notes) {
        Ok(book) => Ok(book),
        Err(RestoreFault::OutOfMemory) => Err(ImageFault::OutOfMemory),
        Err(RestoreFault::BadArena { .. }) => Err(ImageFault::BadImage { at: 8 }),
        Err(RestoreFault::BadSlots { .. }) => Err(ImageFault::BadImage { at: 16 }),
        Err(RestoreFault::BadCount) => Err(ImageFault::BadImage { at: 32 }),
        Err(RestoreFault::BadRow { i, fault }) => Err(ImageFault::BadImage {
            at: row_start(i) + place_of(fault),
        }),
    }
}

// Where in a row the number begins that is at fault.
fn place_of(fault: RowFault) -> u64
    ensures surplus { fault ≡ RowFault.Surplus → result ≡ 0 }
    ensures number { fault ≡ RowFault.Number → result ≡ 0 }
    ensures time { fault ≡ RowFault.Time → result ≡ 8 }
    ensures place { fault ≡ RowFault.Place → result ≡ 16 }
    ensures within { result ≤ 16 }
{
    match fault {
        RowFault::Surplus | RowFault::Number => 0,
        RowFault::Time => 8,
        RowFault::Place => 16,
    }
}
