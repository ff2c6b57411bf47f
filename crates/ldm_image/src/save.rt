//! Saving the image of a queue.
ghost use Rattle.std.specs.Prelude.{◌≡◌, ◌+◌, ◌≤◌, [], vec_len, IfSome};
ghost use Rattle.std.specs.Vec.{vec_capacity};
ghost use Rattle.ldm_disk.specs.Calls.{FileChanges, KeepsDisk, Rises};
ghost use Rattle.ldm_model.specs.State.{State};
ghost use Rattle.ldm_book.specs.Stands.{StandsFor};
ghost use Rattle.ldm_book.specs.Restoring.{all_closed};
ghost use Rattle.ldm_image.specs.Image.{image, IsImage};
ghost use Rattle.ldm_image.specs.Gates.{WritesImage, WritesUnclean};
ghost use Rattle.ldm_image.specs.Saving.{EndsSaving, IsReady, SavesFile};

use crate::body::{PIECE, ROW, make_piece, write_body};
use crate::gate::{CLEAN, shut_gate, write_gate};
use ldm_book::Book;
use ldm_disk::Disk;
use ldm_outside::Failed;
use std::alloc::Global;

/// How saving ended.
#[derive(Clone, Copy, Debug, PartialEq, Eq)]
pub enum SaveEnd {
    /// The file is the image, and a crash leaves just that.
    Saved,
    /// The disk failed, and its count of faults rose. Attach the file again before anything else: what a crash may
    /// leave of it is what may then be found.
    DiskFault,
    /// There is too little memory, and the disk was not called.
    OutOfMemory,
}

/// Saves the image of a queue over the file of a disk, which is attached and of which nothing is pending.
///
/// Whenever it is broken off, the file then opens as it would have before, or as the queue, or it is unclean; over a
/// file that was no image it may also be no image. It takes a buffer of a quarter of a mebibyte, whatever the queue
/// has.
///
/// The file is made unclean before any other byte of it is written, and is marked clean once all of them are synced.
pub fn save_image<D: Disk>(alloc: Global, book: &Book, disk: &mut D) -> SaveEnd
    requires { IsReady (D.tells disk.old) }
    ensures saved { FileChanges (SavesFile result book.now) (D.tells disk.old).file (D.tells disk.new).file }
    ensures ended { EndsSaving result (D.tells disk.old) (D.tells disk.new) }
    ensures kept { KeepsDisk (D.tells disk.old) (D.tells disk.new) }
    // What a queue is saved as is an image: of it, with nothing open.
    ensures image { (s : State) → StandsFor book.now s → IsImage (image book.now) (all_closed book.now) }
{
    // Contracts see by it that the queue can be restored.
    let _ = book.slots();
    let Ok(mut piece) = make_piece(alloc) else {
        return SaveEnd::OutOfMemory;
    };
    match write_image(disk, book, &mut piece) {
        Ok(()) => SaveEnd::Saved,
        Err(_) => SaveEnd::DiskFault,
    }
}

// Writes the image, and marks it clean once all of it is synced.
fn write_image<D: Disk>(disk: &mut D, book: &Book, piece: &mut Vec<u8>) -> Result<(), Failed>
    requires ready { IsReady (D.tells disk.old) }
    requires empty { piece.old.items ≡ [] }
    requires len { vec_len piece.old ≡ 0 }
    requires room { PIECE + ROW ≤ vec_capacity piece.old }
    ensures written { FileChanges (WritesImage result book.now) (D.tells disk.old).file (D.tells disk.new).file }
    ensures failed { Rises result (D.tells disk.old) (D.tells disk.new) }
    ensures kept { KeepsDisk (D.tells disk.old) (D.tells disk.new) }
{
    write_unclean(disk, book, piece)?;
    write_gate(disk, CLEAN)
}

// Makes the file unclean, and writes all of the image but its gate.
fn write_unclean<D: Disk>(disk: &mut D, book: &Book, piece: &mut Vec<u8>) -> Result<(), Failed>
    requires ready { IsReady (D.tells disk.old) }
    requires empty { piece.old.items ≡ [] }
    requires len { vec_len piece.old ≡ 0 }
    requires room { PIECE + ROW ≤ vec_capacity piece.old }
    ensures written { FileChanges (WritesUnclean result book.now) (D.tells disk.old).file (D.tells disk.new).file }
    ensures failed { Rises result (D.tells disk.old) (D.tells disk.new) }
    ensures kept { KeepsDisk (D.tells disk.old) (D.tells disk.new) }
{
    shut_gate(disk)?;
    write_body(disk, book, piece)
}
