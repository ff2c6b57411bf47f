//! A file is attached, and the queue in it opened or saved.
ghost use Rattle.std.specs.Prelude.{◌≤◌, IfErr, IfOk, OnOk};
ghost use Rattle.ldm_disk.specs.Calls.{FileChanges};
ghost use Rattle.ldm_image.specs.Saving.{IsReady};
ghost use Rattle.ldm_play.specs.Files.{IsOpenedAs, LeavesClosed, Saves};
ghost use Rattle.ldm_play.specs.Steps.{OpensAs};

use ldm_book::Book;
use ldm_disk::Disk;
use ldm_image::{ImageFault, SaveEnd, open_image, save_image};
use ldm_outside::Failed;
use std::alloc::Global;

/// Attaches the file under the path, and saves the queue over it.
pub(crate) fn save_file<D: Disk>(alloc: Global, book: &Book, path: &str, disk: &mut D) -> SaveEnd
    ensures saves { Saves result book.now (D.tells disk.old) (D.tells disk.new) }
    ensures faults_kept { (D.tells disk.old).faults ≤ (D.tells disk.new).faults }
{
    match disk.attach(path) {
        Ok(()) => save_image(alloc, book, disk),
        Err(Failed) => SaveEnd::DiskFault,
    }
}

/// Attaches the file under the path, and opens the queue in it.
pub(crate) fn open_file<D: Disk>(
    alloc: Global,
    path: &str,
    disk: &mut D,
) -> Result<Book, ImageFault>
    ensures opened { IfOk result
        (λ book. FileChanges (IsOpenedAs book) (D.tells disk.old).file (D.tells disk.new).file) }
    ensures ready { OnOk result (IsReady (D.tells disk.new)) }
    ensures closed { IfErr result (λ why. LeavesClosed why (D.tells disk.old) (D.tells disk.new)) }
    ensures completes { OpensAs result (D.tells disk.old) (D.tells disk.new) }
    ensures faults_kept { (D.tells disk.old).faults ≤ (D.tells disk.new).faults }
{
    match disk.attach(path) {
        Ok(()) => open_image(alloc, disk),
        Err(Failed) => Err(ImageFault::DiskFault),
    }
}
