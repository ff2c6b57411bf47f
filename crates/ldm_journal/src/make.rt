//! Making a journal in an empty file.
ghost use Rattle.std.specs.Prelude.{◌≡◌, ◌<◌, ◌≤◌};
ghost use Rattle.ldm_disk.specs.Calls.{FileChanges, KeepsDisk, Rises};
ghost use Rattle.ldm_journal.specs.declared.places.TheConstants.{LARGEST_RING};
ghost use Rattle.ldm_journal.specs.Format.{opening};
ghost use Rattle.ldm_journal.specs.Making.{Lays, Makes, Widens, first_front};

use crate::places::RING;
use ldm_disk::Disk;
use ldm_outside::Failed;

/// Bytes in front of the ring.
pub(crate) const FRONT: usize = RING as usize;

/// How the file of any journal begins.
pub(crate) const NAME: [u8; 16] = [
    76, 68, 77, 32, 106, 111, 117, 114, 110, 97, 108, 0, 0, 0, 0, 2,
];

/// Makes an empty file a journal that keeps nothing.
///
/// The ring comes last: until then the file has another length than a journal, and from then on all that stands in
/// front of the ring is there.
pub(crate) fn make<D: Disk>(disk: &mut D, ring: u64) -> Result<(), Failed>
    requires some { 0 < ring }
    requires sized { ring ≤ LARGEST_RING }
    ensures made { FileChanges (Makes result ring) (D.tells disk.old).file (D.tells disk.new).file }
    ensures failed { Rises result (D.tells disk.old) (D.tells disk.new) }
    ensures kept { KeepsDisk (D.tells disk.old) (D.tells disk.new) }
{
    match lay(disk, ring) {
        Ok(()) => widen(disk, ring),
        Err(failed) => Err(failed),
    }
}

// Writes what stands in front of the ring, and syncs it.
fn lay<D: Disk>(disk: &mut D, ring: u64) -> Result<(), Failed>
    ensures laid { FileChanges (Lays result ring) (D.tells disk.old).file (D.tells disk.new).file }
    ensures failed { Rises result (D.tells disk.old) (D.tells disk.new) }
    ensures kept { KeepsDisk (D.tells disk.old) (D.tells disk.new) }
{
    let front = front_of(ring);
    match disk.write_at(0, &front) {
        Ok(()) => disk.sync(),
        Err(failed) => Err(failed),
    }
}

// Gives the file its ring, and syncs it.
fn widen<D: Disk>(disk: &mut D, ring: u64) -> Result<(), Failed>
    requires some { 0 < ring }
    requires sized { ring ≤ LARGEST_RING }
    ensures widened { FileChanges (Widens result ring) (D.tells disk.old).file (D.tells disk.new).file }
    ensures failed { Rises result (D.tells disk.old) (D.tells disk.new) }
    ensures kept { KeepsDisk (D.tells disk.old) (D.tells disk.new) }
{
    match disk.cut(RING + ring) {
        Ok(()) => disk.sync(),
        Err(failed) => Err(failed),
    }
}

// What stands in front of the ring of a journal that keeps nothing.
fn front_of(ring: u64) -> [u8; FRONT]
    ensures { result ≡ first_front ring }
{
    let mut front = [0u8; FRONT];
    front[..24].copy_from_slice(&opening(ring));
    front
}

/// How the file of a journal with a ring of that size begins.
pub(crate) fn opening(ring: u64) -> [u8; 24]
    ensures { result ≡ opening ring }
{
    let mut bytes = [0u8; 24];
    bytes[..16].copy_from_slice(&NAME);
    bytes[16..].copy_from_slice(&ring.to_be_bytes());
    bytes
}
