//! Reading bytes of the file and of its ring.
ghost use Rattle.std.specs.Prelude.{◌+◌, ◌*◌, ◌<◌, ◌≤◌, ◌^◌, length, IfErr, IfSome};
ghost use Rattle.ldm_disk.specs.Calls.{FileChanges, KeepsDisk, KeepsFile};
ghost use Rattle.ldm_journal.specs.declared.places.TheConstants.{LARGEST_RING};
ghost use Rattle.ldm_journal.specs.Reading.{FaultRose, Fills, FillsAround};

use crate::fault::JournalFault;
use crate::places::RING;
use ldm_disk::Disk;
use ldm_outside::Got;

/// Fills the buffer with what stands at a place.
pub(crate) fn fill<D: Disk>(disk: &mut D, at: u64, into: &mut [u8]) -> Result<(), JournalFault>
    requires { at + length into.old < 2 ^ 64 }
    ensures filled { IfSome (D.tells disk.old).file (λ file. Fills result at into.new file.bytes) }
    ensures file { FileChanges KeepsFile (D.tells disk.old).file (D.tells disk.new).file }
    ensures failed { IfErr result (λ fault. FaultRose fault (D.tells disk.old) (D.tells disk.new)) }
    ensures kept { KeepsDisk (D.tells disk.old) (D.tells disk.new) }
{
    let mut done = 0;
    while done < into.len() {
        match disk.read(at + done as u64, &mut into[done..]) {
            Got::Bytes(n) => done += n,
            Got::End => return Err(JournalFault::NotAJournal),
            Got::Failed => return Err(JournalFault::DiskFault),
        }
    }
    Ok(())
}

/// Fills the buffer with bytes of a ring from a place on, and round its end.
pub(crate) fn fill_around<D: Disk>(
    disk: &mut D,
    ring: u64,
    from: u64,
    into: &mut [u8],
) -> Result<(), JournalFault>
    requires sized { ring ≤ LARGEST_RING }
    requires from { from < 2 * ring }
    requires short { length into.old ≤ ring }
    ensures filled { IfSome (D.tells disk.old).file (λ file. FillsAround result ring from into.new file.bytes) }
    ensures file { FileChanges KeepsFile (D.tells disk.old).file (D.tells disk.new).file }
    ensures failed { IfErr result (λ fault. FaultRose fault (D.tells disk.old) (D.tells disk.new)) }
    ensures kept { KeepsDisk (D.tells disk.old) (D.tells disk.new) }
{
    let at = from % ring;
    let to_end = (ring - at) as usize;
    if into.len() <= to_end {
        return fill(disk, RING + at, into);
    }
    let (first, rest) = into.split_at_mut(to_end);
    match fill(disk, RING + at, first) {
        Ok(()) => fill(disk, RING, rest),
        Err(fault) => Err(fault),
    }
}
