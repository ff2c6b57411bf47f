//! Writing bytes into the ring, behind what was appended.
ghost use Rattle.std.specs.Prelude.{◌≡◌, ◌+◌, ◌≤◌, length, OnOk};
ghost use Rattle.ldm_disk.specs.Calls.{FileChanges, KeepsDisk, Rises};
ghost use Rattle.ldm_journal.specs.Sound.{IsSound};
ghost use Rattle.ldm_journal.specs.Pushing.{Pushes, grown, place_behind};

use crate::marks::Marks;
use crate::places::RING;
use ldm_disk::Disk;
use ldm_outside::Failed;

// Where in the ring the next byte goes.
fn behind(marks: &Marks) -> u64
    requires { IsSound marks.now }
    ensures { result ≡ place_behind marks.now }
{
    (marks.front + marks.used + marks.appended) % marks.ring
}

// Writes a piece behind what was appended, which ends at the end of the ring or before it.
fn push_part<D: Disk>(marks: &mut Marks, disk: &mut D, piece: &[u8]) -> Result<(), Failed>
    requires sound { IsSound marks.old }
    requires room { marks.old.used + marks.old.appended + length piece.now ≤ marks.old.ring }
    requires within { place_behind marks.old + length piece.now ≤ marks.old.ring }
    ensures pushed { FileChanges (Pushes result marks.old piece.now) (D.tells disk.old).file (D.tells disk.new).file }
    ensures grown { OnOk result (marks.new ≡ grown (length piece.now) marks.old) }
    ensures sound { IsSound marks.new }
    ensures ring { marks.new.ring ≡ marks.old.ring }
    ensures note { marks.new.note ≡ marks.old.note }
    ensures failed { Rises result (D.tells disk.old) (D.tells disk.new) }
    ensures kept { KeepsDisk (D.tells disk.old) (D.tells disk.new) }
{
    match disk.write_at(RING + behind(marks), piece) {
        Ok(()) => {
            marks.appended += piece.len() as u64;
            Ok(())
        }
        Err(failed) => Err(failed),
    }
}

/// Writes a piece behind what was appended, and round the end of the ring.
pub(crate) fn push<D: Disk>(marks: &mut Marks, disk: &mut D, piece: &[u8]) -> Result<(), Failed>
    requires sound { IsSound marks.old }
    requires room { marks.old.used + marks.old.appended + length piece.now ≤ marks.old.ring }
    ensures pushed { FileChanges (Pushes result marks.old piece.now) (D.tells disk.old).file (D.tells disk.new).file }
    ensures grown { OnOk result (marks.new ≡ grown (length piece.now) marks.old) }
    ensures sound { IsSound marks.new }
    ensures ring { marks.new.ring ≡ marks.old.ring }
    ensures note { marks.new.note ≡ marks.old.note }
    ensures failed { Rises result (D.tells disk.old) (D.tells disk.new) }
    ensures kept { KeepsDisk (D.tells disk.old) (D.tells disk.new) }
{
    let to_end = (marks.ring - behind(marks)) as usize;
    if piece.len() <= to_end {
        return push_part(marks, disk, piece);
    }
    let (first, rest) = piece.split_at(to_end);
    match push_part(marks, disk, first) {
        Ok(()) => push_part(marks, disk, rest),
        Err(failed) => Err(failed),
    }
}
