//! Committing what was appended to a journal.
ghost use Rattle.std.specs.Prelude.{◌≡◌, ◌≢◌, ◌+◌, ◌-◌, ◌≤◌, length, IfErr, IfOk, IfSome, OnErr, OnOk};
ghost use Rattle.ldm_disk.specs.Calls.{FileChanges, KeepsDisk, KeepsFile, Rises};
ghost use Rattle.ldm_journal.specs.Committing.{Commits, DropsFor, EndsCommitting, Frees, NotesCommitting, Selects};
ghost use Rattle.ldm_journal.specs.Committing.{Turns, WritesHead, end_of, head_bytes_of, select_byte, turned};
ghost use Rattle.ldm_journal.specs.Format.{place_of};
ghost use Rattle.ldm_journal.specs.Sound.{IsSound};
ghost use Rattle.ldm_journal.specs.Reading.{FaultRose};

use crate::fault::JournalFault;
use crate::journal::Journal;
use crate::marks::Marks;
use crate::next::record_len;
use crate::places::{HEAD_A, HEAD_B, NOTE, SELECT};
use ldm_disk::Disk;
use ldm_outside::Failed;

// Bytes of a head: three numbers and a note.
const HEAD: usize = 24 + NOTE;

/// How committing ended.
#[derive(Clone, Copy, Debug, PartialEq, Eq)]
pub enum CommitEnd {
    /// A crash leaves all that was appended, but for what was dropped from the front.
    Committed,
    /// The file no longer has the records that the journal had, and nothing was written.
    NotAJournal,
    /// The disk failed, and its count of faults rose. Attach the file and open the journal again.
    DiskFault,
}

impl Journal {
    /// Makes what was appended stay, with a note, and drops the oldest products as far as so many bytes of the ring are
    /// to be free. The products and the note stay together, or neither.
    pub fn commit<D: Disk>(&mut self, disk: &mut D, gap: u64, note: &[u8; NOTE]) -> CommitEnd
        requires { gap ≤ self.old.marks.ring }
        ensures committed { FileChanges (Commits result gap note.now self.old.marks self.new.marks)
            (D.tells disk.old).file (D.tells disk.new).file }
        ensures ended { EndsCommitting result (D.tells disk.old) (D.tells disk.new) }
        ensures ring { self.new.marks.ring ≡ self.old.marks.ring }
        ensures next { self.new.marks.next ≡ self.old.marks.next }
        ensures freed { Frees result gap self.new.marks }
        ensures note { NotesCommitting result note.now self.old.marks self.new.marks }
        ensures kept { KeepsDisk (D.tells disk.old) (D.tells disk.new) }
    {
        let dropped = match dropped_for(&self.marks, disk, gap) {
            Ok(dropped) => dropped,
            Err(fault) => return end_of(fault),
        };
        match turn(&mut self.marks, disk, dropped, note) {
            Ok(()) => CommitEnd::Committed,
            Err(_) => CommitEnd::DiskFault,
        }
    }
}

// How committing ends where the length of a record could not be read.
fn end_of(fault: JournalFault) -> CommitEnd
    ensures { result ≡ end_of fault }
{
    match fault {
        JournalFault::DiskFault => CommitEnd::DiskFault,
        _ => CommitEnd::NotAJournal,
    }
}

// How many bytes of records have to go from the front, so that so many bytes of the ring are free.
fn dropped_for<D: Disk>(marks: &Marks, disk: &mut D, gap: u64) -> Result<u64, JournalFault>
    requires sound { IsSound marks.now }
    requires gap { gap ≤ marks.now.ring }
    ensures within { IfOk result (λ dropped. dropped ≤ marks.now.used + marks.now.appended) }
    ensures enough { IfOk result (λ dropped. marks.now.used + marks.now.appended + gap ≤ marks.now.ring + dropped) }
    ensures found { IfSome (D.tells disk.old).file (DropsFor result gap marks.now) }
    ensures file { FileChanges KeepsFile (D.tells disk.old).file (D.tells disk.new).file }
    ensures failed { IfErr result (λ fault. FaultRose fault (D.tells disk.old) (D.tells disk.new)) }
    ensures kept { KeepsDisk (D.tells disk.old) (D.tells disk.new) }
{
    let most = marks.ring - gap;
    let all = marks.used + marks.appended;
    let mut dropped = 0;
    while all - dropped > most {
        match record_len(disk, marks.ring, marks.front + dropped, all - dropped) {
            Ok(len) => dropped += len,
            Err(fault) => return Err(fault),
        }
    }
    Ok(dropped)
}

// Lets so many bytes go from the front: writes the head that does not count, with a note, and then lets it count.
fn turn<D: Disk>(
    marks: &mut Marks,
    disk: &mut D,
    dropped: u64,
    note: &[u8; NOTE],
) -> Result<(), Failed>
    requires sound { IsSound marks.old }
    requires within { dropped ≤ marks.old.used + marks.old.appended }
    ensures turned { FileChanges (Turns result dropped note.now marks.old marks.new) (D.tells disk.old).file
        (D.tells disk.new).file }
    ensures sound { IsSound marks.new }
    ensures marks { OnOk result (marks.new ≡ turned dropped note.now marks.old) }
    ensures same { OnErr result (marks.new ≡ marks.old) }
    ensures failed { Rises result (D.tells disk.old) (D.tells disk.new) }
    ensures kept { KeepsDisk (D.tells disk.old) (D.tells disk.new) }
{
    let next = marks_after(marks, dropped, note);
    match write_head(disk, &next) {
        Ok(()) => {}
        Err(failed) => return Err(failed),
    }
    match select(disk, next.odd) {
        Ok(()) => {
            *marks = next;
            Ok(())
        }
        Err(failed) => Err(failed),
    }
}

// The marks after so many bytes were let go from the front, with a note.
fn marks_after(marks: &Marks, dropped: u64, note: &[u8; NOTE]) -> Marks
    requires sound { IsSound marks.now }
    requires within { dropped ≤ marks.now.used + marks.now.appended }
    ensures { result ≡ turned dropped note.now marks.now }
{
    Marks {
        ring: marks.ring,
        odd: !marks.odd,
        front: (marks.front + dropped) % marks.ring,
        used: marks.used + marks.appended - dropped,
        appended: 0,
        next: marks.next,
        note: *note,
    }
}

// Writes a head, and syncs it.
fn write_head<D: Disk>(disk: &mut D, next: &Marks) -> Result<(), Failed>
    requires { length next.now.note ≡ NOTE }
    ensures written { FileChanges (WritesHead result next.now) (D.tells disk.old).file (D.tells disk.new).file }
    ensures failed { Rises result (D.tells disk.old) (D.tells disk.new) }
    ensures kept { KeepsDisk (D.tells disk.old) (D.tells disk.new) }
{
    let head = head_of(next);
    match disk.write_at(place_of(next.odd), &head) {
        Ok(_) => disk.sync(),
        Err(failed) => Err(failed),
    }
}

/// Where a head stands.
pub(crate) fn place_of(odd: bool) -> u64
    ensures { result ≡ place_of odd }
{
    if odd { HEAD_B } else { HEAD_A }
}

// The bytes of a head.
fn head_of(next: &Marks) -> [u8; HEAD]
    ensures { result ≡ head_bytes_of next.now }
{
    let mut head = [0u8; HEAD];
    head[..8].copy_from_slice(&next.front.to_be_bytes());
    head[8..16].copy_from_slice(&next.used.to_be_bytes());
    head[16..24].copy_from_slice(&next.next.to_be_bytes());
    head[24..].copy_from_slice(&next.note);
    head
}

// Lets a head count, and syncs that.
fn select<D: Disk>(disk: &mut D, odd: bool) -> Result<(), Failed>
    ensures selected { FileChanges (Selects result odd) (D.tells disk.old).file (D.tells disk.new).file }
    ensures failed { Rises result (D.tells disk.old) (D.tells disk.new) }
    ensures kept { KeepsDisk (D.tells disk.old) (D.tells disk.new) }
{
    match disk.write_at(SELECT, &[select_byte(odd)]) {
        Ok(()) => disk.sync(),
        Err(failed) => Err(failed),
    }
}

// The byte that lets a head count.
fn select_byte(odd: bool) -> u8
    ensures { result ≡ select_byte odd }
{
    if odd { 1 } else { 0 }
}
