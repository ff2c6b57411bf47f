//! Opening a journal.
ghost use Rattle.std.specs.Prelude.{◌≡◌, ◌≢◌, ◌↔◌, IsTrue, ◌+◌, ◌<◌, ◌≤◌, List, ℕ, length, take, IfErr, IfOk, IfSome};
ghost use Rattle.std.specs.List.{between};
ghost use Rattle.ldm_disk.specs.Calls.{FileChanges, KeepsDisk, KeepsFile};
ghost use Rattle.ldm_disk.specs.Told.{IsSettled};
ghost use Rattle.ldm_journal.specs.declared.places.TheConstants.{LARGEST_RING, RING};
ghost use Rattle.ldm_journal.specs.Opening.{HasNumbers, IsOfFile, JudgesFile, JudgesFront, JudgesRecords, Opens};
ghost use Rattle.ldm_journal.specs.Opening.{marks_of};
ghost use Rattle.ldm_journal.specs.Format.{no_note, opening, selected};
ghost use Rattle.ldm_journal.specs.Reading.{FaultRose};
ghost use Rattle.ldm_journal.specs.Sound.{IsSound};

use crate::commit::place_of;
use crate::fault::JournalFault;
use crate::journal::Journal;
use crate::make::{FRONT, NAME, make, opening};
use crate::marks::Marks;
use crate::next::read_record;
use crate::places::{NOTE, RING, SELECT};
use crate::read::fill;
use crate::record::number_in;
use ldm_disk::Disk;
use std::alloc::Global;

impl Journal {
    /// Opens the file of a disk, which is attached and of which nothing is pending, as a journal with a ring of that
    /// size. An empty file is made one.
    ///
    /// Each record is read, into a buffer that grows to the longest. A file that is refused stays as it is.
    pub fn open<D: Disk>(alloc: Global, disk: &mut D, ring: u64) -> Result<Journal, JournalFault>
        requires some { 0 < ring }
        requires sized { ring ≤ LARGEST_RING }
        requires settled { IfSome (D.tells disk.old).file IsSettled }
        ensures opened { FileChanges (Opens (marks_of result) ring) (D.tells disk.old).file
            (D.tells disk.new).file }
        ensures ring { IfOk result (λ journal. journal.marks.ring ≡ ring) }
        ensures failed { IfErr result (λ fault. FaultRose fault (D.tells disk.old) (D.tells disk.new)) }
        ensures kept { KeepsDisk (D.tells disk.old) (D.tells disk.new) }
    {
        match marks_in(alloc, disk, ring) {
            Ok(marks) => Ok(Journal { marks }),
            Err(fault) => Err(fault),
        }
    }
}

// The marks of the journal in a file, which is made where the file is empty.
fn marks_in<D: Disk>(alloc: Global, disk: &mut D, ring: u64) -> Result<Marks, JournalFault>
    requires some { 0 < ring }
    requires sized { ring ≤ LARGEST_RING }
    requires settled { IfSome (D.tells disk.old).file IsSettled }
    ensures opened { FileChanges (Opens result ring) (D.tells disk.old).file (D.tells disk.new).file }
    ensures sound { IfOk result IsSound }
    ensures ring { IfOk result (λ marks. marks.ring ≡ ring) }
    ensures failed { IfErr result (λ fault. FaultRose fault (D.tells disk.old) (D.tells disk.new)) }
    ensures kept { KeepsDisk (D.tells disk.old) (D.tells disk.new) }
{
    match disk.len() {
        Ok(len) => marks_by(alloc, disk, ring, len),
        Err(_) => Err(JournalFault::DiskFault),
    }
}

// The same for a file of that length.
fn marks_by<D: Disk>(
    alloc: Global,
    disk: &mut D,
    ring: u64,
    len: u64,
) -> Result<Marks, JournalFault>
    requires some { 0 < ring }
    requires sized { ring ≤ LARGEST_RING }
    requires settled { IfSome (D.tells disk.old).file IsSettled }
    requires long { IfSome (D.tells disk.old).file (λ file. len ≡ length file.bytes) }
    ensures opened { FileChanges (Opens result ring) (D.tells disk.old).file (D.tells disk.new).file }
    ensures sound { IfOk result IsSound }
    ensures ring { IfOk result (λ marks. marks.ring ≡ ring) }
    ensures failed { IfErr result (λ fault. FaultRose fault (D.tells disk.old) (D.tells disk.new)) }
    ensures kept { KeepsDisk (D.tells disk.old) (D.tells disk.new) }
{
    if len == 0 {
        return marks_made(disk, ring);
    }
    marks_of(alloc, disk, ring, len)
}

// The marks of the journal that an empty file is made.
fn marks_made<D: Disk>(disk: &mut D, ring: u64) -> Result<Marks, JournalFault>
    requires some { 0 < ring }
    requires sized { ring ≤ LARGEST_RING }
    requires settled { IfSome (D.tells disk.old).file IsSettled }
    requires empty { IfSome (D.tells disk.old).file (λ file. 0 ≡ length file.bytes) }
    ensures opened { FileChanges (Opens result ring) (D.tells disk.old).file (D.tells disk.new).file }
    ensures sound { IfOk result IsSound }
    ensures ring { IfOk result (λ marks. marks.ring ≡ ring) }
    ensures failed { IfErr result (λ fault. FaultRose fault (D.tells disk.old) (D.tells disk.new)) }
    ensures kept { KeepsDisk (D.tells disk.old) (D.tells disk.new) }
{
    match make(disk, ring) {
        Ok(()) => Ok(Marks {
            ring,
            odd: false,
            front: 0,
            used: 0,
            appended: 0,
            next: 0,
            note: no_note(),
        }),
        Err(_) => Err(JournalFault::DiskFault),
    }
}

// The note of a journal that was just made.
#[tactic(auto, unfolding(crate::specs::Format::zeros))]
fn no_note() -> [u8; NOTE]
    ensures { result ≡ no_note }
{
    [0; NOTE]
}

// The marks of the journal in a file of that length.
fn marks_of<D: Disk>(
    alloc: Global,
    disk: &mut D,
    ring: u64,
    len: u64,
) -> Result<Marks, JournalFault>
    requires sized { ring ≤ LARGEST_RING }
    requires long { IfSome (D.tells disk.old).file (λ file. len ≡ length file.bytes) }
    ensures judged { IfSome (D.tells disk.old).file (λ file. JudgesFile result ring file.bytes) }
    ensures sound { IfOk result IsSound }
    ensures ring { IfOk result (λ marks. marks.ring ≡ ring) }
    ensures file { FileChanges KeepsFile (D.tells disk.old).file (D.tells disk.new).file }
    ensures failed { IfErr result (λ fault. FaultRose fault (D.tells disk.old) (D.tells disk.new)) }
    ensures kept { KeepsDisk (D.tells disk.old) (D.tells disk.new) }
{
    let mut front = [0u8; FRONT];
    if len < RING {
        return Err(short_fault(disk, ring));
    }
    match fill(disk, 0, &mut front) {
        Ok(()) => {}
        Err(fault) => return Err(fault),
    }
    let marks = match judge_front(&front, ring, len) {
        Ok(marks) => marks,
        Err(fault) => return Err(fault),
    };
    match judge_records(alloc, disk, &marks) {
        Ok(()) => Ok(marks),
        Err(fault) => Err(fault),
    }
}

// Why a file is no journal that ends before a ring begins. It may be one that was not made whole.
fn short_fault<D: Disk>(disk: &mut D, ring: u64) -> JournalFault
    requires { IfSome (D.tells disk.old).file (λ file. length file.bytes < RING) }
    ensures judged { IfSome (D.tells disk.old).file (λ file. JudgesFile (Err result) ring file.bytes) }
    ensures file { FileChanges KeepsFile (D.tells disk.old).file (D.tells disk.new).file }
    ensures failed { FaultRose result (D.tells disk.old) (D.tells disk.new) }
    ensures kept { KeepsDisk (D.tells disk.old) (D.tells disk.new) }
{
    let mut front = [0u8; 24];
    match fill(disk, 0, &mut front) {
        Ok(()) => fault_behind(&front, ring),
        Err(fault) => fault,
    }
}

// Why a file is none that begins so, and ends before a ring begins.
fn fault_behind(front: &[u8], ring: u64) -> JournalFault
    requires { length front.now ≡ 24 }
    ensures { IsOfFile result }
{
    if begins(front, &opening(ring)) {
        JournalFault::OtherLength
    } else {
        wrong_opening(front)
    }
}

// The marks that stand in front of the ring, in a file of that length.
fn judge_front(front: &[u8], ring: u64, len: u64) -> Result<Marks, JournalFault>
    requires long { length front.now ≡ RING }
    requires sized { ring ≤ LARGEST_RING }
    ensures judged { (file : List ℕ) → front.now ≡ take RING file → len ≡ length file → JudgesFront result ring file }
    ensures sound { IfOk result IsSound }
    ensures ring { IfOk result (λ marks. marks.ring ≡ ring) }
    ensures of_file { IfErr result IsOfFile }
{
    if begins(front, &opening(ring)) {
        judge_head(front, ring, len)
    } else {
        Err(wrong_opening(front))
    }
}

// The same where the file begins as it should.
fn judge_head(front: &[u8], ring: u64, len: u64) -> Result<Marks, JournalFault>
    requires long { length front.now ≡ RING }
    requires sized { ring ≤ LARGEST_RING }
    requires opened { take 24 front.now ≡ opening ring }
    ensures judged { (file : List ℕ) → front.now ≡ take RING file → len ≡ length file → JudgesFront result ring file }
    ensures sound { IfOk result IsSound }
    ensures ring { IfOk result (λ marks. marks.ring ≡ ring) }
    ensures of_file { IfErr result IsOfFile }
{
    if is_long(len, ring) {
        ordered_marks(front, ring)
    } else {
        Err(JournalFault::OtherLength)
    }
}

// The same where the length is right too.
fn ordered_marks(front: &[u8], ring: u64) -> Result<Marks, JournalFault>
    requires long { length front.now ≡ RING }
    requires sized { ring ≤ LARGEST_RING }
    requires opened { take 24 front.now ≡ opening ring }
    ensures judged { (file : List ℕ) → front.now ≡ take RING file → length file ≡ RING + ring
        → JudgesFront result ring file }
    ensures sound { IfOk result IsSound }
    ensures ring { IfOk result (λ marks. marks.ring ≡ ring) }
    ensures of_file { IfErr result IsOfFile }
{
    let marks = marks_at(front, ring, is_odd(front));
    if is_ordered(&marks) {
        Ok(marks)
    } else {
        Err(JournalFault::BadHead)
    }
}

// Whether a file has the length of a journal with that ring.
fn is_long(len: u64, ring: u64) -> bool
    requires { ring ≤ LARGEST_RING }
    ensures { IsTrue result ↔ (len ≡ RING + ring) }
{
    len == RING + ring
}

// Whether the records that a head tells of fit in the ring.
fn is_ordered(marks: &Marks) -> bool
    ensures { IsTrue result ↔ ((marks.now.front < marks.now.ring) × (marks.now.used ≤ marks.now.ring)) }
{
    marks.front < marks.ring && marks.used <= marks.ring
}

// Why a file does not begin as a journal with the ring that is asked for.
fn wrong_opening(front: &[u8]) -> JournalFault
    requires { 16 ≤ length front.now }
    ensures { IsOfFile result }
{
    if begins(front, &NAME) {
        JournalFault::OtherRing
    } else {
        JournalFault::NotAJournal
    }
}

// Whether the second head counts.
#[tactic(auto, unfolding(crate::specs::Format::selected))]
fn is_odd(front: &[u8]) -> bool
    requires { length front.now ≡ RING }
    ensures { result ≡ selected front.now }
{
    front[SELECT as usize] % 2 == 1
}

// The marks by the head that counts.
fn marks_at(front: &[u8], ring: u64, odd: bool) -> Marks
    requires { length front.now ≡ RING }
    ensures { HasNumbers result ring odd front.now }
{
    let head = place_of(odd) as usize;
    Marks {
        ring,
        odd,
        front: number_in(front, head),
        used: number_in(front, head + 8),
        appended: 0,
        next: number_in(front, head + 16),
        note: note_in(front, head + 24),
    }
}

// The note at a place.
fn note_in(front: &[u8], at: usize) -> [u8; NOTE]
    requires { at + NOTE ≤ length front.now }
    ensures { result ≡ between at (at + NOTE) front.now }
{
    let mut note = [0u8; NOTE];
    note.copy_from_slice(&front[at..at + NOTE]);
    note
}

// Whether bytes begin with others.
fn begins(bytes: &[u8], front: &[u8]) -> bool
    requires { length front.now ≤ length bytes.now }
    ensures { IsTrue result ↔ (take (length front.now) bytes.now ≡ front.now) }
{
    let (beginning, _) = bytes.split_at(front.len());
    beginning == front
}

// Reads the records of a journal.
fn judge_records<D: Disk>(alloc: Global, disk: &mut D, marks: &Marks) -> Result<(), JournalFault>
    requires { IsSound marks.now }
    ensures judged { IfSome (D.tells disk.old).file (λ file. JudgesRecords result marks.now file.bytes) }
    ensures file { FileChanges KeepsFile (D.tells disk.old).file (D.tells disk.new).file }
    ensures failed { IfErr result (λ fault. FaultRose fault (D.tells disk.old) (D.tells disk.new)) }
    ensures kept { KeepsDisk (D.tells disk.old) (D.tells disk.new) }
{
    let mut buffer = Vec::new(alloc);
    let mut at = marks.front;
    let mut left = marks.used;
    let mut next = 0;
    while left > 0 {
        let entry = match read_record(disk, marks.ring, at, left, &mut buffer) {
            Ok(entry) => entry,
            Err(fault) => return Err(fault),
        };
        if entry.number < next {
            return Err(JournalFault::BadRecord);
        }
        next = entry.number + 1;
        let len = buffer.len() as u64;
        at += len;
        left -= len;
    }
    if next > marks.next {
        return Err(JournalFault::BadHead);
    }
    Ok(())
}
