//! Reading records one after another.
ghost use Rattle.std.specs.Prelude.{◌≡◌, ◌+◌, ◌-◌, ◌*◌, ◌^◌, ◌<◌, ◌≤◌, ℕ, List, length};
ghost use Rattle.std.specs.Prelude.{IfErr, IfOk, IfSome, OnErr, vec_len};
ghost use Rattle.ldm_disk.specs.Calls.{FileChanges, KeepsDisk, KeepsFile};
ghost use Rattle.ldm_journal.specs.declared.places.TheConstants.{LARGEST_RING};
ghost use Rattle.ldm_disk.specs.Told.{FileRecord, IsConsistent};
ghost use Rattle.ldm_journal.specs.Records.{Kept};
ghost use Rattle.ldm_journal.specs.Reading.{CountsRecord, FaultRose, Fetches, HasBody, IsBefore, IsShorter};
ghost use Rattle.ldm_journal.specs.Reading.{Reads, ReadsRecord, TakesRecord};
ghost use Rattle.ldm_journal.specs.Standing.{Stands};

use crate::entry::Entry;
use crate::fault::JournalFault;
use crate::journal::Journal;
use crate::places::NOTE;
use crate::read::fill_around;
use crate::reader::Reader;
use crate::record::{judge, tell};
use ldm_disk::Disk;

impl Journal {
    /// Reads what is committed from the oldest product on.
    pub fn reader(&self) -> Reader
        ensures ring { result.ring ≡ self.now.marks.ring }
        ensures at { result.at ≡ self.now.marks.front }
        ensures left { result.left ≡ self.now.marks.used }
        ensures first { (kept appended : List Kept) (file : FileRecord) → IsConsistent file
            → Stands self.now.marks kept appended file
            → IsBefore 0 kept self.now.marks result }
    {
        Reader {
            ring: self.marks.ring,
            at: self.marks.front,
            left: self.marks.used,
        }
    }

    /// How many bytes the ring has.
    pub fn ring(&self) -> u64
        ensures { result ≡ self.now.marks.ring }
    {
        self.marks.ring
    }

    /// How many bytes the records have that were appended since the last commit.
    pub fn appended(&self) -> u64
        ensures { result ≡ self.now.marks.appended }
    {
        self.marks.appended
    }

    /// The note that is committed. A journal that was just made has one of zeros.
    pub fn note(&self) -> &[u8; NOTE]
        ensures { result.now ≡ self.now.marks.note }
    {
        &self.marks.note
    }

    /// The least number that the next product may have.
    pub fn next_number(&self) -> u64
        ensures { result ≡ self.now.marks.next }
    {
        self.marks.next
    }
}

impl Reader {
    /// The next product. Its record stands in the buffer, which grows to it. After an `Err` the same product is next.
    ///
    /// The sum is not computed: opening did it.
    pub fn next<D: Disk>(
        &mut self,
        disk: &mut D,
        buffer: &mut Vec<u8>,
    ) -> Result<Option<Entry>, JournalFault>
        ensures read { IfSome (D.tells disk.old).file (Reads result self.old self.new buffer.new.items) }
        ensures body { HasBody result buffer.new.items }
        ensures shorter { IsShorter result self.old self.new }
        ensures same { OnErr result (self.new ≡ self.old) }
        ensures file { FileChanges KeepsFile (D.tells disk.old).file (D.tells disk.new).file }
        ensures failed { IfErr result (λ fault. FaultRose fault (D.tells disk.old) (D.tells disk.new)) }
        ensures kept { KeepsDisk (D.tells disk.old) (D.tells disk.new) }
    {
        if self.left == 0 {
            return Ok(None);
        }
        let entry = match take_record(disk, self.ring, self.at, self.left, buffer) {
            Ok(entry) => entry,
            Err(fault) => return Err(fault),
        };
        let len = buffer.len() as u64;
        self.at += len;
        self.left -= len;
        Ok(Some(entry))
    }
}

// Reads the record at the front of so many bytes of the ring from a place on. Its sum is not computed.
fn take_record<D: Disk>(
    disk: &mut D,
    ring: u64,
    from: u64,
    left: u64,
    buffer: &mut Vec<u8>,
) -> Result<Entry, JournalFault>
    requires sized { ring ≤ LARGEST_RING }
    requires filled { left ≤ ring }
    requires twice { from + left < 2 * ring }
    ensures taken { IfSome (D.tells disk.old).file
        (λ file. TakesRecord result ring from left buffer.new.items file.bytes) }
    ensures within { IfOk result (λ entry. vec_len buffer.new ≤ left) }
    ensures some { IfOk result (λ entry. 24 ≤ vec_len buffer.new) }
    ensures body { IfOk result (λ entry. entry.body_at + entry.info.size ≤ length buffer.new.items) }
    ensures file { FileChanges KeepsFile (D.tells disk.old).file (D.tells disk.new).file }
    ensures failed { IfErr result (λ fault. FaultRose fault (D.tells disk.old) (D.tells disk.new)) }
    ensures kept { KeepsDisk (D.tells disk.old) (D.tells disk.new) }
{
    match fetch(disk, ring, from, left, buffer) {
        Ok(()) => {}
        Err(fault) => return Err(fault),
    }
    match tell(buffer) {
        Some(entry) => Ok(entry),
        None => Err(JournalFault::BadRecord),
    }
}

/// Reads the record at the front of so many bytes of the ring from a place on, whose sum holds.
pub(crate) fn read_record<D: Disk>(
    disk: &mut D,
    ring: u64,
    from: u64,
    left: u64,
    buffer: &mut Vec<u8>,
) -> Result<Entry, JournalFault>
    requires sized { ring ≤ LARGEST_RING }
    requires filled { left ≤ ring }
    requires twice { from + left < 2 * ring }
    ensures read { IfSome (D.tells disk.old).file
        (λ file. ReadsRecord result ring from left buffer.new.items file.bytes) }
    ensures within { IfOk result (λ entry. vec_len buffer.new ≤ left) }
    ensures some { IfOk result (λ entry. 24 ≤ vec_len buffer.new) }
    ensures numbered { IfOk result (λ entry. entry.number < 2 ^ 64 - 1) }
    ensures body { IfOk result (λ entry. entry.body_at + entry.info.size ≤ length buffer.new.items) }
    ensures file { FileChanges KeepsFile (D.tells disk.old).file (D.tells disk.new).file }
    ensures failed { IfErr result (λ fault. FaultRose fault (D.tells disk.old) (D.tells disk.new)) }
    ensures kept { KeepsDisk (D.tells disk.old) (D.tells disk.new) }
{
    match fetch(disk, ring, from, left, buffer) {
        Ok(()) => {}
        Err(fault) => return Err(fault),
    }
    match judge(buffer) {
        Some(entry) => Ok(entry),
        None => Err(JournalFault::BadRecord),
    }
}

// Reads the bytes of the record at the front of so many bytes of the ring from a place on.
fn fetch<D: Disk>(
    disk: &mut D,
    ring: u64,
    from: u64,
    left: u64,
    buffer: &mut Vec<u8>,
) -> Result<(), JournalFault>
    requires sized { ring ≤ LARGEST_RING }
    requires filled { left ≤ ring }
    requires twice { from + left < 2 * ring }
    ensures fetched { IfSome (D.tells disk.old).file
        (λ file. Fetches result ring from left buffer.new.items file.bytes) }
    ensures within { IfOk result (λ done. vec_len buffer.new ≤ left) }
    ensures some { IfOk result (λ done. 24 ≤ vec_len buffer.new) }
    ensures file { FileChanges KeepsFile (D.tells disk.old).file (D.tells disk.new).file }
    ensures failed { IfErr result (λ fault. FaultRose fault (D.tells disk.old) (D.tells disk.new)) }
    ensures kept { KeepsDisk (D.tells disk.old) (D.tells disk.new) }
{
    let len = match record_len(disk, ring, from, left) {
        Ok(len) => len,
        Err(fault) => return Err(fault),
    };
    buffer.clear();
    match buffer.resize(len as usize, 0) {
        Ok(()) => {}
        Err(_) => return Err(JournalFault::OutOfMemory),
    }
    fill_around(disk, ring, from, buffer)
}

/// How many bytes the record has that stands at the front of so many bytes of the ring from a place on.
pub(crate) fn record_len<D: Disk>(
    disk: &mut D,
    ring: u64,
    from: u64,
    left: u64,
) -> Result<u64, JournalFault>
    requires sized { ring ≤ LARGEST_RING }
    requires filled { left ≤ ring }
    requires twice { from + left < 2 * ring }
    ensures len { IfSome (D.tells disk.old).file (λ file. CountsRecord result ring from left file.bytes) }
    ensures within { IfOk result (λ len. len ≤ left) }
    ensures some { IfOk result (λ len. 24 ≤ len) }
    ensures file { FileChanges KeepsFile (D.tells disk.old).file (D.tells disk.new).file }
    ensures failed { IfErr result (λ fault. FaultRose fault (D.tells disk.old) (D.tells disk.new)) }
    ensures kept { KeepsDisk (D.tells disk.old) (D.tells disk.new) }
{
    if left < 24 {
        return Err(JournalFault::BadRecord);
    }
    let mut count = [0u8; 8];
    match fill_around(disk, ring, from, &mut count) {
        Ok(()) => {}
        Err(fault) => return Err(fault),
    }
    let count = u64::from_be_bytes(count);
    if count > left - 24 {
        return Err(JournalFault::BadRecord);
    }
    Ok(count + 24)
}
