//! The file of a disk in memory, and what a crash may leave of it.
ghost use Rattle.std.specs.Prelude.{◌≡◌, ◌<◌, ◌≤◌, ◌+◌, ◌-◌, ◌++◌, ◌∷◌, [], true, List, ℕ, Option};
ghost use Rattle.std.specs.Prelude.{length, take, drop, min, OnOk, OnErr, IfSome, IfNone};
ghost use Rattle.ldm_disk_memory.specs.MemDisk.{first_file, file_written, file_cut, FileSynced};
ghost use Rattle.ldm_disk_memory.specs.MemDisk.{fits, loosened, leaves, told_by_file};
ghost use Rattle.ldm_disk.specs.Model.{written_at, step_of_write, step_of_cut};
ghost use Rattle.ldm_disk.specs.Moments.{Goes};
ghost use Rattle.ldm_disk.specs.Calls.{SettlesFile};
ghost use Rattle.ldm_disk_memory.specs.Pending.{base_of};

use std::alloc::{AllocError, Global};
use std::marker::Model;
use std::mem;

// What a crash leaves of a byte that was written and not synced.
const SPOILED: u8 = 0xA5;

/// Bytes from a place on and before another were written since the last sync, and then the file had that length.
#[derive(Clone, Copy)]
pub struct Change {
    start: usize,
    end: usize,
    len: usize,
}

/// The bytes after a sync, and what changed before the next one.
#[derive(Drop)]
pub struct Epoch {
    synced: Vec<u8>,
    since: Vec<Change>,
}

/// A file in memory.
#[derive(Drop)]
pub struct MemFile {
    // as it reads
    seen: Vec<u8>,
    // the bytes after the last sync, where something changed since
    synced: Vec<u8>,
    since: Vec<Change>,
    // before the last sync
    past: Vec<Epoch>,
}

impl Model for MemFile {
    ghost use Rattle.std.specs.Prelude.{◌≡◌, true};
    ghost use Rattle.ldm_disk_memory.specs.MemDisk.{MemFileState, leaves};
    ghost use Rattle.ldm_disk_memory.specs.Pending.{file_of};

    ghost Value = { MemFileState };

    ghost view = { λ s. file_of s.seen.items s.synced.items s.since.items s.past.items };

    ghost invariant = { λ s. leaves (file_of s.seen.items s.synced.items s.since.items s.past.items).now s.seen.items
        ≡ true };
}

// Notes a change that is to come. Where it is the first since a sync, it keeps the bytes as they are.
fn note(
    seen: &[u8],
    synced: &mut Vec<u8>,
    since: &mut Vec<Change>,
    change: Change,
) -> Result<(), AllocError>
    ensures noted { OnOk result (since.new.items ≡ since.old.items ++ change ∷ []) }
    ensures base { OnOk result (synced.new.items ≡ base_of seen.now synced.old.items since.old.items) }
    ensures since_kept { OnErr result (since.new.items ≡ since.old.items) }
    ensures base_kept { OnErr result (base_of seen.now synced.new.items since.old.items
        ≡ base_of seen.now synced.old.items since.old.items) }
{
    if since.is_empty() {
        *synced = seen.to_vec(*synced.allocator())?;
    }
    since.push(change)?;
    Ok(())
}

// Writes the piece at a place, so that it ends at another.
fn put(bytes: &mut Vec<u8>, at: usize, end: usize, piece: &[u8]) -> Result<(), AllocError>
    requires some { 0 < length piece.now }
    requires end { end ≡ at + length piece.now }
    ensures written { OnOk result (bytes.new.items ≡ written_at at piece.now bytes.old.items) }
    ensures kept { OnErr result (bytes.new.items ≡ bytes.old.items) }
{
    if bytes.len() < end {
        bytes.resize(end, 0)?;
    }
    bytes[at..end].copy_from_slice(piece);
    Ok(())
}

// What a crash may leave of a change: other bytes where it wrote.
fn spoil(bytes: &mut [u8], change: Change)
    ensures fits { (stays : List (Option ℕ)) → fits stays bytes.old ≡ true →
        fits (loosened change.start change.end stays) bytes.new ≡ true }
    ensures len { length bytes.new ≡ length bytes.old }
{
    let end = change.end.min(bytes.len());
    if change.start < end {
        bytes[change.start..end].fill(SPOILED);
    }
}

impl MemFile {
    /// A file of these bytes, of which nothing is pending.
    pub(crate) fn new(alloc: Global, bytes: Vec<u8>) -> MemFile
        ensures { result ≡ first_file bytes.items }
    {
        MemFile {
            seen: bytes,
            synced: Vec::new(alloc),
            since: Vec::new(alloc),
            past: Vec::new(alloc),
        }
    }

    /// The bytes that a read gives.
    pub(crate) fn bytes(&self) -> &[u8]
        ensures { result.now ≡ self.now.bytes }
    {
        self.seen.as_slice()
    }

    /// Reads bytes at a place into the front of the buffer, and answers how many; `None` at the end of the file or
    /// past it, where the buffer is not empty.
    pub(crate) fn read(&self, at: u64, into: &mut [u8]) -> Option<usize>
        ensures front { IfSome result (λ n. take n into.new ≡ take n (drop at self.now.bytes)) }
        ensures count { IfSome result (λ n. (n ≤ length into.new) × (0 < length into.new → 0 < n)) }
        ensures most { IfSome result (λ n. n ≡ min (length into.old) (length self.now.bytes - at)) }
        ensures end { IfNone result ((0 < length into.new) × (length self.now.bytes ≤ at)) }
        ensures len { length into.new ≡ length into.old }
    {
        let len = self.seen.len() as u64;
        if into.is_empty() {
            return Some(0);
        }
        if len <= at {
            return None;
        }
        let from = &self.seen[at as usize..];
        let n = from.len().min(into.len());
        into[..n].copy_from_slice(&from[..n]);
        Some(n)
    }

    /// Writes the piece at a place.
    pub(crate) fn write_at(&mut self, at: u64, piece: &[u8]) -> Result<(), AllocError>
        ensures written { OnOk result (self.new ≡ file_written at piece.now self.old) }
        ensures kept { OnErr result (self.new ≡ self.old) }
        ensures goes { OnOk result (Goes (step_of_write at piece.now self.old.bytes)
            (told_by_file self.old) (told_by_file self.new)) }
    {
        let at = at as usize;
        if piece.is_empty() {
            return Ok(());
        }
        let Some(end) = at.checked_add(piece.len()) else {
            return Err(AllocError);
        };
        let change = Change {
            start: at.min(self.seen.len()),
            end,
            len: self.seen.len().max(end),
        };
        note(&self.seen, &mut self.synced, &mut self.since, change)?;
        if let Err(error) = put(&mut self.seen, at, end, piece) {
            self.since.pop();
            return Err(error);
        }
        Ok(())
    }

    /// Cuts the file to a length, or fills it up with zeros.
    pub(crate) fn cut(&mut self, len: u64) -> Result<(), AllocError>
        ensures cut { OnOk result (self.new ≡ file_cut len self.old) }
        ensures kept { OnErr result (self.new ≡ self.old) }
        ensures goes { OnOk result (Goes (step_of_cut len self.old.bytes)
            (told_by_file self.old) (told_by_file self.new)) }
    {
        let len = len as usize;
        let change = Change {
            start: self.seen.len(),
            end: len,
            len,
        };
        note(&self.seen, &mut self.synced, &mut self.since, change)?;
        if let Err(error) = self.seen.resize(len, 0) {
            self.since.pop();
            return Err(error);
        }
        Ok(())
    }

    /// From now on a crash leaves the file as it reads.
    pub(crate) fn sync(&mut self) -> Result<(), AllocError>
        ensures synced { OnOk result (FileSynced self.old self.new) }
        ensures kept { OnErr result (self.new ≡ self.old) }
        ensures settles { OnOk result (SettlesFile (told_by_file self.old) (told_by_file self.new)) }
    {
        if self.since.is_empty() {
            return Ok(());
        }
        let alloc = *self.seen.allocator();
        self.past.reserve(1)?;
        let synced = mem::replace(&mut self.synced, Vec::new(alloc));
        let since = mem::replace(&mut self.since, Vec::new(alloc));
        self.past.push_reserved(Epoch { synced, since });
        Ok(())
    }

    /// A file that a crash may leave: of the length after the last sync, with other bytes wherever something was
    /// written.
    pub(crate) fn crash(self) -> Vec<u8>
        ensures { leaves self.now result.items ≡ true }
    {
        if self.since.is_empty() {
            return self.seen;
        }
        let mut left = self.synced;
        for change in &self.since {
            spoil(&mut left, *change);
        }
        left
    }
}
