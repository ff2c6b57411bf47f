//! A disk in memory, which fails at chosen calls and crashes when it is told to.
ghost use Rattle.std.specs.Prelude.{◌≡◌, true, Some, length};
ghost use Rattle.ldm_disk_memory.specs.MemDisk.{first_disk, told_by_disk, told_by_file};

use crate::mem_file::MemFile;
use crate::schedule::{DiskCall, Schedule};
use ldm_disk::Disk;
use ldm_outside::{Failed, Got};
use std::alloc::Global;
use std::marker::Model;

/// A disk in memory. It has one file, whatever the path. Its calls are numbered from 1, and those of the numbers in a
/// list fail.
///
/// A call that fails changes nothing in the file. A call without memory for what it is to keep fails too.
#[derive(Drop)]
pub struct MemDisk {
    file: MemFile,
    attached: bool,
    schedule: Schedule,
    alloc: Global,
}

impl Model for MemDisk {
    ghost use Rattle.ldm_disk_memory.specs.MemDisk.{MemDiskState};

    ghost Value = { MemDiskState };

    ghost view = { λ s. record { file = s.file; attached = s.attached; schedule = s.schedule } };
}

impl MemDisk {
    /// A disk whose file has these bytes, of which nothing is pending, and whose calls of the given numbers fail. The
    /// numbers are in any order.
    pub fn new(alloc: Global, bytes: Vec<u8>, failing: Vec<u64>) -> MemDisk
        ensures { result ≡ first_disk bytes.items failing.items }
    {
        MemDisk {
            file: MemFile::new(alloc, bytes),
            attached: false,
            schedule: Schedule::new(alloc, failing),
            alloc,
        }
    }

    /// From now on the call of that number fails, and all later ones.
    pub fn stop_at(&mut self, call: u64)
        ensures { self.new ≡ record self.old { schedule = record self.old.schedule { stop = Some call } } }
    {
        self.schedule.stop_at(call);
    }

    /// A crash: a new disk with a file that a crash now may leave, and whose calls do not fail. It takes no memory.
    ///
    /// Of the files that may be left it has one that suits no caller: the old length, and other bytes wherever
    /// something was written.
    pub fn crash(self) -> MemDisk
        ensures left { (told_by_file self.file).may_leave result.file.bytes ≡ true }
        ensures unused { result ≡ first_disk result.file.bytes result.schedule.failing }
    {
        let alloc = self.alloc;
        MemDisk::new(alloc, self.file.crash(), Vec::new(alloc))
    }

    /// The bytes that a read gives.
    pub fn bytes(&self) -> &[u8]
        ensures { result.now ≡ self.now.file.bytes }
    {
        self.file.bytes()
    }

    /// All calls, in order.
    pub fn calls(&self) -> &[DiskCall]
        ensures { result.now ≡ self.now.schedule.calls }
    {
        self.schedule.calls()
    }

    /// How often it failed.
    pub fn faults(&self) -> u64
        ensures { result ≡ self.now.schedule.faults }
    {
        self.schedule.faults()
    }
}

impl Disk for MemDisk {
    ghost use Rattle.ldm_disk.specs.Calls.{FileChanges, KeepsFile, Attaches, LenGives, ReadGives};
    ghost use Rattle.ldm_disk.specs.Calls.{WritesFile, CutsFile, SyncsFile, Rises, KeepsDisk};
    ghost use Rattle.ldm_disk_memory.specs.MemDisk.{SyncsAsPlanned, ChangesAsPlanned, LenAsPlanned};
    ghost use Rattle.ldm_disk_memory.specs.MemDisk.{ReadsAsPlanned, file_written, file_cut};
    ghost use Rattle.ldm_disk_memory.specs.Consistent.{always_consistent};

    ghost tells = { told_by_disk };

    ghost consistent = { always_consistent };

    fn attach(&mut self, _path: &str) -> Result<(), Failed>
        ensures attached { Attaches result (told_by_disk self.old) (told_by_disk self.new) }
        ensures failed { Rises result (told_by_disk self.old) (told_by_disk self.new) }
        ensures planned { SyncsAsPlanned result DiskCall.Attach self.old self.new }
    {
        self.attached = false;
        self.schedule.begin(DiskCall::Attach)?;
        if self.file.sync().is_err() {
            return Err(self.schedule.fail());
        }
        self.attached = true;
        Ok(())
    }

    fn len(&mut self) -> Result<u64, Failed>
        ensures given { LenGives result (told_by_disk self.old) (told_by_disk self.new) }
        ensures file { FileChanges KeepsFile (told_by_disk self.old).file (told_by_disk self.new).file }
        ensures kept { KeepsDisk (told_by_disk self.old) (told_by_disk self.new) }
        ensures planned { LenAsPlanned result self.old self.new }
    {
        self.schedule.begin(DiskCall::Len)?;
        Ok(self.file.bytes().len() as u64)
    }

    fn read(&mut self, at: u64, into: &mut [u8]) -> Got
        ensures given { ReadGives result at into.new (told_by_disk self.old) (told_by_disk self.new) }
        ensures file { FileChanges KeepsFile (told_by_disk self.old).file (told_by_disk self.new).file }
        ensures kept { KeepsDisk (told_by_disk self.old) (told_by_disk self.new) }
        ensures planned { ReadsAsPlanned result at (length into.old) self.old self.new }
    {
        let call = DiskCall::Read {
            at,
            len: into.len(),
        };
        if self.schedule.begin(call).is_err() {
            return Got::Failed;
        }
        match self.file.read(at, into) {
            Some(n) => Got::Bytes(n),
            None => Got::End,
        }
    }

    fn write_at(&mut self, at: u64, piece: &[u8]) -> Result<(), Failed>
        ensures written { FileChanges (WritesFile result at piece.now)
            (told_by_disk self.old).file (told_by_disk self.new).file }
        ensures failed { Rises result (told_by_disk self.old) (told_by_disk self.new) }
        ensures kept { KeepsDisk (told_by_disk self.old) (told_by_disk self.new) }
        ensures planned { ChangesAsPlanned result (DiskCall.Write at (length piece.now)) (file_written at piece.now)
            self.old self.new }
    {
        let call = DiskCall::Write {
            at,
            len: piece.len(),
        };
        self.schedule.begin(call)?;
        match self.file.write_at(at, piece) {
            Ok(()) => Ok(()),
            Err(_) => Err(self.schedule.fail()),
        }
    }

    fn cut(&mut self, len: u64) -> Result<(), Failed>
        ensures cut { FileChanges (CutsFile result len) (told_by_disk self.old).file (told_by_disk self.new).file }
        ensures failed { Rises result (told_by_disk self.old) (told_by_disk self.new) }
        ensures kept { KeepsDisk (told_by_disk self.old) (told_by_disk self.new) }
        ensures planned { ChangesAsPlanned result (DiskCall.Cut len) (file_cut len) self.old self.new }
    {
        self.schedule.begin(DiskCall::Cut { len })?;
        match self.file.cut(len) {
            Ok(()) => Ok(()),
            Err(_) => Err(self.schedule.fail()),
        }
    }

    fn sync(&mut self) -> Result<(), Failed>
        ensures synced { FileChanges (SyncsFile result) (told_by_disk self.old).file (told_by_disk self.new).file }
        ensures failed { Rises result (told_by_disk self.old) (told_by_disk self.new) }
        ensures kept { KeepsDisk (told_by_disk self.old) (told_by_disk self.new) }
        ensures planned { SyncsAsPlanned result DiskCall.Sync self.old self.new }
    {
        self.schedule.begin(DiskCall::Sync)?;
        match self.file.sync() {
            Ok(()) => Ok(()),
            Err(_) => Err(self.schedule.fail()),
        }
    }
}
