//! A file of the system, as a disk.
ghost use Rattle.std.specs.Prelude.{◌≡◌, ◌≤◌, false, None};
ghost use Rattle.std.specs.Io.{ReadsAtMost};
ghost use Rattle.ldm_disk.specs.Calls.{Rises};
ghost use Rattle.ldm_outside.specs.Count.{Rose};
ghost use Rattle.ldm_adapters.specs.Front.{GivesPlace};
ghost use Rattle.ldm_adapters.specs.Told.{told_by_disk};

use ldm_disk::Disk;
use ldm_outside::{Failed, Got};
use std::fs::{self, File, OpenOptions};
use std::io::{self, ErrorKind};
use std::os::unix::fs::FileExt;
use std::rt::HostRuntime;

// How many bytes are gathered at most before the system is called to write them.
const GATHERED: usize = 131_072;

/// A file of the system, which no other program that locks it has at the same time. It does not tell what it has.
///
/// Small pieces that are written one behind the other are gathered, and written by one call of the system: at the latest
/// before the file is read, measured, cut, synced, or written at another place.
///
/// `attach` refuses what is no regular file without waiting for it, and a file that another program has locked. It
/// makes a missing file, and no folder. The lock ends with the disk, or at the next `attach`.
#[derive(Drop)]
pub struct RealDisk {
    rt: HostRuntime,
    file: Option<File>,
    faults: u64,
    // What was written and the file has not got yet, and the place where it goes.
    gathered: Vec<u8>,
    place: u64,
}

impl RealDisk {
    /// A disk of this system, to which no file is attached yet.
    pub fn new(rt: HostRuntime) -> RealDisk
        ensures { told_by_disk result ≡ record { faults = 0; attached = false; file = None } }
    {
        RealDisk {
            rt,
            file: None,
            faults: 0,
            gathered: Vec::new(rt.alloc()),
            place: 0,
        }
    }

    /// How often it failed.
    pub fn faults(&self) -> u64
        ensures { result ≡ self.now.faults }
    {
        self.faults
    }

    // Writes what is gathered. Where that fails it is lost, as by a crash.
    fn flush(&mut self) -> Result<(), Failed>
        ensures attached { self.new.file ≡ self.old.file }
        ensures rises { Rises result (told_by_disk self.old) (told_by_disk self.new) }
    {
        if self.gathered.is_empty() {
            return Ok(());
        }
        let written = match &self.file {
            Some(file) => file
                .write_all_at(self.gathered.as_slice(), self.place)
                .is_ok(),
            None => false,
        };
        self.gathered.clear();
        if written { Ok(()) } else { Err(self.fail()) }
    }

    // Gathers a piece behind what is gathered, where there is room, and nothing stands between. It answers whether it did.
    fn gather(&mut self, at: u64, piece: &[u8]) -> bool
        ensures attached { self.new.file ≡ self.old.file }
        ensures kept { self.new.faults ≡ self.old.faults }
    {
        let len = self.gathered.len();
        if len == 0 {
            self.place = at;
        } else if at < self.place || at - self.place != len as u64 {
            return false;
        }
        if piece.len() > GATHERED || len > GATHERED - piece.len() {
            return false;
        }
        self.gathered.extend_from_slice(piece).is_ok()
    }

    // Counts a fault.
    fn fail(&mut self) -> Failed
        ensures counted { self.new ≡ record self.old { faults = self.new.faults } }
        ensures rose { Rose self.old.faults self.new.faults }
        ensures kept { self.old.faults ≤ self.new.faults }
    {
        self.faults = self.faults.saturating_add(1);
        Failed
    }
}

impl Disk for RealDisk {
    ghost use Rattle.ldm_adapters.specs.Told.{told_by_disk};

    ghost tells = { told_by_disk };

    ghost consistent = { λ _. tt };

    fn attach(&mut self, path: &str) -> Result<(), Failed> {
        let _ = self.flush();
        // the lock on the file that was attached before ends here
        self.file = None;
        match attach(self.rt, path) {
            Ok(file) => {
                self.file = Some(file);
                Ok(())
            }
            Err(_) => Err(self.fail()),
        }
    }

    fn len(&mut self) -> Result<u64, Failed> {
        self.flush()?;
        match self.file.as_ref().map(File::metadata) {
            Some(Ok(found)) => Ok(found.len()),
            _ => Err(self.fail()),
        }
    }

    fn read(&mut self, at: u64, into: &mut [u8]) -> Got {
        if self.flush().is_err() {
            return Got::Failed;
        }
        let got = match &self.file {
            Some(file) => read_place(file, at, into),
            None => Got::Failed,
        };
        if got == Got::Failed {
            self.fail();
        }
        got
    }

    fn write_at(&mut self, at: u64, piece: &[u8]) -> Result<(), Failed> {
        if self.file.is_none() {
            return Err(self.fail());
        }
        if self.gather(at, piece) {
            return Ok(());
        }
        self.flush()?;
        if self.gather(at, piece) {
            return Ok(());
        }
        match self.file.as_ref().map(|file| file.write_all_at(piece, at)) {
            Some(Ok(())) => Ok(()),
            _ => Err(self.fail()),
        }
    }

    fn cut(&mut self, len: u64) -> Result<(), Failed> {
        self.flush()?;
        match self.file.as_ref().map(|file| file.set_len(len)) {
            Some(Ok(())) => Ok(()),
            _ => Err(self.fail()),
        }
    }

    fn sync(&mut self) -> Result<(), Failed> {
        self.flush()?;
        match self.file.as_ref().map(File::sync_data) {
            Some(Ok(())) => Ok(()),
            _ => Err(self.fail()),
        }
    }
}

// One read at a place. A file has no bytes at its end, nor past it.
fn read_place(file: &File, at: u64, into: &mut [u8]) -> Got
    ensures { GivesPlace result into.new }
{
    if into.is_empty() {
        return Got::Bytes(0);
    }
    match read_uninterrupted(file, at, into) {
        Ok(0) => Got::End,
        Ok(n) => Got::Bytes(n),
        Err(_) => Got::Failed,
    }
}

// One read, tried again each time a signal interrupts it.
fn read_uninterrupted(file: &File, at: u64, into: &mut [u8]) -> io::Result<usize>
    ensures { ReadsAtMost result into.new }
{
    for _ in 0..u64::MAX {
        match file.read_at(into, at) {
            Err(error) if error.kind() == ErrorKind::Interrupted => {}
            answer => return answer,
        }
    }
    Err(io::Error::from(ErrorKind::TimedOut))
}

// Opens the file under the path, and makes it where it is missing. What is no regular file is refused before it is
// opened: the opening of a FIFO would wait for its other end.
fn open(rt: HostRuntime, path: &str) -> io::Result<File> {
    match fs::metadata(&rt, path) {
        Ok(found) if !found.is_file() => Err(io::Error::from(ErrorKind::Unsupported)),
        Err(error) if error.kind() != ErrorKind::NotFound => Err(error),
        _ => {
            let mut how = OpenOptions::new();
            how.read(true).write(true).create(true);
            how.open(&rt, path)
        }
    }
}

// Opens the file under the path and locks it, and brings to the disk what is pending. The entry of an empty file may
// be new, and is brought there too.
fn attach(rt: HostRuntime, path: &str) -> io::Result<File> {
    let file = open(rt, path)?;
    file.try_lock()?;
    file.sync_all()?;
    if file.metadata()?.len() == 0 {
        fs::open(&rt, folder_of(path))?.sync_all()?;
    }
    Ok(file)
}

// The folder in which the file under a path lies.
fn folder_of(path: &str) -> &str {
    match path.rfind('/') {
        Some(0) => "/",
        Some(at) => &path[..at],
        None => ".",
    }
}
