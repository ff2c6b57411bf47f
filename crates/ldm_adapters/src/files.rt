//! Files of the system.
ghost use Rattle.std.specs.Prelude.{◌≡◌, ◌≤◌, ◌+◌, [], IfOk, OnOk, OnErr};
ghost use Rattle.ldm_outside.specs.Count.{Rose};
ghost use Rattle.ldm_outside.specs.Numbered.{with_number};
ghost use Rattle.ldm_adapters.specs.Front.{TakesSome};

use crate::streams::write_some;
use crate::telling::tell;
use ldm_outside::{Failed, FileNo, FileRead, Put, Reason, Reasons, Store};
use std::alloc::{AllocError, Global};
use std::collections::BTreeMap;
use std::fs::{self, File, Metadata, OpenOptions};
use std::io::{self, ErrorKind, Read, Write};
use std::marker::Model;
use std::os::unix::fs::FileTypeExt;
use std::path::Path;
use std::rt::HostRuntime;

// A file that is open.
#[derive(Drop)]
struct RealFile {
    path: String,
    file: File,
}

impl Model for RealFile {
    ghost use Rattle.std.specs.Prelude.{List, ℕ, string_bytes};

    ghost Value = { List ℕ };

    ghost view = { λ s. string_bytes s.path };
}

impl RealFile {
    // Opens the file under the path, to be written at its end.
    fn open(rt: HostRuntime, path: &str) -> io::Result<RealFile>
        ensures { IfOk result (λ opened. opened ≡ path.now) }
    {
        Ok(RealFile {
            path: String::from_str(rt.alloc(), path)?,
            file: open_in_folders(rt, path)?,
        })
    }

    fn write(&self, piece: &[u8]) -> io::Result<usize>
        ensures { IfOk result (λ n. TakesSome n piece.now) }
    {
        let mut file = &self.file;
        write_some(&mut file, piece)
    }

    fn empty(&self) -> io::Result<()> {
        self.file.set_len(0)
    }

    fn flush(&self) -> io::Result<()> {
        let mut file = &self.file;
        file.flush()
    }
}

// Whether a FIFO stands under the path.
fn is_fifo(rt: HostRuntime, path: &str) -> bool {
    match fs::metadata(&rt, path) {
        Ok(found) => found.file_type().is_fifo(),
        Err(_) => false,
    }
}

// Opens the file under the path, to be written at its end. A FIFO is refused, since the opening of one that nobody
// reads would wait for ever.
fn open(rt: HostRuntime, path: &str) -> io::Result<File> {
    if is_fifo(rt, path) {
        return Err(io::Error::new(ErrorKind::Unsupported, "Is a named pipe"));
    }
    let mut how = OpenOptions::new();
    how.append(true).create(true);
    how.open(&rt, path)
}

// The same, with folders that are missing.
fn open_in_folders(rt: HostRuntime, path: &str) -> io::Result<File> {
    match open(rt, path) {
        Err(error) if error.kind() == ErrorKind::NotFound => {
            if let Some(folder) = Path::new(path).parent() {
                fs::create_dir_all(&rt, folder)?;
            }
            open(rt, path)
        }
        answer => answer,
    }
}

// The files that are open, under their numbers, and the next number.
#[derive(Drop)]
struct OpenFiles {
    files: BTreeMap<usize, RealFile>,
    next: usize,
}

impl OpenFiles {
    // Opens the file under the path.
    fn open(&mut self, rt: HostRuntime, path: &str) -> io::Result<FileNo>
        ensures number { IfOk result (λ file. file.0 ≡ self.old.next) }
        ensures next { OnOk result (self.new.next ≡ self.old.next + 1) }
        ensures files { OnOk result
            (self.new.files.entries ≡ with_number self.old.next path.now self.old.files.entries) }
        ensures next_kept { OnErr result (self.new.next ≡ self.old.next) }
        ensures files_kept { OnErr result (self.new.files.entries ≡ self.old.files.entries) }
    {
        let number = self.next;
        let Some(next) = number.checked_add(1) else {
            return Err(io::Error::from(ErrorKind::QuotaExceeded));
        };
        let file = RealFile::open(rt, path)?;
        self.files.insert(number, file).map_err(AllocError::from)?;
        self.next = next;
        Ok(FileNo(number))
    }

    // The path of a file: none where it is not open.
    fn path(&self, file: FileNo) -> &[u8] {
        match self.files.get(&file.0) {
            Some(it) => it.path.as_bytes(),
            None => b"".as_slice(),
        }
    }

    fn write(&self, file: FileNo, piece: &[u8]) -> io::Result<usize>
        ensures { IfOk result (λ n. TakesSome n piece.now) }
    {
        match self.files.get(&file.0) {
            Some(it) => it.write(piece),
            None => Err(not_open()),
        }
    }

    fn empty(&self, file: FileNo) -> io::Result<()> {
        match self.files.get(&file.0) {
            Some(it) => it.empty(),
            None => Err(not_open()),
        }
    }

    fn flush(&self, file: FileNo) -> io::Result<()> {
        match self.files.get(&file.0) {
            Some(it) => it.flush(),
            None => Err(not_open()),
        }
    }
}

// The error of a call for a file that is not open.
fn not_open() -> io::Error {
    io::Error::from(ErrorKind::NotFound)
}

// Whether a path leads to what this program was started with: a pipe there is somebody's output.
fn is_given(path: &str) -> bool {
    path == "/dev/stdin" || path.starts_with("/dev/fd/")
}

// Whether what was found under the path is read: a file, or a pipe that the program was started with.
fn is_read(path: &str, found: &Metadata) -> bool {
    found.is_file() || found.file_type().is_fifo() && is_given(path)
}

// Opens the file under the path, to be read. A FIFO, a device and a folder are refused before they are opened: the
// opening of a FIFO would wait for who writes it.
fn open_to_read(rt: HostRuntime, path: &str) -> io::Result<File> {
    let found = fs::metadata(&rt, path)?;
    if found.is_dir() {
        return Err(io::Error::new(ErrorKind::IsADirectory, "Is a directory"));
    }
    if !is_read(path, &found) {
        return Err(io::Error::new(ErrorKind::Unsupported, "Is no regular file"));
    }
    fs::open(&rt, path)
}

// At most so many bytes from the front of the file under the path.
fn read_front(rt: HostRuntime, alloc: Global, path: &str, most: u64) -> io::Result<Vec<u8>> {
    let mut bytes = Vec::new(alloc);
    open_to_read(rt, path)?.take(most).read_to_end(&mut bytes)?;
    Ok(bytes)
}

/// The files of the system. It does not tell what they have.
///
/// Reading stops one byte behind the limit. A FIFO or a device that is to be read is a fault, and is not waited for,
/// but for a pipe under `/dev/stdin` or `/dev/fd/`. A file that is opened is made where it is missing, with its folders.
/// Nothing is kept of a file that was shut.
#[derive(Drop)]
pub struct RealStore {
    rt: HostRuntime,
    opened: OpenFiles,
    faults: u64,
    long: u64,
    why: Reason,
}

impl RealStore {
    /// The files of this system.
    pub fn new(rt: HostRuntime) -> RealStore
        ensures opened { result.opened.files.entries ≡ [] }
        ensures faults { result.faults ≡ 0 }
        ensures long { result.long ≡ 0 }
    {
        RealStore {
            rt,
            opened: OpenFiles {
                files: BTreeMap::new(rt.alloc()),
                next: 0,
            },
            faults: 0,
            long: 0,
            why: Reason::new(),
        }
    }

    /// How often it failed.
    pub fn faults(&self) -> u64
        ensures { result ≡ self.now.faults }
    {
        self.faults
    }

    // Counts a fault at the path, and keeps what the system said.
    fn fail(&mut self, path: &str, error: &io::Error) -> Failed
        ensures counted { self.new ≡ record self.old { faults = self.new.faults; why = self.new.why } }
        ensures rose { Rose self.old.faults self.new.faults }
        ensures kept { self.old.faults ≤ self.new.faults }
    {
        tell(&mut self.why, path.as_bytes(), error);
        self.faults = self.faults.saturating_add(1);
        Failed
    }

    // The same at a file that was opened.
    fn fail_at(&mut self, file: FileNo, error: &io::Error) -> Failed
        ensures counted { self.new ≡ record self.old { faults = self.new.faults; why = self.new.why } }
        ensures rose { Rose self.old.faults self.new.faults }
        ensures kept { self.old.faults ≤ self.new.faults }
    {
        tell(&mut self.why, self.opened.path(file), error);
        self.faults = self.faults.saturating_add(1);
        Failed
    }

    /// How often a file was too long to be read.
    pub fn long(&self) -> u64
        ensures { result ≡ self.now.long }
    {
        self.long
    }
}

impl Store for RealStore {
    ghost use Rattle.std.specs.Prelude.{None};

    ghost tells = { λ s. record {
      faults = s.faults;
      long = s.long;
      next = s.opened.next;
      paths = s.opened.files.entries;
      opened = None;
      files = None;
      flushed = None;
    } };

    fn read_file(&mut self, alloc: Global, path: &str, limit: u64) -> FileRead {
        match read_front(self.rt, alloc, path, limit.saturating_add(1)) {
            Ok(bytes) if bytes.len() as u64 <= limit => FileRead::Bytes(bytes),
            Ok(_) => {
                self.long = self.long.saturating_add(1);
                FileRead::TooLong
            }
            Err(error) if error.kind() == ErrorKind::OutOfMemory => FileRead::OutOfMemory,
            Err(error) => {
                self.fail(path, &error);
                FileRead::Failed
            }
        }
    }

    fn append_to(&mut self, path: &str) -> Result<FileNo, Failed> {
        match self.opened.open(self.rt, path) {
            Ok(number) => Ok(number),
            Err(error) => Err(self.fail(path, &error)),
        }
    }

    fn empty(&mut self, file: FileNo) -> Result<(), Failed> {
        match self.opened.empty(file) {
            Ok(()) => Ok(()),
            Err(error) => Err(self.fail_at(file, &error)),
        }
    }

    fn write(&mut self, file: FileNo, piece: &[u8]) -> Put {
        match self.opened.write(file, piece) {
            Ok(n) => Put::Took(n),
            Err(error) => {
                self.fail_at(file, &error);
                Put::Failed
            }
        }
    }

    fn flush(&mut self, file: FileNo) -> Result<(), Failed> {
        match self.opened.flush(file) {
            Ok(()) => Ok(()),
            Err(error) => Err(self.fail_at(file, &error)),
        }
    }

    fn shut(&mut self, file: FileNo) -> Result<(), Failed> {
        self.opened.files.remove(&file.0);
        Ok(())
    }
}

impl Reasons for RealStore {
    fn reason(&self) -> &[u8] {
        self.why.as_slice()
    }
}
