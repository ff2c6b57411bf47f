//! A store in memory, which fails at chosen calls.
ghost use Rattle.std.specs.Prelude.{◌≡◌, ◌<◌, ◌≤◌, ◌++◌, ◌∷◌, [], bytes_eq, length, vec_len};
ghost use Rattle.std.specs.Prelude.{vec_capacity, IfOk, OnOk, OnErr, is_ok, if◌then◌else◌};
ghost use Rattle.ldm_outside_memory.specs.Memory.{with_most};
ghost use Rattle.ldm_outside.specs.Numbered.{with_number};
ghost use Rattle.ldm_outside.specs.Store.{with_made, with_changed};
ghost use Rattle.ldm_outside_memory.specs.MemStore.{place_under, first_store, ReadsFiles};

use crate::calls::Calls;
use ldm_outside::{Failed, FileNo, FileRead, Put, Reasons, Store};
use std::alloc::{AllocError, Global};
use std::collections::BTreeMap;
use std::marker::Model;

/// A file in memory.
#[derive(Drop)]
pub struct MemFile {
    path: String,
    bytes: Vec<u8>,
}

impl Model for MemFile {
    ghost use Rattle.std.specs.Prelude.{string_bytes};
    ghost use Rattle.ldm_outside.specs.Store.{File};

    ghost Value = { File };

    ghost view = { λ s. record { path = string_bytes s.path; bytes = s.bytes.items } };
}

impl MemFile {
    ghost use Rattle.std.specs.Prelude.{string_bytes};

    /// A file of these bytes under this path.
    pub fn new(path: String, bytes: Vec<u8>) -> MemFile
        ensures { result ≡ record { path = string_bytes path; bytes = bytes.items } }
    {
        MemFile { path, bytes }
    }

    /// The path.
    pub fn path(&self) -> &str
        ensures { result.now ≡ self.now.path }
    {
        self.path.as_str()
    }

    /// The bytes.
    pub fn bytes(&self) -> &[u8]
        ensures { result.now ≡ self.now.bytes }
    {
        self.bytes.as_slice()
    }

    // Whether it stands under the path.
    fn is_under(&self, path: &str) -> bool
        ensures { result ≡ bytes_eq self.now.path path.now }
    {
        self.path.as_str() == path
    }

    fn append(&mut self, bytes: &[u8]) -> Result<(), AllocError>
        ensures { self.new ≡ (if is_ok result then record self.old { bytes = self.old.bytes ++ bytes.now } else
            self.old) }
    {
        self.bytes.extend_from_slice(bytes)
    }

    fn empty(&mut self)
        ensures { self.new ≡ record self.old { bytes = [] } }
    {
        self.bytes.clear();
    }
}

// The first file under the path.
fn find(files: &[MemFile], path: &str) -> Option<usize>
    ensures { result ≡ place_under path.now files.now }
{
    files.iter().position(|file| file.is_under(path))
}

// Adds the bytes to the file under the path.
fn append(files: &mut Vec<MemFile>, path: &str, bytes: &[u8]) -> Result<(), AllocError>
    ensures appended { OnOk result
        (files.new.items ≡ with_changed path.now (λ before. before ++ bytes.now) files.old.items) }
    ensures kept { OnErr result (files.new.items ≡ files.old.items) }
{
    match find(files, path) {
        Some(at) => files[at].append(bytes),
        None => Ok(()),
    }
}

// Takes all bytes out of the file under the path.
fn empty(files: &mut Vec<MemFile>, path: &str)
    ensures { files.new.items ≡ with_changed path.now (λ _. []) files.old.items }
{
    match find(files, path) {
        Some(at) => files[at].empty(),
        None => {}
    }
}

// The path of a file.
#[derive(Drop)]
pub struct MemPath {
    text: String,
}

impl Model for MemPath {
    ghost use Rattle.std.specs.Prelude.{List, ℕ, string_bytes};

    ghost Value = { List ℕ };

    ghost view = { λ s. string_bytes s.text };
}

impl MemPath {
    fn new(alloc: Global, path: &str) -> Result<MemPath, AllocError>
        ensures { IfOk result (λ made. made ≡ path.now) }
    {
        Ok(MemPath {
            text: String::from_str(alloc, path)?,
        })
    }

    /// Its text.
    pub fn as_str(&self) -> &str
        ensures { result.now ≡ self.now }
    {
        self.text.as_str()
    }
}

// The files that are open, under their numbers, and the paths of all that were opened.
#[derive(Drop)]
struct Opened {
    now: BTreeMap<usize, MemPath>,
    ever: Vec<MemPath>,
}

impl Opened {
    // Notes that the file under the path was opened.
    fn add(&mut self, path: &str) -> Result<FileNo, AllocError>
        ensures number { IfOk result (λ file. file.0 ≡ length self.old.ever.items) }
        ensures now { OnOk result
            (self.new.now.entries ≡ with_number (length self.old.ever.items) path.now self.old.now.entries) }
        ensures ever { OnOk result (self.new.ever.items ≡ self.old.ever.items ++ path.now ∷ []) }
        ensures now_kept { OnErr result (self.new.now.entries ≡ self.old.now.entries) }
        ensures ever_kept { OnErr result (self.new.ever.items ≡ self.old.ever.items) }
    {
        let alloc = *self.ever.allocator();
        let number = self.ever.len();
        let now = MemPath::new(alloc, path)?;
        let ever = MemPath::new(alloc, path)?;
        self.ever.reserve(1)?;
        self.now.insert(number, now)?;
        self.ever.push_reserved(ever);
        Ok(FileNo(number))
    }
}

// Makes room for a file, and an empty one under the path.
fn new_file(files: &mut Vec<MemFile>, path: &str) -> Result<MemFile, AllocError>
    ensures made { IfOk result (λ file. file ≡ record { path = path.now; bytes = [] }) }
    ensures room { OnOk result (vec_len files.new < vec_capacity files.new) }
    ensures kept { files.new.items ≡ files.old.items }
{
    let alloc = *files.allocator();
    let path = String::from_str(alloc, path)?;
    files.reserve(1)?;
    Ok(MemFile::new(path, Vec::new(alloc)))
}

// Adds an empty file under the path, for which there is room, where there is none.
fn make(files: &mut Vec<MemFile>, path: &str, file: MemFile)
    requires empty { file ≡ record { path = path.now; bytes = [] } }
    requires room { vec_len files.old < vec_capacity files.old }
    ensures { files.new.items ≡ with_made path.now files.old.items }
{
    match find(files, path) {
        Some(_) => {}
        None => files.push_reserved(file),
    }
}

// Opens the file under the path, and makes it where there is none.
fn open(opened: &mut Opened, files: &mut Vec<MemFile>, path: &str) -> Result<FileNo, AllocError>
    ensures number { IfOk result (λ file. file.0 ≡ length opened.old.ever.items) }
    ensures now { OnOk result
        (opened.new.now.entries ≡ with_number (length opened.old.ever.items) path.now opened.old.now.entries) }
    ensures ever { OnOk result (opened.new.ever.items ≡ opened.old.ever.items ++ path.now ∷ []) }
    ensures made { OnOk result (files.new.items ≡ with_made path.now files.old.items) }
    ensures now_kept { OnErr result (opened.new.now.entries ≡ opened.old.now.entries) }
    ensures ever_kept { OnErr result (opened.new.ever.items ≡ opened.old.ever.items) }
    ensures files_kept { OnErr result (files.new.items ≡ files.old.items) }
{
    let file = new_file(files, path)?;
    let number = opened.add(path)?;
    make(files, path, file);
    Ok(number)
}

// All bytes under the path.
fn read(alloc: Global, files: &[MemFile], path: &str, limit: u64) -> FileRead
    ensures { ReadsFiles result path.now limit files.now }
{
    let Some(at) = find(files, path) else {
        return FileRead::Failed;
    };
    let bytes = files[at].bytes();
    if bytes.len() as u64 > limit {
        return FileRead::TooLong;
    }
    match Vec::from_slice(alloc, bytes) {
        Ok(bytes) => FileRead::Bytes(bytes),
        Err(_) => FileRead::OutOfMemory,
    }
}

/// A store in memory. Its calls are numbered from 1, and those of the numbers in a list fail.
///
/// Reading a file that it has not fails, and so does a call without memory for what it is to keep. A write takes as
/// much of the piece as the limit allows. Where two files are under one path the first counts.
#[derive(Drop)]
pub struct MemStore {
    files: Vec<MemFile>,
    opened: Opened,
    flushed: Vec<FileNo>,
    calls: Calls,
    long: u64,
}

impl Model for MemStore {
    ghost use Rattle.ldm_outside_memory.specs.MemStore.{StoreState};

    ghost Value = { StoreState };

    ghost view = { λ s. record {
      faults = s.calls.faults;
      long = s.long;
      paths = s.opened.now.entries;
      opened = s.opened.ever.items;
      files = s.files.items;
      flushed = s.flushed.items;
      plan = s.calls.plan;
    } };
}

impl MemStore {
    /// A store of these files, whose calls of the given numbers fail. The numbers are in any order.
    pub fn new(alloc: Global, files: Vec<MemFile>, failing: Vec<u64>) -> MemStore
        ensures { result ≡ first_store files.items failing.items }
    {
        MemStore {
            files,
            opened: Opened {
                now: BTreeMap::new(alloc),
                ever: Vec::new(alloc),
            },
            flushed: Vec::new(alloc),
            calls: Calls::new(failing),
            long: 0,
        }
    }

    /// From now on a write takes at most so many bytes, and at least one where there is one.
    pub fn limit_pieces(&mut self, most: usize)
        ensures { self.new ≡ record self.old { plan = with_most most self.old.plan } }
    {
        self.calls.limit_pieces(most);
    }

    /// All files, in the order in which they were made.
    pub fn files(&self) -> &[MemFile]
        ensures { result.now ≡ self.now.files }
    {
        self.files.as_slice()
    }

    /// The paths of all files that were ever opened, in order.
    pub fn opened(&self) -> &[MemPath]
        ensures { result.now ≡ self.now.opened }
    {
        self.opened.ever.as_slice()
    }

    /// The numbers of the files that were flushed, one for each call and in order.
    pub fn flushed(&self) -> &[FileNo]
        ensures { result.now ≡ self.now.flushed }
    {
        self.flushed.as_slice()
    }

    /// How often it failed.
    pub fn faults(&self) -> u64
        ensures { result ≡ self.now.faults }
    {
        self.calls.faults()
    }

    /// How often a file was too long to be read.
    pub fn long(&self) -> u64
        ensures { result ≡ self.now.long }
    {
        self.long
    }
}

impl Store for MemStore {
    ghost use Rattle.ldm_outside.specs.Store.{ReadsFile, OpensFile, IsOpen, EmptiesFile};
    ghost use Rattle.ldm_outside.specs.Store.{WritesFile, FlushesFile, ShutsFile};
    ghost use Rattle.ldm_outside_memory.specs.MemStore.{told_by_store, ReadsFileAsPlanned, OpensFileAsPlanned};
    ghost use Rattle.ldm_outside_memory.specs.MemStore.{EmptiesFileAsPlanned, WritesFileAsPlanned, ShutsFileAsPlanned};
    ghost use Rattle.ldm_outside_memory.specs.MemStore.{FlushesFileAsPlanned};

    ghost tells = { told_by_store };

    fn read_file(&mut self, alloc: Global, path: &str, limit: u64) -> FileRead
        ensures read { ReadsFile result path.now limit (told_by_store self.old) (told_by_store self.new) }
        ensures faults_kept { self.old.faults ≤ self.new.faults }
        ensures long_kept { self.old.long ≤ self.new.long }
        ensures paths_kept { self.new.paths ≡ self.old.paths }
        ensures planned { ReadsFileAsPlanned result path.now limit self.old self.new }
    {
        if self.calls.begin().is_err() {
            return FileRead::Failed;
        }
        let answer = read(alloc, &self.files, path, limit);
        match answer {
            FileRead::TooLong => self.long = self.long.saturating_add(1),
            FileRead::Failed => {
                self.calls.fail();
            }
            FileRead::Bytes(_) | FileRead::OutOfMemory => {}
        }
        answer
    }

    fn append_to(&mut self, path: &str) -> Result<FileNo, Failed>
        ensures opened { OpensFile result path.now (told_by_store self.old) (told_by_store self.new) }
        ensures faults_kept { self.old.faults ≤ self.new.faults }
        ensures planned { OpensFileAsPlanned result path.now self.old self.new }
    {
        self.calls.begin()?;
        match open(&mut self.opened, &mut self.files, path) {
            Ok(number) => Ok(number),
            Err(_) => Err(self.calls.fail()),
        }
    }

    fn empty(&mut self, file: FileNo) -> Result<(), Failed>
        requires { IsOpen file (told_by_store self.old) }
        ensures emptied { EmptiesFile result file (told_by_store self.old) (told_by_store self.new) }
        ensures faults_kept { self.old.faults ≤ self.new.faults }
        ensures paths_kept { self.new.paths ≡ self.old.paths }
        ensures planned { EmptiesFileAsPlanned result file self.old self.new }
    {
        self.calls.begin()?;
        if let Some(path) = self.opened.now.get(&file.0) {
            empty(&mut self.files, path.as_str());
        }
        Ok(())
    }

    fn write(&mut self, file: FileNo, piece: &[u8]) -> Put
        requires { IsOpen file (told_by_store self.old) }
        ensures written { WritesFile result file piece.now (told_by_store self.old) (told_by_store self.new) }
        ensures faults_kept { self.old.faults ≤ self.new.faults }
        ensures paths_kept { self.new.paths ≡ self.old.paths }
        ensures planned { WritesFileAsPlanned result file piece.now self.old self.new }
    {
        if self.calls.begin().is_err() {
            return Put::Failed;
        }
        let n = piece.len().min(self.calls.most());
        if let Some(path) = self.opened.now.get(&file.0)
            && append(&mut self.files, path.as_str(), &piece[..n]).is_err()
        {
            self.calls.fail();
            return Put::Failed;
        }
        Put::Took(n)
    }

    fn flush(&mut self, file: FileNo) -> Result<(), Failed>
        requires { IsOpen file (told_by_store self.old) }
        ensures flushed { FlushesFile result file (told_by_store self.old) (told_by_store self.new) }
        ensures faults_kept { self.old.faults ≤ self.new.faults }
        ensures paths_kept { self.new.paths ≡ self.old.paths }
        ensures planned { FlushesFileAsPlanned result file self.old self.new }
    {
        self.calls.begin()?;
        match self.flushed.push(file) {
            Ok(()) => Ok(()),
            Err(_) => Err(self.calls.fail()),
        }
    }

    fn shut(&mut self, file: FileNo) -> Result<(), Failed>
        requires { IsOpen file (told_by_store self.old) }
        ensures shut { ShutsFile result file (told_by_store self.old) (told_by_store self.new) }
        ensures faults_kept { self.old.faults ≤ self.new.faults }
        ensures planned { ShutsFileAsPlanned result file self.old self.new }
    {
        self.calls.begin()?;
        self.opened.now.remove(&file.0);
        Ok(())
    }
}

impl Reasons for MemStore {
    fn reason(&self) -> &[u8] {
        b"".as_slice()
    }
}
