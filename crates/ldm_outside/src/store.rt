//! Files: read whole up to a limit, or opened once and then written at their end.
ghost use Rattle.std.specs.Prelude.{◌≡◌, ◌≤◌};
ghost use Rattle.ldm_outside.specs.Store.{StoreRecord};

use crate::fault::Failed;
use crate::io::Put;
use std::alloc::Global;

/// A file that a store opened: how many it had opened before. No number comes twice.
#[derive(Clone, Copy, Debug, PartialEq, Eq)]
pub struct FileNo(pub usize);

/// What reading a whole file gave.
#[derive(Debug, PartialEq, Eq, Drop)]
pub enum FileRead {
    /// All bytes of the file.
    Bytes(Vec<u8>),
    /// Nothing: the file is above the limit, and the count of long files rose.
    TooLong,
    /// Nothing: there is no such file or the store failed, and its count of faults rose.
    Failed,
    /// Nothing: no memory for the bytes.
    OutOfMemory,
}

/// Files under paths.
///
/// A call that answers `Failed` changed nothing but the count of faults: a write took nothing, a file that was not to
/// be shut is not shut, and the caller may try again.
pub trait Store {
    ghost use Rattle.ldm_outside.specs.Store.{ReadsFile, OpensFile, IsOpen, EmptiesFile};
    ghost use Rattle.ldm_outside.specs.Store.{WritesFile, FlushesFile, ShutsFile};

    /// What it tells: the files that are open now, with their numbers and paths, and the number that comes next; how
    /// often it failed and found a file too long; and if it tells these, all files that it ever opened, all that there
    /// are, and its calls of `flush` that went well. A count stands still at the end of `u64`.
    ghost tells: { Self → StoreRecord };

    /// Reads the file under the path, which may have so many bytes at most.
    fn read_file(&mut self, alloc: Global, path: &str, limit: u64) -> FileRead
        ensures read { ReadsFile result path.now limit (tells self.old) (tells self.new) }
        ensures faults_kept { (tells self.old).faults ≤ (tells self.new).faults }
        ensures long_kept { (tells self.old).long ≤ (tells self.new).long }
        ensures paths_kept { (tells self.new).paths ≡ (tells self.old).paths };

    /// Opens the file under the path, to be written at its end. It makes the file and its folders where they are
    /// missing.
    fn append_to(&mut self, path: &str) -> Result<FileNo, Failed>
        ensures opened { OpensFile result path.now (tells self.old) (tells self.new) }
        ensures faults_kept { (tells self.old).faults ≤ (tells self.new).faults };

    /// Takes all bytes out of the file.
    fn empty(&mut self, file: FileNo) -> Result<(), Failed>
        requires { IsOpen file (tells self.old) }
        ensures emptied { EmptiesFile result file (tells self.old) (tells self.new) }
        ensures faults_kept { (tells self.old).faults ≤ (tells self.new).faults }
        ensures paths_kept { (tells self.new).paths ≡ (tells self.old).paths };

    /// Writes some bytes from the front of the piece at the end of the file: what is left of it is the caller's to
    /// write.
    fn write(&mut self, file: FileNo, piece: &[u8]) -> Put
        requires { IsOpen file (tells self.old) }
        ensures written { WritesFile result file piece.now (tells self.old) (tells self.new) }
        ensures faults_kept { (tells self.old).faults ≤ (tells self.new).faults }
        ensures paths_kept { (tells self.new).paths ≡ (tells self.old).paths };

    /// Hands all that was written to the system.
    fn flush(&mut self, file: FileNo) -> Result<(), Failed>
        requires { IsOpen file (tells self.old) }
        ensures flushed { FlushesFile result file (tells self.old) (tells self.new) }
        ensures faults_kept { (tells self.old).faults ≤ (tells self.new).faults }
        ensures paths_kept { (tells self.new).paths ≡ (tells self.old).paths };

    /// Shuts the file: its number is spent.
    fn shut(&mut self, file: FileNo) -> Result<(), Failed>
        requires { IsOpen file (tells self.old) }
        ensures shut { ShutsFile result file (tells self.old) (tells self.new) }
        ensures faults_kept { (tells self.old).faults ≤ (tells self.new).faults };
}
