//! Disks: one file, read and written at places, of which a sync keeps what was written.
ghost use Rattle.std.specs.Prelude.{◌≡◌, ◌≤◌, length, IfSome};
ghost use Rattle.ldm_disk.specs.Told.{DiskRecord, IsConsistent};

use ldm_outside::{Failed, Got};

/// A file that is read and written at places.
///
/// Between two syncs a crash may leave any bytes where something was written and past the old end, and the old length
/// or the new one. A call that failed may have been done in part: a write from the first byte of the piece on, a cut
/// as a whole. After an `attach` or a `sync` that failed, the file may read as any that a crash might have left.
pub trait Disk {
    ghost use Rattle.ldm_disk.specs.Calls.{FileChanges, KeepsFile, Attaches, LenGives, ReadGives};
    ghost use Rattle.ldm_disk.specs.Calls.{WritesFile, CutsFile, SyncsFile, Rises, KeepsDisk};

    /// What it tells: how often it failed, whether a file is attached, and of the file, if it tells this: its bytes,
    /// which moment it is, and what a crash may leave now, or may have left since a moment. A count stands still at
    /// the end of `u64`.
    ghost tells: { Self → DiskRecord };

    /// Attaches the file under the path, and makes it where it is missing. Nothing is pending then.
    ///
    /// A disk that tells its file has one, whatever the path. To attach it again is the way on after a call that
    /// failed.
    fn attach(&mut self, path: &str) -> Result<(), Failed>
        ensures attached { Attaches result (tells self.old) (tells self.new) }
        ensures failed { Rises result (tells self.old) (tells self.new) };

    /// The length of the file in bytes.
    fn len(&mut self) -> Result<u64, Failed>
        ensures given { LenGives result (tells self.old) (tells self.new) }
        ensures file { FileChanges KeepsFile (tells self.old).file (tells self.new).file }
        ensures kept { KeepsDisk (tells self.old) (tells self.new) };

    /// Reads some bytes at a place into the front of the buffer. [`Got::End`] comes exactly where the place is the end
    /// of the file or past it, and the buffer is not empty.
    ///
    /// The buffer behind the bytes that came, and all of it where none came, may hold anything.
    fn read(&mut self, at: u64, into: &mut [u8]) -> Got
        ensures given { ReadGives result at into.new (tells self.old) (tells self.new) }
        ensures file { FileChanges KeepsFile (tells self.old).file (tells self.new).file }
        ensures kept { KeepsDisk (tells self.old) (tells self.new) };

    /// Writes the whole piece at a place. Zeros fill what lies between the end of the file and the place; an empty
    /// piece changes nothing.
    fn write_at(&mut self, at: u64, piece: &[u8]) -> Result<(), Failed>
        ensures written { FileChanges (WritesFile result at piece.now) (tells self.old).file (tells self.new).file }
        ensures failed { Rises result (tells self.old) (tells self.new) }
        ensures kept { KeepsDisk (tells self.old) (tells self.new) };

    /// Cuts the file to a length, or fills it up with zeros to it.
    fn cut(&mut self, len: u64) -> Result<(), Failed>
        ensures cut { FileChanges (CutsFile result len) (tells self.old).file (tells self.new).file }
        ensures failed { Rises result (tells self.old) (tells self.new) }
        ensures kept { KeepsDisk (tells self.old) (tells self.new) };

    /// Brings what was written and cut to the disk: then a crash leaves the file as it reads.
    fn sync(&mut self) -> Result<(), Failed>
        ensures synced { FileChanges (SyncsFile result) (tells self.old).file (tells self.new).file }
        ensures failed { Rises result (tells self.old) (tells self.new) }
        ensures kept { KeepsDisk (tells self.old) (tells self.new) };

    /// The file as it reads is one that a crash now may leave, and this moment is the last.
    ghost consistent: { (disk : Self) → IfSome (tells disk).file IsConsistent };
}
