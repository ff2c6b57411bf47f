//! A pqact.conf under its path.
ghost use Rattle.std.specs.Prelude.{◌≡◌, ◌≤◌, length};
ghost use Rattle.ldm_command_files.specs.PqactFiles.{CompletesEntries, TakesEntries, status_of_entries};
ghost use Rattle.ldm_command_files.specs.Texts.{ReadsEntries};

use crate::telling::{tell_long, tell_pqact};
use ldm_outside::{FileRead, Reason, Store};
use ldm_pqact_conf::{Entries, PqactFault, PqactKind, read_pqact};
use ldm_status::Status;
use ldm_text::LONGEST_CONFIGURATION;
use std::alloc::Global;

/// Why no entries were taken.
#[derive(Clone, Copy, Debug, PartialEq, Eq)]
pub enum EntriesNotTaken {
    /// The first faulty entry, of any kind but `OutOfMemory`.
    Bad(PqactFault),
    /// The file has more than [`LONGEST_CONFIGURATION`](ldm_text::LONGEST_CONFIGURATION) bytes, and the store's count
    /// of long files rose.
    TooLong,
    /// The file could not be read, and the store's count of faults rose.
    Store,
    /// There is no memory.
    OutOfMemory,
}

/// The entries of the pqact.conf under the path.
///
/// The store is as before, but for the count of faults that rose with `Store`, or the count of long files that rose
/// with `TooLong`. Where the store tells its files, each answer but want of memory is that of these files, unless the
/// store failed: see `CompletesEntries`. Where it answers `Bad` or `TooLong`, the reason tells the file, the line and
/// what is wrong with it, such as `etc/pqact.conf:7: no such action: IDS ^S FILLE data`.
pub fn take_entries<F: Store>(
    alloc: Global,
    store: &mut F,
    path: &str,
    why: &mut Reason,
) -> Result<Entries, EntriesNotTaken>
    ensures takes { TakesEntries result path.now (F.tells store.old) (F.tells store.new) }
    ensures completes { CompletesEntries result path.now (F.tells store.old) (F.tells store.new) }
    ensures faults_kept { (F.tells store.old).faults ≤ (F.tells store.new).faults }
    ensures long_kept { (F.tells store.old).long ≤ (F.tells store.new).long }
    ensures paths_kept { (F.tells store.new).paths ≡ (F.tells store.old).paths }
{
    match store.read_file(alloc, path, LONGEST_CONFIGURATION as u64) {
        FileRead::Bytes(bytes) => read_text(alloc, path, bytes.as_slice(), why),
        FileRead::TooLong => {
            tell_long(why, path);
            Err(EntriesNotTaken::TooLong)
        }
        FileRead::Failed => Err(EntriesNotTaken::Store),
        FileRead::OutOfMemory => Err(EntriesNotTaken::OutOfMemory),
    }
}

// The entries that the bytes of the file under the path mean.
fn read_text(
    alloc: Global,
    path: &str,
    bytes: &[u8],
    why: &mut Reason,
) -> Result<Entries, EntriesNotTaken>
    requires { length bytes.now ≤ LONGEST_CONFIGURATION }
    ensures { ReadsEntries result bytes.now }
{
    match read_pqact(alloc, bytes) {
        Ok(entries) => Ok(entries),
        Err(fault) => match fault.kind {
            PqactKind::OutOfMemory => Err(EntriesNotTaken::OutOfMemory),
            _ => {
                tell_pqact(why, path, bytes, &fault);
                Err(EntriesNotTaken::Bad(fault))
            }
        },
    }
}

/// The status of a command that took no entries.
pub fn status_of_entries(why: EntriesNotTaken) -> Status
    ensures { result ≡ status_of_entries why }
{
    match why {
        EntriesNotTaken::Bad(fault) => Status::BadPqact {
            line: fault.line,
            kind: u32::from(fault.kind.number()),
        },
        EntriesNotTaken::TooLong => Status::BadPqact { line: 0, kind: 0 },
        EntriesNotTaken::Store => Status::StoreFault,
        EntriesNotTaken::OutOfMemory => Status::NoMemory,
    }
}
