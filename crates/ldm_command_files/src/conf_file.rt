//! An ldmd.conf under its path.
ghost use Rattle.std.specs.Prelude.{◌≡◌, ◌≤◌, length};
ghost use Rattle.ldm_conf.specs.Causes.{ReadsConf, first_too_long};
ghost use Rattle.ldm_command_files.specs.ConfFiles.{CompletesConf, TakesConf, status_of_conf};
ghost use Rattle.ldm_command_files.specs.Texts.{ReadsText, not_taken};

use crate::included::{IncludedFiles, Lender, Lent, Noting};
use crate::telling::{tell_conf, tell_long};
use ldm_conf::{Conf, ConfFault, ConfKind, read_conf};
use ldm_outside::{FileRead, Reason, Store};
use ldm_status::Status;
use ldm_text::LONGEST_CONFIGURATION;
use std::alloc::Global;
use std::marker::Brand;

/// Why no configuration was taken.
#[derive(Clone, Copy, Debug, PartialEq, Eq)]
pub enum ConfNotTaken {
    /// The first faulty line, of any kind but `Store` and `OutOfMemory`. A first file above
    /// [`LONGEST_CONFIGURATION`](ldm_text::LONGEST_CONFIGURATION) bytes is `Long` at file 0, line 0.
    Bad(ConfFault),
    /// The file, or one that it includes, could not be read, and the store's count of faults rose.
    Store,
    /// There is no memory.
    OutOfMemory,
}

/// The configuration that the file under the path means, with the files of the store that it includes.
///
/// The store is as before, but for the count of faults that rose with `Store`, or the count of long files that rose
/// with `Long`. Where the store tells its files, each answer but want of memory is that of these files, unless the
/// store failed: see `CompletesConf`.
pub fn take_conf<F: Store>(alloc: Global, store: &mut F, path: &str) -> Result<Conf, ConfNotTaken>
    ensures takes { TakesConf result path.now (F.tells store.old) (F.tells store.new) }
    ensures completes { CompletesConf result path.now (F.tells store.old) (F.tells store.new) }
    ensures faults_kept { (F.tells store.old).faults ≤ (F.tells store.new).faults }
    ensures long_kept { (F.tells store.old).long ≤ (F.tells store.new).long }
    ensures paths_kept { (F.tells store.new).paths ≡ (F.tells store.old).paths }
{
    let mut why = Reason::new();
    take_conf_because(alloc, store, path, &mut why)
}

/// Takes the configuration as [`take_conf`] does. Where it answers `Bad`, the reason tells the file, the line and what
/// is wrong with it, such as `etc/ldmd.conf:12: no such feedtype: ALLOW NEXRAD9 ^.*`.
pub fn take_conf_because<F: Store>(
    alloc: Global,
    store: &mut F,
    path: &str,
    why: &mut Reason,
) -> Result<Conf, ConfNotTaken>
    ensures takes { TakesConf result path.now (F.tells store.old) (F.tells store.new) }
    ensures completes { CompletesConf result path.now (F.tells store.old) (F.tells store.new) }
    ensures faults_kept { (F.tells store.old).faults ≤ (F.tells store.new).faults }
    ensures long_kept { (F.tells store.old).long ≤ (F.tells store.new).long }
    ensures paths_kept { (F.tells store.new).paths ≡ (F.tells store.old).paths }
{
    match store.read_file(alloc, path, LONGEST_CONFIGURATION as u64) {
        FileRead::Bytes(bytes) => read_text(alloc, store, path, bytes.as_slice(), why),
        FileRead::TooLong => {
            tell_long(why, path);
            Err(ConfNotTaken::Bad(first_too_long()))
        }
        FileRead::Failed => Err(ConfNotTaken::Store),
        FileRead::OutOfMemory => Err(ConfNotTaken::OutOfMemory),
    }
}

// The configuration that the bytes of the file under the path mean.
fn read_text<F: Store>(
    alloc: Global,
    store: &mut F,
    path: &str,
    bytes: &[u8],
    why: &mut Reason,
) -> Result<Conf, ConfNotTaken>
    requires { length bytes.now ≤ LONGEST_CONFIGURATION }
    ensures reads { ReadsText result bytes.now (F.tells store.old) (F.tells store.new) }
{
    let mut included = IncludedFiles::new(alloc);
    let Noted { lent, conf } = read_noting::<F, Brand>(alloc, bytes, Lent { store }, &mut included);
    let Lent { store: _store } = lent;
    match conf {
        Ok(conf) => Ok(conf),
        Err(fault) => {
            tell_conf(why, path, bytes, &included, &fault);
            Err(not_taken(fault))
        }
    }
}

// A configuration that was read, and the store that was lent for it.
#[derive(Drop)]
struct Noted<'a, F> {
    lent: Lent<'a, F>,
    conf: Result<Conf, ConfFault>,
}

// The configuration that the bytes of a first file mean. The files that it includes are noted.
fn read_noting<'a, F: Store, B: Lender>(
    alloc: Global,
    bytes: &[u8],
    lent: Lent<'a, F>,
    included: &mut IncludedFiles,
) -> Noted<'a, F>
    requires length { length bytes.now ≤ LONGEST_CONFIGURATION }
    requires lender { B.name ≡ lent.store.ghost_name }
    ensures lender { result.lent.store.ghost_name ≡ lent.entry.store.ghost_name }
    ensures reads { ReadsConf result.conf bytes.now (F.tells lent.entry.store.now) (F.tells result.lent.store.now) }
{
    let mut noting = Noting::<'_, '_, F, B>::over(lent, included);
    let conf = read_conf(alloc, bytes, &mut noting);
    Noted {
        lent: noting.into_lent(),
        conf,
    }
}

// Why no configuration was taken, by the fault of the lines.
fn not_taken(fault: ConfFault) -> ConfNotTaken
    ensures { result ≡ not_taken fault }
{
    match fault.kind {
        ConfKind::Store => ConfNotTaken::Store,
        ConfKind::OutOfMemory => ConfNotTaken::OutOfMemory,
        _ => ConfNotTaken::Bad(fault),
    }
}

// The fault of a first file that is too long.
fn first_too_long() -> ConfFault
    ensures { result ≡ first_too_long }
{
    ConfFault {
        file: 0,
        line: 0,
        kind: ConfKind::Long,
    }
}

/// The status of a command that took no configuration.
pub fn status_of_conf(why: ConfNotTaken) -> Status
    ensures { result ≡ status_of_conf why }
{
    match why {
        ConfNotTaken::Bad(fault) => Status::BadConf {
            file: fault.file,
            line: fault.line,
            kind: u32::from(fault.kind.number()),
        },
        ConfNotTaken::Store => Status::StoreFault,
        ConfNotTaken::OutOfMemory => Status::NoMemory,
    }
}
