//! Files that are kept open.
ghost use Rattle.std.specs.Prelude.{◌≡◌, ◌-◌, ◌<◌, [], IfSome, None, drop, if◌then◌else◌, length, take};
ghost use Rattle.ldm_outside.specs.Store.{IsOpen};
ghost use Rattle.ldm_actions.specs.Kept.{first_of, last_of, number_under};
ghost use Rattle.ldm_actions.specs.OpenFiles.{BeginsFile, KeepsFiles, KeepsOr, OpensAfter, ShutsGone, UsesFile};
ghost use Rattle.ldm_actions.specs.OpenFiles.{all_shut, file_no, file_side, flushed_in, shut_in, store_finished};

use crate::answers::Begun;
use crate::options::FileOptions;
use crate::recent::Recent;
use ldm_outside::{Failed, FileNo, Store};

// Shuts the file that was used longest ago, if there is one.
fn shut_oldest<F: Store>(files: &mut Recent, store: &mut F) -> Result<(), Failed>
    requires { KeepsFiles (file_side files.old (F.tells store.old)) }
    ensures { KeepsOr result (take (length files.old - 1) files.old) (shut_in (last_of files.old) (F.tells store.old))
        (file_side files.old (F.tells store.old))
        (file_side files.new (F.tells store.new)) }
{
    match files.take_oldest() {
        Some(number) => store.shut(FileNo(number)),
        None => Ok(()),
    }
}

// Shuts the file of that number, if there is one.
fn shut_gone<F: Store>(store: &mut F, gone: Option<usize>) -> Result<(), Failed>
    requires { IfSome gone (λ number. IsOpen (file_no number) (F.tells store.old)) }
    ensures { ShutsGone gone result (F.tells store.old) (F.tells store.new) }
{
    match gone {
        Some(number) => store.shut(FileNo(number)),
        None => Ok(()),
    }
}

// Opens the file of a path, after the file of that number was shut, if there is one.
fn open<F: Store>(store: &mut F, gone: Option<usize>, path: &str) -> Result<FileNo, Failed>
    requires { IfSome gone (λ number. IsOpen (file_no number) (F.tells store.old)) }
    ensures { OpensAfter result gone path.now (F.tells store.old) (F.tells store.new) }
{
    shut_gone(store, gone)?;
    store.append_to(path)
}

// Opens the file of a path that is not kept. Its entry is there before the first call, so want of memory opens no file
// and shuts none.
fn use_new<F: Store>(files: &mut Recent, store: &mut F, path: &str) -> Begun
    requires keeps { KeepsFiles (file_side files.old (F.tells store.old)) }
    requires unknown { number_under path.now files.old ≡ None }
    ensures { UsesFile result path.now (file_side files.old (F.tells store.old))
        (file_side files.new (F.tells store.new)) }
{
    let Ok(gone) = files.reserve(path) else {
        return Begun::OutOfMemory;
    };
    match open(store, gone, path) {
        Ok(file) => {
            files.set_number(path, file.0);
            Begun::Ready
        }
        Err(Failed) => Begun::StoreFault,
    }
}

// Has the file of a path open, as the one that was used last.
fn use_file<F: Store>(files: &mut Recent, store: &mut F, path: &str) -> Begun
    requires { KeepsFiles (file_side files.old (F.tells store.old)) }
    ensures { UsesFile result path.now (file_side files.old (F.tells store.old))
        (file_side files.new (F.tells store.new)) }
{
    if files.raise(path) {
        return Begun::Ready;
    }
    use_new(files, store, path)
}

/// Begins to write to the file of a path, which is then the one that was used last.
pub(crate) fn begin<F: Store>(
    files: &mut Recent,
    store: &mut F,
    path: &str,
    options: FileOptions,
) -> Begun
    requires { KeepsFiles (file_side files.old (F.tells store.old)) }
    ensures { BeginsFile result options.overwrite path.now
        (file_side files.old (F.tells store.old))
        (file_side files.new (F.tells store.new)) }
{
    match use_file(files, store, path) {
        Begun::Ready => {}
        refused => return refused,
    }
    if !options.overwrite {
        return Begun::Ready;
    }
    match store.empty(FileNo(files.newest())) {
        Ok(()) => Begun::Ready,
        Err(Failed) => Begun::StoreFault,
    }
}

// Shuts the file that was used last, if there is one.
fn shut_newest<F: Store>(files: &mut Recent, store: &mut F) -> Result<(), Failed>
    requires { KeepsFiles (file_side files.old (F.tells store.old)) }
    ensures { KeepsOr result (drop 1 files.old) (shut_in (first_of files.old) (F.tells store.old))
        (file_side files.old (F.tells store.old))
        (file_side files.new (F.tells store.new)) }
{
    match files.take_newest() {
        Some(number) => store.shut(FileNo(number)),
        None => Ok(()),
    }
}

// Hands to the system what was written to the file that was used last.
fn flush_newest<F: Store>(files: &Recent, store: &mut F) -> Result<(), Failed>
    requires keeps { KeepsFiles (file_side files.now (F.tells store.old)) }
    requires some { 0 < length files.now }
    ensures { KeepsOr result files.now (flushed_in (first_of files.now) (F.tells store.old))
        (file_side files.now (F.tells store.old))
        (file_side files.now (F.tells store.new)) }
{
    store.flush(FileNo(files.newest()))
}

/// Ends the writing to the file that was used last.
pub(crate) fn finish<F: Store>(
    files: &mut Recent,
    store: &mut F,
    flush: bool,
    close: bool,
) -> Result<(), Failed>
    requires keeps { KeepsFiles (file_side files.old (F.tells store.old)) }
    requires some { 0 < length files.old }
    ensures { KeepsOr result (if close then drop 1 files.old else files.old)
        (store_finished flush close files.old (F.tells store.old))
        (file_side files.old (F.tells store.old))
        (file_side files.new (F.tells store.new)) }
{
    if flush {
        flush_newest(files, store)?;
    }
    if close {
        return shut_newest(files, store);
    }
    Ok(())
}

/// Shuts all, from the one that was used longest ago to the one that was used last.
pub(crate) fn close_all<F: Store>(files: &mut Recent, store: &mut F) -> Result<(), Failed>
    requires { KeepsFiles (file_side files.old (F.tells store.old)) }
    ensures { KeepsOr result [] (all_shut files.old (F.tells store.old))
        (file_side files.old (F.tells store.old))
        (file_side files.new (F.tells store.new)) }
{
    while files.len() > 0 {
        shut_oldest(files, store)?;
    }
    Ok(())
}
