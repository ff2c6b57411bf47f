//! Files.
ghost use Rattle.std.specs.Prelude.{IfOk};
ghost use Rattle.ldm_outside.specs.Store.{IsOpen};

use crate::Trial;
use crate::words::{tell_bytes, tell_count, tell_word};
use ldm_outside::{Failed, FileNo, FileRead, Put, Store};

// Opens a file.
fn open<F: Store>(store: &mut F, path: &str) -> Result<FileNo, Failed>
    ensures { IfOk result (λ file. IsOpen file (F.tells store.new)) }
{
    store.append_to(path)
}

// Writes to a file, which stays open.
fn write<F: Store>(store: &mut F, file: FileNo, piece: &[u8]) -> Put
    requires { IsOpen file (F.tells store.old) }
    ensures { IsOpen file (F.tells store.new) }
{
    store.write(file, piece)
}

// Empties a file, which stays open.
fn empty<F: Store>(store: &mut F, file: FileNo) -> Result<(), Failed>
    requires { IsOpen file (F.tells store.old) }
    ensures { IsOpen file (F.tells store.new) }
{
    store.empty(file)
}

// Flushes a file and shuts it: the number of the call that failed, or 0.
fn end<F: Store>(store: &mut F, file: FileNo) -> u64
    requires { IsOpen file (F.tells store.old) }
{
    if store.flush(file).is_err() {
        return 5;
    }
    if store.shut(file).is_err() {
        return 6;
    }
    0
}

// Opens a file, writes `ab`, empties it, writes `cd`, flushes and shuts it: the number of the call that failed, or 0.
fn rewrite_one<F: Store>(store: &mut F, path: &str) -> u64 {
    let Ok(file) = open(store, path) else {
        return 1;
    };
    if write(store, file, b"ab") == Put::Failed {
        return 2;
    }
    if empty(store, file).is_err() {
        return 3;
    }
    if write(store, file, b"cd") == Put::Failed {
        return 4;
    }
    end(store, file)
}

/// Opens a file, writes `ab`, empties it, writes `cd`, flushes and shuts it: `at` is the number of the call that
/// failed, or 0.
pub fn rewrite<F: Store>(trial: &mut Trial, store: &mut F, path: &str) {
    tell_count(trial, "at", rewrite_one(store, path));
}

/// One call of `read_file`.
pub fn read<F: Store>(trial: &mut Trial, store: &mut F, path: &str, limit: u64) {
    match store.read_file(trial.alloc(), path, limit) {
        FileRead::Bytes(bytes) => tell_bytes(trial, &bytes),
        FileRead::TooLong => tell_word(trial, "too_long"),
        FileRead::Failed => tell_word(trial, "failed"),
        FileRead::OutOfMemory => trial.lack_memory(),
    }
}

// Opens a file and writes a piece once.
fn append_one<F: Store>(store: &mut F, path: &str, piece: &[u8]) -> Put {
    match open(store, path) {
        Ok(file) => write(store, file, piece),
        Err(_) => Put::Failed,
    }
}

/// Opens a file and writes a piece once.
pub fn append<F: Store>(trial: &mut Trial, store: &mut F, path: &str, piece: &[u8]) {
    match append_one(store, path, piece) {
        Put::Took(n) => tell_count(trial, "took", n as u64),
        Put::Failed => tell_word(trial, "failed"),
    }
}

// Opens a file and shuts it: its number.
fn turn<F: Store>(store: &mut F, path: &str) -> Option<u64> {
    let file = open(store, path).ok()?;
    store.shut(file).ok()?;
    Some(file.0 as u64)
}

/// Opens a file and shuts it, so many times: the last number.
pub fn turns<F: Store>(trial: &mut Trial, store: &mut F, path: &str, count: u64) {
    let mut last = 0;
    for _ in 0..count {
        match turn(store, path) {
            Some(file) => last = file,
            None => trial.refuse("a turn failed"),
        }
    }
    tell_count(trial, "last", last);
}
