//! Files.

use ldm_drive::{
    Trial, append, bytes_in, copied, numbers, push, read, rewrite, tell_bytes, tell_count,
    tell_word, text_copied, turns,
};
use ldm_outside_memory::{MemFile, MemStore};

// A store with the file `old` of three bytes.
fn store_of(trial: &mut Trial, failing: Vec<u64>) -> MemStore {
    let path = text_copied(trial, "old");
    let bytes = copied(trial, b"abc");
    let mut files = Vec::new(trial.alloc());
    push(trial, &mut files, MemFile::new(path, bytes));
    MemStore::new(trial.alloc(), files, failing)
}

fn end_of_store(trial: &mut Trial, store: &MemStore) {
    tell_count(trial, "faults", store.faults());
    tell_count(trial, "long", store.long());
    tell_count(trial, "opened", store.opened().len() as u64);
    tell_word(trial, "files");
    for file in store.files() {
        tell_word(trial, file.path());
        tell_bytes(trial, file.bytes());
    }
}

/// `rewrite PATH FAILING`.
pub fn rewrite_file(trial: &mut Trial) {
    let path = trial.word();
    let failing = numbers(trial);
    let mut store = store_of(trial, failing);
    rewrite(trial, &mut store, path);
    end_of_store(trial, &store);
}

/// `read FAILING LIMIT PATH ..`: the file under each path.
pub fn read_files(trial: &mut Trial) {
    let failing = numbers(trial);
    let mut store = store_of(trial, failing);
    let limit = trial.number();
    for _ in 0..u64::MAX {
        if trial.is_done() {
            break;
        }
        let path = trial.word();
        read(trial, &mut store, path, limit);
    }
    end_of_store(trial, &store);
}

/// `append PATH MOST PIECE`: one write, of at most MOST bytes.
pub fn append_piece(trial: &mut Trial) {
    let path = trial.word();
    let never = Vec::new(trial.alloc());
    let mut store = store_of(trial, never);
    store.limit_pieces(trial.number() as usize);
    let piece = trial.word();
    append(trial, &mut store, path, bytes_in(piece));
    end_of_store(trial, &store);
}

/// `turns PATH COUNT`: the file is opened and shut so many times. The last number.
pub fn turn_file(trial: &mut Trial) {
    let path = trial.word();
    let never = Vec::new(trial.alloc());
    let mut store = store_of(trial, never);
    let count = trial.number();
    turns(trial, &mut store, path, count);
    end_of_store(trial, &store);
}
