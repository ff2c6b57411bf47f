//! Files of the system, in a folder of their own.

use ldm_adapters::RealStore;
use ldm_drive::{Trial, append, bytes_in, read, rewrite, tell_count, turns};
use std::rt::HostRuntime;
use std::{env, fs, io, process};

// The path of a name in a folder that no other run uses.
fn path_in(rt: HostRuntime, name: &str) -> Option<String> {
    let temporary = env::temp_dir(&rt).ok()?;
    let id = process::id(rt.process());
    format!(in rt.alloc();
        "{}/drive_outside_{id}/{name}",
        temporary.as_path().display()
    )
    .ok()
}

fn path_of(rt: HostRuntime, trial: &mut Trial, name: &str) -> String {
    match path_in(rt, name) {
        Some(path) => path,
        None => {
            trial.lack_memory();
            String::new(rt.alloc())
        }
    }
}

/// The path of the name in the next word.
pub fn next_path(rt: HostRuntime, trial: &mut Trial) -> String {
    let name = trial.word();
    path_of(rt, trial, name)
}

/// `disk rewrite NAME`, `disk read LIMIT NAME ..`, `disk append NAME PIECE`, `disk folder NAME`, `disk turns NAME
/// COUNT`, `disk long COUNT` for a name of so many bytes, `disk forget`.
pub fn disk(rt: HostRuntime, trial: &mut Trial) {
    let mut store = RealStore::new(rt);
    match trial.word() {
        "rewrite" => {
            let path = next_path(rt, trial);
            rewrite(trial, &mut store, path.as_str());
        }
        "read" => read_files(rt, trial, &mut store),
        "append" => {
            let path = next_path(rt, trial);
            let piece = trial.word();
            append(trial, &mut store, path.as_str(), bytes_in(piece));
        }
        "turns" => {
            let path = next_path(rt, trial);
            let count = trial.number();
            turns(trial, &mut store, path.as_str(), count);
        }
        "long" => append_long(rt, trial, &mut store),
        "folder" => {
            let path = next_path(rt, trial);
            expect_done(trial, &fs::create_dir_all(&rt, path.as_str()));
        }
        "forget" => {
            let path = path_of(rt, trial, "");
            expect_done(trial, &fs::remove_dir_all(&rt, path.as_str()));
        }
        _ => trial.refuse("no such word"),
    }
    tell_count(trial, "faults", store.faults());
    tell_count(trial, "long", store.long());
}

// Refuses the case where the system failed.
fn expect_done(trial: &mut Trial, done: &io::Result<()>) {
    if done.is_err() {
        trial.refuse("the system failed");
    }
}

fn read_files(rt: HostRuntime, trial: &mut Trial, store: &mut RealStore) {
    let limit = trial.number();
    for _ in 0..u64::MAX {
        if trial.is_done() {
            break;
        }
        let path = next_path(rt, trial);
        read(trial, store, path.as_str(), limit);
    }
}

// A file whose name has so many bytes.
fn append_long(rt: HostRuntime, trial: &mut Trial, store: &mut RealStore) {
    let mut path = path_of(rt, trial, "");
    for _ in 0..trial.number() {
        if path.push_str("x").is_err() {
            trial.lack_memory();
        }
    }
    append(trial, store, path.as_str(), b"ab");
}
