//! A file of the system as a disk, in the folder of the run.

use crate::disk::next_path;
use ldm_adapters::RealDisk;
use ldm_disk::Disk;
use ldm_drive::{Trial, tell_bytes, tell_count, tell_got, tell_word};
use ldm_outside::{Failed, Got};
use std::rt::HostRuntime;

/// `file attach NAME`: a file is attached. `file run NAME`: it is written, cut, synced, and read. `file twice NAME`:
/// it is attached by one disk, by another beside it, and by the other once the first let it go. `file none`: each call
/// without a file. `file device`: a device of the system is attached.
pub fn file(rt: HostRuntime, trial: &mut Trial) {
    let mut disk = RealDisk::new(rt);
    match trial.word() {
        "attach" => {
            let path = next_path(rt, trial);
            attach(trial, &mut disk, path.as_str());
        }
        "run" => {
            let path = next_path(rt, trial);
            attach(trial, &mut disk, path.as_str());
            write(trial, &mut disk);
            read(trial, &mut disk);
        }
        "twice" => twice(rt, trial),
        "none" => {
            write(trial, &mut disk);
            read(trial, &mut disk);
        }
        "device" => attach(trial, &mut disk, "/dev/null"),
        _ => trial.refuse("no such word"),
    }
    tell_count(trial, "faults", disk.faults());
}

// Tells whether a call was done.
fn tell(trial: &mut Trial, done: Result<(), Failed>) {
    tell_word(trial, if done.is_ok() { "ok" } else { "failed" });
}

/// Attaches a file, and tells whether that was done.
pub(crate) fn attach<D: Disk>(trial: &mut Trial, disk: &mut D, path: &str) {
    tell(trial, disk.attach(path));
}

// Writes `abcde` at 0, `xyz` at 3 and nothing at 8, cuts all to 5, and syncs.
fn write<D: Disk>(trial: &mut Trial, disk: &mut D) {
    tell(trial, disk.write_at(0, b"abcde"));
    tell(trial, disk.write_at(3, b"xyz"));
    tell(trial, disk.write_at(8, b""));
    tell(trial, disk.cut(5));
    tell(trial, disk.sync());
}

// Tells the length, and reads within the file, at its end, past it, and no bytes.
fn read<D: Disk>(trial: &mut Trial, disk: &mut D) {
    match disk.len() {
        Ok(len) => tell_count(trial, "len", len),
        Err(Failed) => tell_word(trial, "failed"),
    }
    read_at(trial, disk, 0);
    read_at(trial, disk, 4);
    read_at(trial, disk, 5);
    read_at(trial, disk, 9);
    tell_got(trial, disk.read(0, &mut []));
}

// One read at a place, with room for eight bytes.
fn read_at<D: Disk>(trial: &mut Trial, disk: &mut D, at: u64) {
    let mut into = [0; 8];
    match disk.read(at, &mut into) {
        Got::Bytes(n) => tell_bytes(trial, &into[..n]),
        got => tell_got(trial, got),
    }
}

// Two disks and one file.
fn twice(rt: HostRuntime, trial: &mut Trial) {
    let path = next_path(rt, trial);
    let mut other = RealDisk::new(rt);
    {
        let mut first = RealDisk::new(rt);
        attach(trial, &mut first, path.as_str());
        attach(trial, &mut other, path.as_str());
        // again by the disk that has it
        attach(trial, &mut first, path.as_str());
    }
    attach(trial, &mut other, path.as_str());
}
