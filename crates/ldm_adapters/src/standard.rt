//! The standard streams that a program was started without.

use std::fs::{File, OpenOptions};
use std::io;
use std::os::fd::AsRawFd;
use std::rt::HostRuntime;

/// What keeps the numbers of the standard streams, where these were closed as the program began: else the next file or
/// socket that is opened would be one of them.
///
/// Each is `/dev/null` then, opened so that its use fails: standard input to be written, the others to be read.
#[derive(Drop)]
pub struct StandardStreams {
    _input: Option<File>,
    _output: Option<File>,
    _error: Option<File>,
}

impl StandardStreams {
    /// Has none of the three be closed. It is to be called before anything is opened.
    ///
    /// Where there is no `/dev/null` a closed stream stays so.
    pub fn hold(rt: HostRuntime) -> StandardStreams {
        StandardStreams {
            _input: held(rt, 0).ok().flatten(),
            _output: held(rt, 1).ok().flatten(),
            _error: held(rt, 2).ok().flatten(),
        }
    }
}

// What stands in for the standard stream of that number, where it is closed: what is opened has the lowest free number.
fn held(rt: HostRuntime, number: i32) -> io::Result<Option<File>> {
    let mut how = OpenOptions::new();
    if number == 0 {
        how.write(true);
    } else {
        how.read(true);
    }
    let file = how.open(&rt, "/dev/null")?;
    Ok(if file.as_raw_fd() == number {
        Some(file)
    } else {
        None
    })
}
