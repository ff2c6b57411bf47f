//! The end of the program's standard input, which stops a net that was told to.

use libc::STDIN_FILENO;
use libc::net::{POLLIN, poll};
use libc::types::pollfd;
use std::io::{ErrorKind, Read};
use std::rt::{Clock, HostRuntime};
use std::sync::atomic::{AtomicBool, AtomicU64, Ordering};
use std::time::Duration;

/// How often it is looked whether the program's standard input has ended, at most: once in so many milliseconds.
pub const LOOK_MILLISECONDS: u64 = 250;

/// How long a wait in the system lasts at most before it is looked, where a net stops with the input, in milliseconds.
pub const STEP_MILLISECONDS: u64 = 500;

// How many bytes of the input are passed over at a look.
const PASSED_OVER: usize = 4_096;

/// Whether the standard input of the program has ended.
///
/// Whoever asks may be the one who looks, and nobody waits: of those who ask within [`LOOK_MILLISECONDS`] one looks.
/// What comes on the input is passed over. An input that cannot be read has ended.
#[derive(Drop)]
pub(crate) struct Ending {
    rt: HostRuntime,
    is_over: AtomicBool,
    // Whether somebody looks.
    is_looked_at: AtomicBool,
    // When it was looked at last, in milliseconds.
    looked: AtomicU64,
    // How many links may bring something.
    open: AtomicU64,
}

impl Ending {
    /// An input that was not looked at yet.
    pub(crate) fn new(rt: HostRuntime) -> Ending {
        Ending {
            rt,
            is_over: AtomicBool::new(false),
            is_looked_at: AtomicBool::new(false),
            looked: AtomicU64::new(0),
            open: AtomicU64::new(0),
        }
    }

    /// Whether it has ended, as far as is known.
    pub(crate) fn is_over(&self) -> bool {
        self.is_over.load(Ordering::SeqCst) || self.is_time() && self.look()
    }

    // Whether the last look was long ago.
    fn is_time(&self) -> bool {
        let Ok(now) = self.rt.monotonic() else {
            return false;
        };
        let now = u64::try_from(now.as_millis()).unwrap_or(u64::MAX);
        let next = self
            .looked
            .load(Ordering::SeqCst)
            .saturating_add(LOOK_MILLISECONDS);
        if now < next {
            return false;
        }
        self.looked.store(now, Ordering::SeqCst);
        true
    }

    // Looks, where nobody else does.
    fn look(&self) -> bool {
        if self.is_looked_at.swap(true, Ordering::SeqCst) {
            return false;
        }
        let is_over = has_ended(self.rt);
        if is_over {
            self.is_over.store(true, Ordering::SeqCst);
        }
        self.is_looked_at.store(false, Ordering::SeqCst);
        is_over
    }

    /// A link may bring something from now on.
    pub(crate) fn open(&self) {
        let _ = self.open.fetch_add(1, Ordering::SeqCst);
    }

    /// The link brings nothing until it is asked again, and all that it brought has been taken.
    pub(crate) fn shut(&self) {
        let _ = self.open.fetch_sub(1, Ordering::SeqCst);
    }

    /// Whether no link may bring something.
    ///
    /// Where the input has ended and no link is open, none will be: who asks a link opens it first, and looks then
    /// whether the input has ended. So who found that it had not, had opened the link before it had.
    pub(crate) fn is_quiet(&self) -> bool {
        self.open.load(Ordering::SeqCst) == 0
    }
}

/// How long one wait in the system may last.
pub(crate) fn step() -> Duration {
    Duration::from_millis(STEP_MILLISECONDS)
}

// Whether standard input is at its end, without waiting for it.
fn has_ended(rt: HostRuntime) -> bool {
    if !is_ready() {
        return false;
    }
    match rt.stdin().read(&mut [0; PASSED_OVER]) {
        Ok(count) => count == 0,
        Err(error) => !matches!(error.kind(), ErrorKind::Interrupted | ErrorKind::WouldBlock),
    }
}

// Whether a read of standard input waits for nobody.
fn is_ready() -> bool {
    let mut input = [pollfd {
        fd: STDIN_FILENO,
        events: POLLIN,
        revents: 0,
    }];
    poll(&mut input, 0) > 0
}
