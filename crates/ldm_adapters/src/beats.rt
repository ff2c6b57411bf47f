//! What cuts the rest of a gate short, and what makes it longer.

use crate::bell::Bell;
use crate::ending::{Ending, step};
use std::alloc::{AllocError, Global};
use std::io;
use std::rt::HostRuntime;
use std::sync::Arc;
use std::sync::atomic::{AtomicBool, AtomicU64, Ordering};
use std::time::Duration;

/// What the stations of a net share: a bell, which is rung where one of their links has done with bytes that came. A
/// product may have been queued then, so it wakes the gates of those stations that feed.
///
/// Only a station whose door let a peer in feeds. Who asks for products at a dial waits its whole time before it asks
/// again: the longer, the more tries of this station in a row came to nothing.
#[derive(Drop)]
pub struct Beats {
    bell: Arc<Bell>,
    // Whether the door of this station let a peer in.
    serves: Arc<AtomicBool>,
    // How many tries of this station in a row came to nothing.
    misses: Arc<AtomicU64>,
    // What stops the net, where something does.
    ending: Option<Arc<Ending>>,
    // How many stations of the net are at work.
    busy: Arc<AtomicU64>,
    // Whether this station is one of them.
    is_busy: Arc<AtomicBool>,
}

impl Beats {
    /// For the first station of a net, which stops with the input of the program, or never.
    pub(crate) fn new(rt: HostRuntime, by_input: bool) -> io::Result<Beats> {
        let ending = if by_input {
            Some(Arc::new(rt.alloc(), Ending::new(rt))?)
        } else {
            None
        };
        Ok(Beats {
            bell: Arc::new(rt.alloc(), Bell::new(rt)?)?,
            serves: Arc::new(rt.alloc(), AtomicBool::new(false))?,
            misses: Arc::new(rt.alloc(), AtomicU64::new(0))?,
            ending,
            busy: Arc::new(rt.alloc(), AtomicU64::new(0))?,
            is_busy: Arc::new(rt.alloc(), AtomicBool::new(false))?,
        })
    }

    /// For one station more.
    pub(crate) fn beside(&self, alloc: Global) -> Result<Beats, AllocError> {
        Ok(Beats {
            bell: Arc::try_clone(&self.bell)?,
            serves: Arc::new(alloc, AtomicBool::new(false))?,
            misses: Arc::new(alloc, AtomicU64::new(0))?,
            ending: shared(&self.ending)?,
            busy: Arc::try_clone(&self.busy)?,
            is_busy: Arc::new(alloc, AtomicBool::new(false))?,
        })
    }

    /// For another part of the same station.
    pub(crate) fn share(&self) -> Result<Beats, AllocError> {
        Ok(Beats {
            bell: Arc::try_clone(&self.bell)?,
            serves: Arc::try_clone(&self.serves)?,
            misses: Arc::try_clone(&self.misses)?,
            ending: shared(&self.ending)?,
            busy: Arc::try_clone(&self.busy)?,
            is_busy: Arc::try_clone(&self.is_busy)?,
        })
    }

    /// Whether the net may stop.
    pub(crate) fn may_stop(&self) -> bool {
        self.ending.is_some()
    }

    /// Whether the net is to stop.
    pub(crate) fn is_over(&self) -> bool {
        match &self.ending {
            Some(ending) => ending.is_over(),
            None => false,
        }
    }

    /// Whether no link of the net may bring something, where the net may stop.
    pub(crate) fn is_quiet(&self) -> bool {
        match &self.ending {
            Some(ending) => ending.is_quiet(),
            None => true,
        }
    }

    /// The station is at work from now on.
    pub(crate) fn begin(&self) {
        if !self.is_busy.swap(true, Ordering::SeqCst) {
            let _ = self.busy.fetch_add(1, Ordering::SeqCst);
        }
    }

    /// The worker of the station stops, whatever it has still to write. All that its links brought has been taken.
    pub(crate) fn leave(&self) {
        if self.is_busy.swap(false, Ordering::SeqCst) {
            let _ = self.busy.fetch_sub(1, Ordering::SeqCst);
            self.beat();
        }
    }

    /// Whether no station of the net is at work.
    pub(crate) fn is_left(&self) -> bool {
        self.busy.load(Ordering::SeqCst) == 0
    }

    /// How long one wait in the system may last of the time that is left.
    pub(crate) fn within(&self, left: Duration) -> Duration {
        if self.may_stop() {
            left.min(step())
        } else {
            left
        }
    }

    /// The same of a wait that has no end of its own.
    pub(crate) fn longest(&self) -> Option<Duration> {
        if self.may_stop() { Some(step()) } else { None }
    }

    /// The door let a peer in.
    pub(crate) fn serve(&self) {
        self.serves.store(true, Ordering::SeqCst);
    }

    /// Whether the door let a peer in.
    pub(crate) fn serves(&self) -> bool {
        self.serves.load(Ordering::SeqCst)
    }

    /// What is rung.
    pub(crate) fn bell(&self) -> &Bell {
        &self.bell
    }

    /// A link has done with bytes that came.
    pub(crate) fn beat(&self) {
        self.bell.ring();
    }

    /// How often a link had.
    pub(crate) fn count(&self) -> u64 {
        self.bell.rings()
    }

    /// A try of the dial came to nothing.
    pub(crate) fn miss(&self) {
        let _ = self.misses.fetch_add(1, Ordering::SeqCst);
    }

    /// A try of the dial came to a session.
    pub(crate) fn hit(&self) {
        self.misses.store(0, Ordering::SeqCst);
    }

    /// How many tries of the dial came to nothing since one came to a session.
    pub(crate) fn misses(&self) -> u64 {
        self.misses.load(Ordering::SeqCst)
    }
}

// What stops a net, for another part of it.
fn shared(ending: &Option<Arc<Ending>>) -> Result<Option<Arc<Ending>>, AllocError> {
    match ending {
        Some(ending) => Ok(Some(Arc::try_clone(ending)?)),
        None => Ok(None),
    }
}

/// When a link beats.
///
/// It does not as bytes come, since what is in them is not queued yet. Whoever has the link takes them first, and then
/// comes back to it, to receive more, to send an answer or to close it: then it beats, before it does anything else. An
/// answer to a product is sent once that is queued; a product that is answered by nothing is queued before more is
/// received.
///
/// From the asking for bytes on, and until the link is come back to, it may bring something.
#[derive(Drop)]
pub struct Pulse {
    beats: Option<Beats>,
    // Whether bytes came since the last beat.
    is_owed: bool,
    // Whether it may bring something.
    is_open: bool,
}

impl Pulse {
    /// Of a link over which nothing came.
    pub(crate) fn new(beats: Option<Beats>) -> Pulse {
        Pulse {
            beats,
            is_owed: false,
            is_open: false,
        }
    }

    /// The link is asked for bytes.
    pub(crate) fn open(&mut self) {
        if let Some(ending) = self.ending() {
            ending.open();
            self.is_open = true;
        }
    }

    /// Bytes came.
    pub(crate) fn owe(&mut self) {
        self.is_owed = true;
    }

    /// The link is come back to, or brought nothing.
    pub(crate) fn settle(&mut self) {
        self.end();
        self.is_owed = false;
        self.is_open = false;
    }

    fn ending(&self) -> Option<&Ending> {
        match &self.beats {
            Some(beats) => beats.ending.as_deref(),
            None => None,
        }
    }

    /// The link is not come back to.
    pub(crate) fn end(&self) {
        if let Some(beats) = &self.beats
            && self.is_owed
        {
            beats.beat();
        }
        if self.is_open
            && let Some(ending) = self.ending()
        {
            ending.shut();
        }
    }
}
