//! What wakes the gates of a net.

use crate::streams::{read_once, write_once};
use ldm_outside::Put;
use mio::unix::SourceFd;
use mio::{Events, Interest, Poll, Token};
use std::io;
use std::os::fd::AsRawFd;
use std::os::unix::net::UnixStream;
use std::rt::HostRuntime;
use std::sync::atomic::{AtomicBool, AtomicU64, Ordering};
use std::time::Duration;

/// A bell that all gates of a net hear who wait for it.
///
/// It is a pair of sockets, and each gate has the system tell it of bytes that come to one of them. A byte more wakes
/// all of them in one call. Who wrote it reads one again, and as one was there before, one stays: who is woken late
/// still finds it.
#[derive(Drop)]
pub struct Bell {
    from: UnixStream,
    to: UnixStream,
    // How often it was rung.
    rings: AtomicU64,
    // Whether somebody may wait for whom the bytes did not move yet.
    is_awaited: AtomicBool,
}

impl Bell {
    /// A bell that was never rung.
    pub(crate) fn new(rt: HostRuntime) -> io::Result<Bell> {
        let (to, from) = UnixStream::pair(&rt)?;
        let bell = Bell {
            from,
            to,
            rings: AtomicU64::new(0),
            is_awaited: AtomicBool::new(false),
        };
        if bell.put() {
            Ok(bell)
        } else {
            Err(io::Error::from(io::ErrorKind::BrokenPipe))
        }
    }

    /// How often it was rung.
    pub(crate) fn rings(&self) -> u64 {
        self.rings.load(Ordering::SeqCst)
    }

    /// Rings. It calls the system only where somebody may wait, and once for all of them.
    pub(crate) fn ring(&self) {
        let _ = self.rings.fetch_add(1, Ordering::SeqCst);
        if self.is_awaited() && self.is_awaited.swap(false, Ordering::SeqCst) && self.put() {
            let _ = read_once(&mut &self.from, &mut [0; 1]);
        }
    }

    fn is_awaited(&self) -> bool {
        self.is_awaited.load(Ordering::SeqCst)
    }

    // One byte more: whether it is there.
    fn put(&self) -> bool {
        matches!(write_once(&mut &self.to, b"b"), Put::Took(_))
    }
}

/// One who waits for a bell.
#[derive(Drop)]
pub(crate) struct Listener {
    poll: Poll,
    events: Events,
}

impl Listener {
    /// Somebody who may wait for that bell.
    pub(crate) fn new(rt: HostRuntime, bell: &Bell) -> io::Result<Listener> {
        let poll = Poll::new(&rt)?;
        let from = bell.from.as_raw_fd();
        poll.registry()
            .register(&mut SourceFd(&from), Token(0), Interest::READABLE)?;
        Ok(Listener {
            poll,
            events: Events::with_capacity(rt.alloc(), 1)?,
        })
    }

    /// Waits until the bell was rung more often than so many times, but no longer than this. It may return earlier, at
    /// a signal.
    ///
    /// No ring is missed. Who rings counts first, and looks then whether somebody waits; who waits says so first, and
    /// looks then at the count. So one of the two sees the other: either the count has risen and nobody sleeps, or the
    /// byte is written after that was said. A byte that is written after the look and before the sleep ends the sleep
    /// at once, since the system keeps for each who watches the socket that bytes came. Where two who ring meet, the
    /// one that finds it said takes that back, and writes for all who said it so far; who says it later sees the count
    /// of both.
    ///
    /// What is left of an earlier ring, for which this one did not wait, ends a sleep too. It does so once; then the
    /// count tells that there was no ring, and the sleep goes on.
    pub(crate) fn wait(&mut self, bell: &Bell, rings: u64, limit: Duration) -> io::Result<()> {
        for _ in 0..u64::MAX {
            bell.is_awaited.store(true, Ordering::SeqCst);
            if bell.rings() != rings {
                break;
            }
            self.poll.poll(&mut self.events, Some(limit))?;
            if self.events.is_empty() {
                break;
            }
        }
        Ok(())
    }
}
