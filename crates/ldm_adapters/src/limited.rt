//! A stream over TCP that waits for its peer no longer than its limits.
ghost use Rattle.std.specs.Prelude.{◌<◌, length};
ghost use Rattle.std.specs.Io.{ReadsAtMost, WritesAtMost};
ghost use Rattle.ldm_adapters.specs.Front.{GivesFront, TakesFront};

use crate::beats::Beats;
use crate::links::Timeouts;
use crate::pace::Pace;
use crate::streams::{told_of_read, told_of_write};
use ldm_outside::{Awaited, Got, Put};
use std::io::{self, ErrorKind, Read, Write};
use std::net::{Shutdown, TcpStream};
use std::time::{Duration, Instant};

// How long one call of the system waits at most, in seconds: then the time is looked at.
const STEP_SECONDS: u64 = 5;

// A write that took all of its piece within so many milliseconds did not wait for the peer.
const AT_ONCE_MILLISECONDS: u64 = 10;

/// How often the system is asked whether a peer is still there, at most: once in so many milliseconds.
pub const PEER_MILLISECONDS: u64 = 250;

/// A stream whose calls fail where the peer keeps them waiting past a limit. They look at a clock that is not set, and
/// set the timeouts of the socket only where these change.
#[derive(Drop)]
pub(crate) struct LimitedStream {
    stream: TcpStream,
    limits: Timeouts,
    // the timeouts that the socket has
    read_timeout: Duration,
    write_timeout: Duration,
    // what was awaited last, but for rests
    awaited: Awaited,
    // when something was awaited first since the last write
    since: Option<Instant>,
    // of the rest of the record in hand
    coming: Pace,
    // of the writes since the last that did not wait
    taking: Pace,
    // when the system was asked last whether the peer is there
    looked: Option<Instant>,
    gone: bool,
    // what says that its net is to stop
    beats: Option<Beats>,
}

impl LimitedStream {
    /// The stream under these limits, whose calls fail where its net is to stop. It sends each piece at once where the
    /// system can.
    pub(crate) fn new(
        stream: TcpStream,
        limits: Timeouts,
        beats: Option<Beats>,
    ) -> io::Result<LimitedStream> {
        let read_timeout = step_within(limits.silent, &beats);
        let write_timeout = step_within(limits.stalled, &beats);
        stream.set_read_timeout(Some(read_timeout))?;
        stream.set_write_timeout(Some(write_timeout))?;
        let _ = stream.set_nodelay(true);
        Ok(LimitedStream {
            stream,
            limits,
            read_timeout,
            write_timeout,
            awaited: Awaited::Request,
            since: None,
            coming: Pace::new(),
            taking: Pace::new(),
            looked: None,
            gone: false,
            beats,
        })
    }

    /// Receives some bytes, within the limit of what is awaited.
    pub(crate) fn receive(&mut self, into: &mut [u8], awaited: Awaited) -> Got
        requires { 0 < length into.old }
        ensures { GivesFront result into.new }
    {
        told_of_read(self.read_within(into, awaited))
    }

    /// Sends some bytes of a piece, within the limits.
    pub(crate) fn send(&mut self, piece: &[u8]) -> Put
        ensures { TakesFront result piece.now }
    {
        told_of_write(self.write_within(piece), piece.len())
    }

    /// Whether the peer is still there, as far as the system knows.
    pub(crate) fn is_there(&mut self) -> bool {
        if !self.gone {
            self.gone = !self.finds_peer().unwrap_or(false);
        }
        !self.gone
    }

    pub(crate) fn close(&self) {
        let _ = self.stream.shutdown(Shutdown::Both);
    }

    fn now(&self) -> io::Result<Instant> {
        Instant::now(&self.limits.rt)
    }

    // One read, which goes on where the socket's timeout or a signal cut it.
    fn read_within(&mut self, into: &mut [u8], awaited: Awaited) -> io::Result<usize>
        ensures { ReadsAtMost result into.new }
    {
        let mut began = self.now()?;
        let mut now = began;
        self.await_from(awaited, began);
        for _ in 0..u64::MAX {
            self.go_on()?;
            let left = self.read_left(awaited, began, now);
            self.fit_read(left)?;
            let answer = self.stream.read(into);
            match answer {
                Err(error) if error.kind() == ErrorKind::WouldBlock => {
                    now = self.passes(awaited, now, 0);
                }
                // the program was stopped, and goes on: its limit begins anew
                Err(error) if error.kind() == ErrorKind::Interrupted => {
                    now = self.now().unwrap_or(now);
                    began = now;
                    self.since = Some(now);
                }
                Ok(count) => {
                    self.passes(awaited, now, count);
                    return Ok(count);
                }
                Err(error) => return Err(error),
            }
        }
        Err(io::Error::from(ErrorKind::TimedOut))
    }

    // Fails where the net is to stop.
    fn go_on(&self) -> io::Result<()> {
        match &self.beats {
            Some(beats) if beats.is_over() => Err(io::Error::from(ErrorKind::ConnectionAborted)),
            _ => Ok(()),
        }
    }

    // From this moment on something is awaited.
    fn await_from(&mut self, awaited: Awaited, now: Instant) {
        if awaited != Awaited::Rest {
            self.awaited = awaited;
            self.coming = Pace::new();
        }
        if self.since.is_none() {
            self.since = Some(now);
        }
    }

    // How much longer a read that began at one moment may wait at another.
    fn read_left(&self, awaited: Awaited, began: Instant, now: Instant) -> Duration {
        let limits = &self.limits;
        let read = now.duration_since(began);
        let all = match self.since {
            Some(since) => now.duration_since(since),
            None => read,
        };
        match awaited {
            Awaited::Request => limits.request.saturating_sub(all),
            Awaited::Reply => limits.reply.saturating_sub(all),
            Awaited::Feed => limits.silent.saturating_sub(read),
            Awaited::Rest => {
                let silent = limits.silent.saturating_sub(read);
                let left = silent.min(self.coming.left(limits.grace));
                match self.awaited {
                    Awaited::Reply => left.min(limits.reply.saturating_sub(all)),
                    _ => left,
                }
            }
        }
    }

    // A read came back with so many bytes. Answers the moment, where it counts.
    fn passes(&mut self, awaited: Awaited, before: Instant, count: usize) -> Instant {
        if awaited != Awaited::Rest && count > 0 {
            return before;
        }
        let now = self.now().unwrap_or(before);
        if awaited == Awaited::Rest {
            self.coming.add(now.duration_since(before), count);
        }
        now
    }

    // Has a read wait no longer than this, and some seconds.
    fn fit_read(&mut self, left: Duration) -> io::Result<()> {
        if left.is_zero() {
            return Err(io::Error::from(ErrorKind::TimedOut));
        }
        let timeout = step_within(left, &self.beats);
        if timeout != self.read_timeout {
            self.stream.set_read_timeout(Some(timeout))?;
            self.read_timeout = timeout;
        }
        Ok(())
    }

    // The same of a write.
    fn fit_write(&mut self, left: Duration) -> io::Result<()> {
        if left.is_zero() {
            return Err(io::Error::from(ErrorKind::TimedOut));
        }
        let timeout = step_within(left, &self.beats);
        if timeout != self.write_timeout {
            self.stream.set_write_timeout(Some(timeout))?;
            self.write_timeout = timeout;
        }
        Ok(())
    }

    // One write, which goes on where the socket's timeout or a signal cut it.
    fn write_within(&mut self, piece: &[u8]) -> io::Result<usize>
        ensures { WritesAtMost result piece.now }
    {
        let mut began = self.now()?;
        let mut now = began;
        for _ in 0..u64::MAX {
            self.go_on()?;
            let left = self.write_left(began, now);
            self.fit_write(left)?;
            let answer = self.stream.write(piece);
            let then = self.now().unwrap_or(now);
            let waited = then.duration_since(now);
            match answer {
                Err(error) if error.kind() == ErrorKind::WouldBlock => self.taking.add(waited, 0),
                Err(error) if error.kind() == ErrorKind::Interrupted => began = then,
                Ok(count) => {
                    self.took(waited, count, piece.len());
                    return Ok(count);
                }
                Err(error) => return Err(error),
            }
            now = then;
        }
        Err(io::Error::from(ErrorKind::TimedOut))
    }

    // How much longer a write that began at one moment may wait at another.
    fn write_left(&self, began: Instant, now: Instant) -> Duration {
        let stalled = self.limits.stalled;
        let write = stalled.saturating_sub(now.duration_since(began));
        write.min(self.taking.left(self.limits.grace))
    }

    // A write took so many bytes of so many.
    fn took(&mut self, waited: Duration, count: usize, of: usize) {
        self.since = None;
        if count == of && waited < Duration::from_millis(AT_ONCE_MILLISECONDS) {
            self.taking = Pace::new();
        } else {
            self.taking.add(waited, count);
        }
    }

    // Whether the peer is there: of calls that come fast, the first asks the system.
    fn finds_peer(&mut self) -> io::Result<bool> {
        let now = self.now()?;
        if let Some(looked) = self.looked
            && now.duration_since(looked) < Duration::from_millis(PEER_MILLISECONDS)
        {
            return Ok(true);
        }
        self.looked = Some(now);
        self.stream.set_nonblocking(true)?;
        let found = self.stream.peek(&mut [0]);
        self.stream.set_nonblocking(false)?;
        match found {
            Ok(count) => Ok(count > 0),
            Err(error) if error.kind() == ErrorKind::WouldBlock => Ok(true),
            Err(error) => Err(error),
        }
    }
}

// How long one call of the system may wait of the time that is left.
fn step_within(left: Duration, beats: &Option<Beats>) -> Duration {
    let step = left.min(Duration::from_secs(STEP_SECONDS));
    match beats {
        Some(beats) => beats.within(step),
        None => step,
    }
}
