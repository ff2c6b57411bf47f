//! Links over TCP.

use crate::beats::{Beats, Pulse};
use crate::limited::LimitedStream;
use ldm_outside::{Awaited, Got, Link, LinkFailed, Put};
use std::io;
use std::net::TcpStream;
use std::rt::HostRuntime;
use std::time::Duration;

/// How long a dial waits for one address of a host to answer, in seconds.
pub const CONNECT_SECONDS: u64 = 10;

/// How long a link waits for the first bytes of what a feed brings, and for any of the rest of a record, in seconds.
pub const SILENT_SECONDS: u64 = 120;

/// How long a link waits in one write for its peer to take bytes, in seconds.
pub const STALLED_SECONDS: u64 = 120;

/// How long a link waits for a request, in seconds, from the last answer that was sent on. What comes meanwhile and is
/// answered by nothing does not put that off.
pub const REQUEST_SECONDS: u64 = 60;

/// How long a link waits for a reply and its rest, in seconds, from the last bytes that were sent on.
pub const REPLY_SECONDS: u64 = 120;

/// How long a link waits for the rest of a record, and in writes for its peer to take bytes, beside the time that the
/// bytes which moved take at [`SLOWEST_RATE`](crate::SLOWEST_RATE), in seconds.
pub const GRACE_SECONDS: u64 = 20;

/// How long a dial and a link wait for a peer, by a clock of the system that is not set: a call that waited so long has
/// failed. Each is above 0; where one of the socket's is 0, no link is made.
#[derive(Clone, Copy)]
pub struct Timeouts {
    /// Whose clock it is.
    pub rt: HostRuntime,
    /// For one address of a host to answer.
    pub connect: Duration,
    /// For bytes of a feed, and of the rest of a record.
    pub silent: Duration,
    /// For the peer to take bytes, in one write.
    pub stalled: Duration,
    /// For a request.
    pub request: Duration,
    /// For a reply.
    pub reply: Duration,
    /// For the rest of a record, and for the peer to take bytes, beside the time of those that moved.
    pub grace: Duration,
}

impl Timeouts {
    /// [`CONNECT_SECONDS`], [`SILENT_SECONDS`], [`STALLED_SECONDS`], [`REQUEST_SECONDS`], [`REPLY_SECONDS`] and
    /// [`GRACE_SECONDS`].
    pub fn new(rt: HostRuntime) -> Timeouts {
        Timeouts {
            rt,
            connect: Duration::from_secs(CONNECT_SECONDS),
            silent: Duration::from_secs(SILENT_SECONDS),
            stalled: Duration::from_secs(STALLED_SECONDS),
            request: Duration::from_secs(REQUEST_SECONDS),
            reply: Duration::from_secs(REPLY_SECONDS),
            grace: Duration::from_secs(GRACE_SECONDS),
        }
    }
}

/// A link over TCP. It tells no bytes.
///
/// A peer that vanishes is a fault, and no signal comes; so is one that is waited for too long. What it is waited for
/// says how long: [`Timeouts`]. A closed link is shut down in both directions. Where its net is to stop, a call is a
/// fault.
#[derive(Drop)]
pub struct RealLink {
    stream: LimitedStream,
    pulse: Pulse,
    ends: u64,
    faults: u64,
    closed: bool,
}

impl RealLink {
    ghost use Rattle.std.specs.Prelude.{◌≡◌, nat_lt, IfOk};
    ghost use Rattle.ldm_outside.specs.Link.{IsFresh};
    ghost use Rattle.ldm_adapters.specs.Told.{told_by_link};

    /// A link of the stream, which waits no longer than this, and sends each piece at once where the system can. It
    /// beats when it has done with bytes that came.
    pub(crate) fn new(
        stream: TcpStream,
        timeouts: Timeouts,
        beats: Option<Beats>,
    ) -> io::Result<RealLink>
        ensures { IfOk result (λ link. IsFresh (told_by_link link)) }
    {
        Ok(RealLink {
            stream: LimitedStream::new(stream, timeouts, share(&beats)?)?,
            pulse: Pulse::new(beats),
            ends: 0,
            faults: 0,
            closed: false,
        })
    }

    // It is given back.
    pub(crate) fn end(&self) {
        self.pulse.end();
    }

    // Whether it ended, and whether it failed.
    pub(crate) fn ended(&self) -> bool
        ensures { result ≡ nat_lt 0 self.now.ends }
    {
        self.ends > 0
    }

    pub(crate) fn failed(&self) -> bool
        ensures { result ≡ nat_lt 0 self.now.faults }
    {
        self.faults > 0
    }
}

// What the stations of a net share, for another part of a link.
fn share(beats: &Option<Beats>) -> io::Result<Option<Beats>> {
    match beats {
        Some(beats) => Ok(Some(beats.share()?)),
        None => Ok(None),
    }
}

impl Link for RealLink {
    ghost use Rattle.ldm_adapters.specs.Told.{told_by_link};

    ghost tells = { told_by_link };

    fn recv(&mut self, into: &mut [u8], awaited: Awaited) -> Got {
        self.pulse.settle();
        self.pulse.open();
        let got = self.stream.receive(into, awaited);
        match got {
            Got::Bytes(_) => self.pulse.owe(),
            Got::End => self.ends = self.ends.saturating_add(1),
            Got::Failed => self.faults = self.faults.saturating_add(1),
        }
        if !matches!(got, Got::Bytes(_)) {
            self.pulse.settle();
        }
        got
    }

    fn send(&mut self, piece: &[u8]) -> Put {
        self.pulse.settle();
        let put = self.stream.send(piece);
        if put == Put::Failed {
            self.faults = self.faults.saturating_add(1);
        }
        put
    }

    fn check_peer(&mut self) -> Result<(), LinkFailed> {
        if self.stream.is_there() {
            return Ok(());
        }
        self.faults = self.faults.saturating_add(1);
        Err(LinkFailed)
    }

    fn close(&mut self) {
        self.pulse.settle();
        self.stream.close();
        self.closed = true;
    }
}
