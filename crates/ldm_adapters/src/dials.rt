//! Dials over TCP.
ghost use Rattle.std.specs.Prelude.{◌≡◌, IfOk};
ghost use Rattle.ldm_outside.specs.Count.{Rose};
ghost use Rattle.ldm_outside.specs.Dial.{IsNewDial};
ghost use Rattle.ldm_outside.specs.Link.{IsFresh};
ghost use Rattle.ldm_adapters.specs.Told.{told_by_dial, told_by_link};

use crate::beats::Beats;
use crate::lending::RealLending;
use crate::links::{RealLink, Timeouts};
use crate::telling::{tell, tell_peer, tell_port};
use ldm_outside::{Dial, Dialled, Reason, Reasons};
use std::io::{self, ErrorKind};
use std::net::{TcpStream, ToSocketAddrs};
use std::rt::HostRuntime;
use std::str;
use std::time::{Duration, Instant};

/// How long a session lasts at least that did not come to nothing, in seconds.
pub const SESSION_SECONDS: u64 = 10;

/// A dial over TCP. It tells nothing of whom it was asked for.
///
/// A host is an address, or a name that the system looks up; its addresses are tried in turn, each within a limit of
/// time.
#[derive(Drop)]
pub struct RealDial {
    rt: HostRuntime,
    timeouts: Timeouts,
    beats: Option<Beats>,
    faults: u64,
    links: RealLending,
    // When the last link was connected.
    connected: Option<Instant>,
    why: Reason,
}

impl RealDial {
    /// A dial of this system, which and whose links wait no longer than this.
    pub fn new(rt: HostRuntime, timeouts: Timeouts) -> RealDial
        ensures { IsNewDial (told_by_dial result) }
    {
        RealDial::beating(rt, timeouts, None)
    }

    /// The same, whose links beat.
    pub(crate) fn beating(rt: HostRuntime, timeouts: Timeouts, beats: Option<Beats>) -> RealDial
        ensures { IsNewDial (told_by_dial result) }
    {
        RealDial {
            rt,
            timeouts,
            beats,
            faults: 0,
            links: RealLending::new(),
            connected: None,
            why: Reason::new(),
        }
    }

    // Whether the session over the last link came to something.
    fn is_hit(&self) -> bool {
        match self.connected {
            Some(connected) => connected
                .elapsed(&self.rt)
                .is_ok_and(|lasted| lasted >= Duration::from_secs(SESSION_SECONDS)),
            None => false,
        }
    }

    // Tells the gate of the station what a try came to.
    fn tell(&self, is_hit: bool) {
        match &self.beats {
            Some(beats) if is_hit => beats.hit(),
            Some(beats) => beats.miss(),
            None => {}
        }
    }

    // Counts a fault at a peer, and keeps what the system said.
    fn fail(&mut self, host: &[u8], port: u16, error: &io::Error)
        ensures counted { self.new ≡ record self.old { faults = self.new.faults; why = self.new.why } }
        ensures rose { Rose self.old.faults self.new.faults }
    {
        tell_peer(&mut self.why, host, port, error);
        self.faults = self.faults.saturating_add(1);
    }

    /// Counts a fault of the system at a desk, and keeps what it said.
    pub(crate) fn fail_to_furnish(&mut self, error: &io::Error)
        ensures counted { self.new ≡ record self.old { faults = self.new.faults; why = self.new.why } }
        ensures rose { Rose self.old.faults self.new.faults }
    {
        tell(&mut self.why, b"desk", error);
        self.faults = self.faults.saturating_add(1);
    }

    /// Counts a fault at a port of this machine, and keeps what the system said.
    pub(crate) fn fail_to_listen(&mut self, port: u16, error: &io::Error)
        ensures counted { self.new ≡ record self.old { faults = self.new.faults; why = self.new.why } }
        ensures rose { Rose self.old.faults self.new.faults }
    {
        tell_port(&mut self.why, port, error);
        self.faults = self.faults.saturating_add(1);
    }
}

// A link to the first address of the host that answers in time; or what the system said of the last one.
fn connect(
    rt: HostRuntime,
    host: &[u8],
    port: u16,
    timeouts: Timeouts,
    beats: Option<Beats>,
) -> io::Result<RealLink>
    ensures { IfOk result (λ link. IsFresh (told_by_link link)) }
{
    let Ok(host) = str::from_utf8(host) else {
        return Err(io::Error::new(ErrorKind::InvalidInput, "Is no host"));
    };
    let mut why = io::Error::new(ErrorKind::NotFound, "Has no address");
    for address in (host, port).to_socket_addrs(&rt)? {
        if beats.as_ref().is_some_and(Beats::is_over) {
            return Err(io::Error::new(ErrorKind::ConnectionAborted, "The net stops"));
        }
        match TcpStream::connect_timeout(&rt, &address, timeouts.connect) {
            Ok(stream) => return RealLink::new(stream, timeouts, beats),
            Err(error) => why = error,
        }
    }
    Err(why)
}

impl Dial for RealDial {
    type Link = RealLink;

    ghost tells = { told_by_dial };

    fn connect(&mut self, host: &[u8], port: u16) -> Dialled<RealLink> {
        let beats = self.beats.as_ref().and_then(|beats| beats.share().ok());
        match connect(self.rt, host, port, self.timeouts, beats) {
            Ok(link) => {
                self.connected = Instant::now(&self.rt).ok();
                self.links.hand_out();
                Dialled::Linked(link)
            }
            Err(error) => {
                self.tell(false);
                self.fail(host, port, &error);
                Dialled::Failed
            }
        }
    }

    fn give_back(&mut self, link: RealLink) {
        self.tell(self.is_hit());
        self.links.take_back(link);
    }
}

impl Reasons for RealDial {
    fn reason(&self) -> &[u8] {
        self.why.as_slice()
    }
}
