//! Doors over TCP.
ghost use Rattle.std.specs.Prelude.{◌≡◌, IfOk, IfSome};
ghost use Rattle.ldm_outside.specs.Door.{IsNewDoor};
ghost use Rattle.ldm_outside.specs.Link.{IsFresh};
ghost use Rattle.ldm_adapters.specs.Told.{told_by_door, told_by_link};

use crate::beats::Beats;
use crate::keeper::Found;
use crate::lending::RealLending;
use crate::links::{RealLink, Timeouts};
use crate::lobby::Way;
use arrayvec::{ArrayString, ArrayVec};
use ldm_outside::{Came, Door, LONGEST_HOST};
use std::fmt::Write;
use std::io::{self, ErrorKind};
use std::net::{IpAddr, TcpListener};

/// A door over TCP. It tells no host, and closes only where its net is to stop.
///
/// The host of a peer is the text of its address. Where it closed or failed, or the link of the last peer of its worker
/// was given back, its station is at work no more.
#[derive(Drop)]
pub struct RealDoor {
    entry: Entry,
    timeouts: Timeouts,
    beats: Option<Beats>,
    // How many more peers its worker lets in.
    left: u32,
    faults: u64,
    peers: u64,
    closings: u64,
    links: RealLending,
}

// How peers come to a door.
#[derive(Drop)]
enum Entry {
    // As they come to a listener.
    Listener(TcpListener),
    // From a lobby, once they spoke.
    Lobby(Way),
}

impl Entry {
    // The next peer, and its address. Its link is out from now on. None where the net is to stop.
    fn wait(&self) -> io::Result<Option<Found>> {
        match self {
            Entry::Listener(listener) => Ok(Some(accept_peer(listener)?)),
            Entry::Lobby(way) => way.wait(),
        }
    }

    // The link of the last peer is out no more.
    fn give_back(&self) {
        if let Entry::Lobby(way) = self {
            way.give_back();
        }
    }

    fn port(&self) -> io::Result<u16> {
        match self {
            Entry::Listener(listener) => Ok(listener.local_addr()?.port()),
            Entry::Lobby(way) => way.port(),
        }
    }
}

impl RealDoor {
    /// A door where what comes to the listener comes in, over links that wait no longer than this.
    pub fn new(listener: TcpListener, timeouts: Timeouts) -> RealDoor
        ensures { IsNewDoor (told_by_door result) }
    {
        RealDoor::made(Entry::Listener(listener), timeouts, None, u32::MAX)
    }

    /// A door where those of a lobby come in who spoke, over links that wait no longer than this, and beat. Its worker
    /// lets in so many.
    pub(crate) fn of_lobby(way: Way, timeouts: Timeouts, beats: Beats, peers: u32) -> RealDoor
        ensures { IsNewDoor (told_by_door result) }
    {
        RealDoor::made(Entry::Lobby(way), timeouts, Some(beats), peers)
    }

    fn made(entry: Entry, timeouts: Timeouts, beats: Option<Beats>, left: u32) -> RealDoor
        ensures { IsNewDoor (told_by_door result) }
    {
        RealDoor {
            entry,
            timeouts,
            beats,
            left,
            faults: 0,
            peers: 0,
            closings: 0,
            links: RealLending::new(),
        }
    }

    /// Its station is at work from now on, unless its worker lets nobody in.
    pub(crate) fn begin(&self) {
        if let Some(beats) = &self.beats
            && self.left > 0
        {
            beats.begin();
        }
    }

    // Its worker stops.
    fn leave(&self) {
        if let Some(beats) = &self.beats {
            beats.leave();
        }
    }

    /// How many peers came.
    pub fn peers(&self) -> u64
        ensures { result ≡ self.now.peers }
    {
        self.peers
    }

    /// How many links were given back that had ended.
    pub fn ended(&self) -> u64
        ensures { result ≡ self.now.links.ended }
    {
        self.links.ended()
    }

    /// How many links were given back that had failed.
    pub fn failed(&self) -> u64
        ensures { result ≡ self.now.links.failed }
    {
        self.links.failed()
    }

    /// The port that it listens on.
    pub fn port(&self) -> io::Result<u16> {
        self.entry.port()
    }
}

// The text of an address. One of IPv4 that came to a listener for both families is told as what it is.
fn host_of(address: IpAddr) -> Option<ArrayVec<u8, LONGEST_HOST>> {
    let mut text = ArrayString::<LONGEST_HOST>::new();
    write!(text, "{}", address.to_canonical()).ok()?;
    ArrayVec::try_from(text.as_bytes()).ok()
}

// The next peer. One that went before it was let in is none.
fn accept_peer(listener: &TcpListener) -> io::Result<Found> {
    for _ in 0..u64::MAX {
        match listener.accept() {
            Ok((stream, address)) => return Ok((stream, address.ip())),
            Err(error) if is_passing(error.kind()) => {}
            Err(error) => return Err(error),
        }
    }
    Err(io::Error::from(ErrorKind::TimedOut))
}

fn is_passing(kind: ErrorKind) -> bool {
    matches!(kind, ErrorKind::Interrupted | ErrorKind::ConnectionAborted)
}

// A link to the next peer, with the text of its address. None where the net is to stop.
fn next_peer(
    entry: &Entry,
    timeouts: Timeouts,
    beats: Option<Beats>,
) -> io::Result<Option<(ArrayVec<u8, LONGEST_HOST>, RealLink)>>
    ensures { IfOk result (λ next. IfSome next (λ peer. IsFresh (told_by_link peer.1))) }
{
    let Some((stream, address)) = entry.wait()? else {
        return Ok(None);
    };
    let Some(host) = host_of(address) else {
        return Err(io::Error::from(ErrorKind::InvalidData));
    };
    let link = RealLink::new(stream, timeouts, beats)?;
    Ok(Some((host, link)))
}

impl Door for RealDoor {
    type Link = RealLink;

    ghost tells = { told_by_door };

    fn accept(&mut self) -> Came<RealLink> {
        let beats = self.beats.as_ref().and_then(|beats| beats.share().ok());
        match next_peer(&self.entry, self.timeouts, beats) {
            Ok(Some((host, link))) => {
                if let Some(beats) = &self.beats {
                    beats.serve();
                }
                self.peers = self.peers.saturating_add(1);
                self.links.hand_out();
                Came::Peer { host, link }
            }
            Ok(None) => {
                self.leave();
                self.closings = self.closings.saturating_add(1);
                Came::Closed
            }
            Err(_) => {
                self.leave();
                self.entry.give_back();
                self.faults = self.faults.saturating_add(1);
                Came::Failed
            }
        }
    }

    fn give_back(&mut self, link: RealLink) {
        self.entry.give_back();
        self.links.take_back(link);
        self.left = self.left.saturating_sub(1);
        if self.left == 0 {
            self.leave();
        }
    }
}
