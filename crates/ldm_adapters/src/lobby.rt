//! A lobby, which all doors of a net share: whoever waits at one of them keeps it for all.

use crate::beats::Beats;
use crate::keeper::{Found, Keeper};
use crate::seats::Seat;
use crate::streams::{read_once, write_once};
use ldm_outside::{Got, Put};
use mio::Waker;
use std::alloc::AllocError;
use std::io::{self, ErrorKind};
use std::net::TcpListener;
use std::os::unix::net::UnixStream;
use std::rt::HostRuntime;
use std::sync::atomic::{AtomicU64, Ordering};
use std::sync::{Arc, Mutex};

// What the one door has that keeps the lobby: a byte on its way between two sockets. Who waits for it sleeps in the
// system, which wakes it.
#[derive(Drop)]
struct Baton {
    from: UnixStream,
    to: UnixStream,
}

impl Baton {
    // A baton that nobody has.
    fn new(rt: HostRuntime) -> io::Result<Baton> {
        let (to, from) = UnixStream::pair(&rt)?;
        let baton = Baton { from, to };
        baton.lay_down()?;
        Ok(baton)
    }

    // Waits until nobody has it, and takes it.
    fn take(&self) -> io::Result<()> {
        match read_once(&mut &self.from, &mut [0; 1]) {
            Got::Bytes(_) => Ok(()),
            Got::End | Got::Failed => Err(io::Error::from(ErrorKind::BrokenPipe)),
        }
    }

    fn lay_down(&self) -> io::Result<()> {
        match write_once(&mut &self.to, b"b") {
            Put::Took(_) => Ok(()),
            Put::Failed => Err(io::Error::from(ErrorKind::BrokenPipe)),
        }
    }
}

/// Where those wait who came to a listener and did not speak yet, or found no free door.
///
/// A door that waits for a peer takes the baton, and keeps the lobby until it has one. The other doors sleep meanwhile.
#[derive(Drop)]
pub struct Lobby {
    listener: TcpListener,
    baton: Baton,
    waker: Waker,
    // How many doors wait for a peer.
    doors: AtomicU64,
    // Only the door that has the baton locks it.
    keeper: Mutex<Keeper>,
}

impl Lobby {
    /// The lobby of that listener, with no door.
    pub(crate) fn new(rt: HostRuntime, listener: TcpListener, beats: Beats) -> io::Result<Lobby> {
        let keeper = Keeper::new(rt, &listener, beats)?;
        Ok(Lobby {
            listener,
            baton: Baton::new(rt)?,
            waker: keeper.waker()?,
            doors: AtomicU64::new(0),
            keeper: Mutex::new(keeper),
        })
    }

    // The next peer of the door at that place.
    fn wait(&self, place: usize) -> io::Result<Option<Found>> {
        if let Err(error) = self.baton.take() {
            self.doors.fetch_sub(1, Ordering::SeqCst);
            return Err(error);
        }
        let found = match self.keeper.try_lock() {
            Some(mut keeper) => keeper.wait(&self.listener, place, &self.doors),
            None => Err(io::Error::from(ErrorKind::ResourceBusy)),
        };
        // before another door keeps the lobby, which has to know whether it is the last
        self.doors.fetch_sub(1, Ordering::SeqCst);
        self.baton.lay_down()?;
        found
    }
}

/// The way from a lobby to one door.
#[derive(Drop)]
pub struct Way {
    lobby: Arc<Lobby>,
    place: usize,
    seat: Seat,
}

impl Way {
    /// The way to a new door.
    pub(crate) fn new(lobby: &Arc<Lobby>) -> io::Result<Way> {
        let (place, seat) = match lobby.keeper.try_lock() {
            Some(mut keeper) => keeper.add_door()?,
            None => return Err(io::Error::from(ErrorKind::ResourceBusy)),
        };
        Ok(Way {
            lobby: Arc::try_clone(lobby)?,
            place,
            seat,
        })
    }

    /// Waits for the next peer. Its link is out until it is given back. None where the net is to stop.
    pub(crate) fn wait(&self) -> io::Result<Option<Found>> {
        self.lobby.doors.fetch_add(1, Ordering::SeqCst);
        // who keeps the lobby may let one go that is not to have the last door
        let _ = self.lobby.waker.wake();
        self.lobby.wait(self.place)
    }

    /// The link is out no more.
    pub(crate) fn give_back(&self) {
        self.seat.leave();
    }

    /// The port that is listened on.
    pub(crate) fn port(&self) -> io::Result<u16> {
        Ok(self.lobby.listener.local_addr()?.port())
    }
}
