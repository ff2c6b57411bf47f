//! Who keeps a lobby: lets connections in, waits until their peers speak, and chooses who comes to a free door.

use crate::beats::Beats;
use crate::seats::{Seat, links_out, links_to};
use crate::waiting::{Visitor, WAITING_MOST, Waiting};
use mio::unix::SourceFd;
use mio::{Events, Interest, Poll, Registry, Token, Waker};
use std::io::{self, ErrorKind};
use std::net::{IpAddr, TcpListener, TcpStream};
use std::os::fd::AsRawFd;
use std::rt::HostRuntime;
use std::sync::atomic::{AtomicU64, Ordering};
use std::time::{Clock, Duration};

/// How long nobody is let in after the system had no descriptor or no memory for a connection, in seconds.
pub const NO_ROOM_SECONDS: u64 = 1;

// How many connections are let in before it is looked who spoke.
const LET_IN_AT_ONCE: usize = 128;

// How many of the waiting are told of by one call of the system.
const HEARD_AT_ONCE: usize = 128;

// The listener has something to let in.
const LISTENER: usize = 0;

// Another door came.
const DOOR: usize = 1;

// The first of the waiting.
const FIRST: usize = 2;

/// The lobby, in the hands of the one door that keeps it.
#[derive(Drop)]
pub struct Keeper {
    rt: HostRuntime,
    poll: Poll,
    events: Events,
    waiting: Waiting,
    // The token of the next to come.
    next: usize,
    // Until when nobody is let in.
    pause: Option<Duration>,
    // Of all doors, in the order in which they were made.
    seats: Vec<Seat>,
    // What says that the net is to stop.
    beats: Beats,
}

// Whom a keeper found for a door.
pub type Found = (TcpStream, IpAddr);

// What an error of `accept` tells.
#[derive(Clone, Copy, PartialEq, Eq)]
enum Refusal {
    // Nobody is there.
    Nobody,
    // One who was there is gone, or may not come in.
    One,
    // The system has no room for a connection.
    NoRoom,
    // The listener failed.
    Listener,
}

// Errors of the system by their numbers, of which the library has no kinds.
const ENFILE: i32 = 23;

const EMFILE: i32 = 24;

const ENOMEM: i32 = 12;

const ENOBUFS: i32 = 105;

const EPROTO: i32 = 71;

const ENONET: i32 = 64;

const ENOPROTOOPT: i32 = 92;

const EHOSTDOWN: i32 = 112;

fn refusal_of(error: &io::Error) -> Refusal {
    match error.raw_os_error() {
        Some(ENFILE | EMFILE | ENOMEM | ENOBUFS) => return Refusal::NoRoom,
        Some(EPROTO | ENONET | ENOPROTOOPT | EHOSTDOWN) => return Refusal::One,
        _ => {}
    }
    match error.kind() {
        ErrorKind::WouldBlock => Refusal::Nobody,
        ErrorKind::OutOfMemory => Refusal::NoRoom,
        ErrorKind::Interrupted
        | ErrorKind::ConnectionAborted
        | ErrorKind::ConnectionReset
        | ErrorKind::TimedOut
        | ErrorKind::PermissionDenied
        | ErrorKind::HostUnreachable
        | ErrorKind::NetworkUnreachable
        | ErrorKind::NetworkDown
        | ErrorKind::Unsupported => Refusal::One,
        _ => Refusal::Listener,
    }
}

// What is known of a peer before it is let to a door.
#[derive(Clone, Copy, PartialEq, Eq)]
enum Heard {
    // Its first bytes are there.
    Bytes,
    Nothing,
    // It sends nothing any more.
    End,
}

// Looks at the first byte, and leaves it where it is.
fn hear(stream: &TcpStream) -> Heard {
    let mut first = [0; 1];
    match stream.peek(&mut first) {
        Ok(0) => Heard::End,
        Ok(_) => Heard::Bytes,
        Err(error) if error.kind() == ErrorKind::WouldBlock => Heard::Nothing,
        Err(_) => Heard::End,
    }
}

impl Keeper {
    /// The keeper of an empty lobby with no door.
    pub(crate) fn new(rt: HostRuntime, listener: &TcpListener, beats: Beats) -> io::Result<Keeper> {
        listener.set_nonblocking(true)?;
        let poll = Poll::new(&rt)?;
        let listener = listener.as_raw_fd();
        poll.registry().register(
            &mut SourceFd(&listener),
            Token(LISTENER),
            Interest::READABLE,
        )?;
        Ok(Keeper {
            rt,
            poll,
            events: Events::with_capacity(rt.alloc(), HEARD_AT_ONCE)?,
            waiting: Waiting::new(rt.alloc()),
            next: FIRST,
            pause: None,
            seats: Vec::new(rt.alloc()),
            beats,
        })
    }

    /// What ends the rest of the keeper.
    pub(crate) fn waker(&self) -> io::Result<Waker> {
        Waker::new(self.poll.registry(), Token(DOOR))
    }

    /// One door more: its place, and its seat.
    pub(crate) fn add_door(&mut self) -> io::Result<(usize, Seat)> {
        let seat = Seat::new(self.rt.alloc())?;
        let own = seat.share()?;
        let place = self.seats.len();
        self.seats.push(seat)?;
        Ok((place, own))
    }

    /// Waits until somebody may come to the door at that place, of which so many others wait too. Its link is out from
    /// then on. None where the net is to stop.
    pub(crate) fn wait(
        &mut self,
        listener: &TcpListener,
        place: usize,
        doors: &AtomicU64,
    ) -> io::Result<Option<Found>> {
        for _ in 0..u64::MAX {
            if self.beats.is_over() {
                return Ok(None);
            }
            let has_more = self.let_in(listener)?;
            self.drop_overdue()?;
            if let Some(found) = self.choose(place, doors) {
                return Ok(Some(found));
            }
            self.rest(has_more)?;
        }
        Err(io::Error::from(ErrorKind::TimedOut))
    }

    // Lets in who came: whether there may be more.
    fn let_in(&mut self, listener: &TcpListener) -> io::Result<bool> {
        let now = self.rt.monotonic()?;
        if self.pause.is_some_and(|until| now < until) {
            return Ok(false);
        }
        self.pause = None;
        for _ in 0..LET_IN_AT_ONCE {
            match listener.accept() {
                Ok((stream, address)) => self.admit(stream, address.ip().to_canonical(), now),
                Err(error) => match refusal_of(&error) {
                    Refusal::One => {}
                    Refusal::Nobody => return Ok(false),
                    Refusal::NoRoom => {
                        self.pause = Some(now.saturating_add(Duration::from_secs(NO_ROOM_SECONDS)));
                        return Ok(false);
                    }
                    Refusal::Listener => return Err(error),
                },
            }
        }
        Ok(true)
    }

    // One who came waits, unless it is gone already or the system cannot watch it.
    fn admit(&mut self, stream: TcpStream, address: IpAddr, now: Duration) {
        if stream.set_nonblocking(true).is_err() {
            return;
        }
        let token = self.next;
        self.next = token.wrapping_add(1);
        let heard = hear(&stream);
        if heard == Heard::End || heard == Heard::Nothing && self.watch(&stream, token).is_err() {
            return;
        }
        let has_spoken = heard == Heard::Bytes;
        self.waiting
            .admit(Visitor::new(stream, address, now, token, has_spoken));
    }

    // Has the system tell when the first bytes are there.
    fn watch(&self, stream: &TcpStream, token: usize) -> io::Result<()> {
        let stream = stream.as_raw_fd();
        self.poll
            .registry()
            .register(&mut SourceFd(&stream), Token(token), Interest::READABLE)
    }

    // Rests until something happens, or it is time to look, and listens to those of whom the system tells.
    fn rest(&mut self, has_more: bool) -> io::Result<()> {
        let limit = if has_more {
            Some(Duration::ZERO)
        } else {
            self.next_look()?
        };
        self.poll.poll(&mut self.events, limit)?;
        for event in self.events.iter() {
            let Token(token) = event.token();
            if let Some(place) = self.waiting.place_of(token) {
                listen(&mut self.waiting, self.poll.registry(), place);
            }
        }
        Ok(())
    }

    // How long nothing is to be done where nothing happens; none where it is for ever.
    fn next_look(&self) -> io::Result<Option<Duration>> {
        let now = self.rt.monotonic()?;
        let deadline = match (self.waiting.next_deadline(), self.pause) {
            (Some(one), Some(other)) => Some(one.min(other)),
            (one, other) => one.or(other),
        };
        Ok(match deadline {
            Some(at) => Some(self.beats.within(at.saturating_sub(now))),
            None => self.beats.longest(),
        })
    }

    // Drops those who said nothing for too long. Who spoke while nobody kept the lobby stays.
    fn drop_overdue(&mut self) -> io::Result<()> {
        let now = self.rt.monotonic()?;
        for _ in 0..WAITING_MOST {
            let Some(place) = self.waiting.first_overdue(now) else {
                break;
            };
            if listen(&mut self.waiting, self.poll.registry(), place) == Heard::Nothing {
                self.waiting.take(place);
            }
        }
        Ok(())
    }

    // Of those who spoke and may come to a door, the one whose address has the fewest links out, and then the first.
    fn choose(&mut self, place: usize, doors: &AtomicU64) -> Option<Found> {
        let is_last = doors.load(Ordering::SeqCst) <= 1;
        for _ in 0..WAITING_MOST {
            let best = best_place(self.waiting.as_slice(), self.seats.as_slice(), is_last)?;
            let visitor = self.waiting.take(best)?;
            if visitor.stream.set_nonblocking(false).is_ok() {
                if let Some(seat) = self.seats.get_mut(place) {
                    seat.take(visitor.address);
                }
                return Some((visitor.stream, visitor.address));
            }
        }
        None
    }
}

// Listens to the one at that place: who speaks is not watched any more, and who sends nothing any more is dropped.
fn listen(waiting: &mut Waiting, registry: &Registry, place: usize) -> Heard {
    let Some(visitor) = waiting.as_slice().get(place) else {
        return Heard::Nothing;
    };
    let heard = hear(&visitor.stream);
    match heard {
        Heard::Nothing => {}
        Heard::Bytes => {
            let stream = visitor.stream.as_raw_fd();
            let _ = registry.deregister(&mut SourceFd(&stream));
            waiting.mark_spoken(place);
        }
        Heard::End => drop(waiting.take(place)),
    }
    heard
}

// The place of the one who comes next.
fn best_place(waiting: &[Visitor], seats: &[Seat], is_last: bool) -> Option<usize> {
    let all = links_out(seats);
    let mut best = None;
    let mut fewest = usize::MAX;
    for (place, visitor) in waiting.iter().enumerate() {
        if !visitor.has_spoken {
            continue;
        }
        let links = if visitor.address.is_loopback() {
            0
        } else {
            links_to(seats, visitor.address)
        };
        let has_most = links > all.saturating_sub(links);
        if links < fewest && !(is_last && has_most) {
            best = Some(place);
            fewest = links;
        }
    }
    best
}
