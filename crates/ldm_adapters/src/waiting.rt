//! Those who wait in a lobby until they speak, and then until a door is free for them.
ghost use Rattle.std.specs.Prelude.{◌≡◌, ◌<◌, ◌≤◌, ◌-◌, IfSome, vec_len};

use std::alloc::Global;
use std::net::{IpAddr, TcpStream};
use std::time::Duration;

/// How many connections wait in a lobby at most.
pub const WAITING_MOST: usize = 1_024;

/// How many connections of one address wait in a lobby at most. It does not bind a loopback address.
pub const WAITING_OF_ONE_ADDRESS: usize = 64;

/// How long a connection waits for the first bytes of its peer, in seconds.
pub const FIRST_BYTES_SECONDS: u64 = 10;

/// One that waits.
#[derive(Drop)]
pub struct Visitor {
    pub(crate) stream: TcpStream,
    /// Where it came from; an address of IPv4 as such.
    pub(crate) address: IpAddr,
    /// When it came, since the start of the system's clock.
    pub(crate) came: Duration,
    /// What names it. One that came later has a greater one.
    pub(crate) token: usize,
    /// Whether its first bytes are there.
    pub(crate) has_spoken: bool,
    // How many wait of its address, it among them.
    together: usize,
}

impl Visitor {
    /// Somebody who came at that time.
    pub(crate) fn new(
        stream: TcpStream,
        address: IpAddr,
        came: Duration,
        token: usize,
        has_spoken: bool,
    ) -> Visitor {
        Visitor {
            stream,
            address,
            came,
            token,
            has_spoken,
            together: 0,
        }
    }

    // Until when it is waited for its first bytes.
    fn last(&self) -> Duration {
        self.came
            .saturating_add(Duration::from_secs(FIRST_BYTES_SECONDS))
    }

    // Whether it said nothing for too long.
    fn is_overdue(&self, now: Duration) -> bool {
        !self.has_spoken && self.last() <= now
    }
}

/// Those who wait, in the order in which they came: at most [`WAITING_MOST`].
#[derive(Drop)]
pub struct Waiting {
    all: Vec<Visitor>,
    ghost most: { vec_len all ≤ 1_024 },
}

impl Waiting {
    /// Nobody.
    pub(crate) fn new(alloc: Global) -> Waiting {
        Waiting {
            all: Vec::new(alloc),
        }
    }

    /// One more waits. Where there is no room, another goes first: the oldest of its address, where too many of that
    /// wait; else the oldest of the address of which most wait. Where there is no memory, it is dropped itself.
    pub(crate) fn admit(&mut self, visitor: Visitor) {
        let address = visitor.address;
        self.make_room_beside(address);
        self.make_room();
        let _ = self.all.push(visitor);
        count_together(self.all.as_mut_slice(), address);
    }

    // Room for one more of the address.
    fn make_room_beside(&mut self, address: IpAddr) {
        if address.is_loopback() || count_of(&self.all, address) < WAITING_OF_ONE_ADDRESS {
            return;
        }
        if let Some(oldest) = self.all.iter().position(|one| one.address == address) {
            self.take(oldest);
        }
    }

    // Room for one more.
    fn make_room(&mut self)
        ensures { vec_len self.new.all < 1_024 }
    {
        if self.all.len() < WAITING_MOST {
            return;
        }
        let most = self.all.iter().map(|one| one.together).max().unwrap_or(0);
        match self.all.iter().position(|one| one.together == most) {
            Some(oldest) => drop(self.take(oldest)),
            None => drop(self.take(0)),
        }
    }

    /// Takes the one at that place out.
    pub(crate) fn take(&mut self, place: usize) -> Option<Visitor>
        ensures { place < vec_len self.old.all → vec_len self.new.all ≡ vec_len self.old.all - 1 }
    {
        if place >= self.all.len() {
            return None;
        }
        let visitor = self.all.remove(place);
        count_together(self.all.as_mut_slice(), visitor.address);
        Some(visitor)
    }

    /// The place of the one with that token.
    pub(crate) fn place_of(&self, token: usize) -> Option<usize> {
        self.all.iter().position(|one| one.token == token)
    }

    /// The place of the first who said nothing for too long.
    pub(crate) fn first_overdue(&self, now: Duration) -> Option<usize> {
        self.all.iter().position(|one| one.is_overdue(now))
    }

    /// Until when the first bytes of somebody are waited for; none where nobody is silent.
    pub(crate) fn next_deadline(&self) -> Option<Duration> {
        self.all
            .iter()
            .find(|one| !one.has_spoken)
            .map(|one| one.last())
    }

    /// All of them, in the order in which they came.
    pub(crate) fn as_slice(&self) -> &[Visitor] {
        self.all.as_slice()
    }

    /// The one at that place spoke.
    pub(crate) fn mark_spoken(&mut self, place: usize) {
        if place < self.all.len() {
            self.all[place].has_spoken = true;
        }
    }
}

// How many of them came from the address.
fn count_of(all: &[Visitor], address: IpAddr) -> usize {
    all.iter().filter(|one| one.address == address).count()
}

// Writes at each of the address how many of it wait.
fn count_together(all: &mut [Visitor], address: IpAddr) {
    let together = count_of(all, address);
    for one in all.iter_mut() {
        if one.address == address {
            one.together = together;
        }
    }
}
