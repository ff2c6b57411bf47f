//! Which doors of a lobby have a link out, and to whom.

use std::alloc::{AllocError, Global};
use std::net::{IpAddr, Ipv4Addr};
use std::sync::Arc;
use std::sync::atomic::{AtomicBool, Ordering};

/// One door, as the others see it.
#[derive(Drop)]
pub struct Seat {
    is_out: Arc<AtomicBool>,
    // Where the peer of its last link came from.
    address: IpAddr,
}

impl Seat {
    /// A door whose link was never out.
    pub(crate) fn new(alloc: Global) -> Result<Seat, AllocError> {
        Ok(Seat {
            is_out: Arc::new(alloc, AtomicBool::new(false))?,
            address: IpAddr::V4(Ipv4Addr::UNSPECIFIED),
        })
    }

    /// The same door, for itself.
    pub(crate) fn share(&self) -> Result<Seat, AllocError> {
        Ok(Seat {
            is_out: Arc::try_clone(&self.is_out)?,
            address: self.address,
        })
    }

    /// Its link to a peer of that address is out from now on.
    pub(crate) fn take(&mut self, address: IpAddr) {
        self.address = address;
        self.is_out.store(true, Ordering::SeqCst);
    }

    /// Its link is out no more.
    pub(crate) fn leave(&self) {
        self.is_out.store(false, Ordering::SeqCst);
    }

    fn is_out(&self) -> bool {
        self.is_out.load(Ordering::SeqCst)
    }
}

/// How many links are out.
pub(crate) fn links_out(seats: &[Seat]) -> usize {
    seats.iter().filter(|seat| seat.is_out()).count()
}

/// How many of them lead to peers of the address.
pub(crate) fn links_to(seats: &[Seat], address: IpAddr) -> usize {
    seats
        .iter()
        .filter(|seat| seat.is_out() && seat.address == address)
        .count()
}
