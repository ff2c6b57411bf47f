//! Doors, where peers come in.
ghost use Rattle.std.specs.Prelude.{◌≡◌, true, false};
ghost use Rattle.ldm_outside.specs.Door.{DoorRecord};

use crate::link::Link;
use arrayvec::ArrayVec;

/// The longest name of a host that a door gives, in bytes.
pub const LONGEST_HOST: usize = 64;

/// Who came to a door.
#[derive(Drop)]
pub enum Came<L> {
    /// A peer, from a host of that name or address.
    Peer {
        /// The host.
        host: ArrayVec<u8, LONGEST_HOST>,
        /// The link to it, which was not used yet.
        link: L,
    },
    /// Nobody, and nobody comes any more.
    Closed,
    /// Nobody: the door failed, and its count of faults rose.
    Failed,
}

/// Where peers come in, one at a time.
///
/// The link of a peer is given back after its session. Until then no other peer is let in.
pub trait Door {
    ghost use Rattle.ldm_outside.specs.Door.{AcceptGives, DoorTakesBack};

    /// What leads to a peer.
    type Link: Link;

    /// What it tells: how often it failed, how many peers came, how often it was closed, the hosts that came, if it
    /// tells these, and its links: whether one is out, how many were given back that had ended and that had failed, and
    /// what passed on each, if it tells this. A count stands still at the end of `u64`.
    ghost tells: { Self → DoorRecord };

    /// Lets a peer in.
    fn accept(&mut self) -> Came<Self::Link>
        requires { (tells self.old).links.out ≡ false }
        ensures came { AcceptGives Self.Link.tells result (tells self.old) (tells self.new) };

    /// Takes the link of a peer back, which needs no memory.
    ///
    /// What the door tells is of the link that it is handed: to hand it that of the last peer is the caller's part.
    fn give_back(&mut self, link: Self::Link)
        requires { (tells self.old).links.out ≡ true }
        ensures given_back { DoorTakesBack (Self.Link.tells link) (tells self.old) (tells self.new) };
}
