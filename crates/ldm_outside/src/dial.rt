//! Dials, which connect to a host.
ghost use Rattle.std.specs.Prelude.{◌≡◌, true, false};
ghost use Rattle.ldm_outside.specs.Dial.{DialRecord};

use crate::link::Link;

/// What a dial connected.
#[derive(Drop)]
pub enum Dialled<L> {
    /// A link, which was not used yet.
    Linked(L),
    /// Nothing: the dial failed, and its count of faults rose.
    Failed,
}

/// What connects to a host, one at a time.
///
/// The link is given back after its session. Until then no other is connected.
pub trait Dial {
    ghost use Rattle.ldm_outside.specs.Dial.{ConnectGives, DialTakesBack};

    /// What leads to a host.
    type Link: Link;

    /// What it tells: how often it failed, whom it was asked for, if it tells this, and its links: whether one is out,
    /// how many were given back that had ended and that had failed, and what passed on each, if it tells this. A count
    /// stands still at the end of `u64`.
    ghost tells: { Self → DialRecord };

    /// Connects to a port of a host, which is a name or an address.
    fn connect(&mut self, host: &[u8], port: u16) -> Dialled<Self::Link>
        requires { (tells self.old).links.out ≡ false }
        ensures dialled { ConnectGives Self.Link.tells result (record { host = host.now; port = port }) (tells self.old)
            (tells self.new) };

    /// Takes a link back, which needs no memory.
    ///
    /// What the dial tells is of the link that it is handed: to hand it the last that it connected is the caller's
    /// part.
    fn give_back(&mut self, link: Self::Link)
        requires { (tells self.old).links.out ≡ true }
        ensures given_back { DialTakesBack (Self.Link.tells link) (tells self.old) (tells self.new) };
}
