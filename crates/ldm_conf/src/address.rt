//! A node to ask.
ghost use Rattle.std.specs.Prelude.{◌<◌, length};

use crate::limits::LONGEST_HOST_NAME;
use arrayvec::ArrayVec;

/// A host, and the port to ask it at.
#[derive(Drop)]
pub struct Address {
    /// The host, a name or an address, of 1 to 255 bytes.
    pub host: ArrayVec<u8, LONGEST_HOST_NAME>,
    /// The port, at least 1.
    pub port: u16,
    pub ghost host_some: { 0 < length host.items },
    pub ghost port_some: { 0 < port },
}
