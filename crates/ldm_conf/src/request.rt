//! What a REQUEST line asks for.
ghost use Rattle.std.specs.Prelude.{◌<◌, length};

use crate::limits::LONGEST_HOST_NAME;
use crate::transfer::Transfer;
use arrayvec::ArrayVec;
use ldm_class::Class;

/// What a REQUEST line asks for.
#[derive(Drop)]
pub struct Request {
    /// One specification, of all times.
    pub class: Class,
    /// The host, of 1 to 255 bytes.
    pub host: ArrayVec<u8, LONGEST_HOST_NAME>,
    /// The port, at least 1.
    pub port: u16,
    /// How the products are to come.
    pub transfer: Transfer,
    pub ghost host_some: { 0 < length host.items },
    pub ghost port_some: { 0 < port },
}
