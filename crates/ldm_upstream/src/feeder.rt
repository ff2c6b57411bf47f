//! One who feeds a connection.
use ldm_class::{ClassMatcher, HostPolicy};
use ldm_sender::Standing;
use ldm_session::Replies;
use ldm_shared::Reader;
use ldm_types::Micros;

// One who feeds by a cursor that was opened: who asked and for what, where the session stands, what is gathered for the
// peer, and what is heard of it.
#[derive(Drop)]
pub(crate) struct Feeder<'f> {
    pub(crate) reader: Reader,
    // The number of the call that asked, the size of the largest product that is to come whole, and up to which
    // insertion time it asks.
    pub(crate) xid: u32,
    pub(crate) max_hereis: u32,
    pub(crate) to: Micros,
    pub(crate) class: ClassMatcher<'f>,
    pub(crate) rules: HostPolicy<'f>,
    pub(crate) standing: Standing,
    pub(crate) out: Vec<u8>,
    pub(crate) replies: Replies,
}
