//! One who tells of products.
use ldm_class::{ClassMatcher, HostPolicy};
use ldm_sender::Standing;
use ldm_shared::Reader;
use ldm_types::Micros;

// One who tells of products by a cursor that was opened: who asked and for what, where the session stands, and what is
// gathered for the peer.
#[derive(Drop)]
pub(crate) struct Notifier<'n> {
    pub(crate) reader: Reader,
    // The number of the call that asked, and up to which insertion time it asks.
    pub(crate) xid: u32,
    pub(crate) to: Micros,
    pub(crate) class: ClassMatcher<'n>,
    pub(crate) rules: HostPolicy<'n>,
    pub(crate) standing: Standing,
    pub(crate) out: Vec<u8>,
}
