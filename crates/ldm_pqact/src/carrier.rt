//! What carries out what the entries of a pqact.conf choose.

use crate::writer::Writer;
use ldm_outside::Reason;
use ldm_pqact_conf::Entries;
use ldm_types::Signature;
use std::alloc::Global;

// The entries of a pqact.conf, and all that their actions are carried out with.
#[derive(Drop)]
pub(crate) struct Carrier {
    pub(crate) alloc: Global,
    pub(crate) entries: Entries,
    pub(crate) writer: Writer,
    // How many products are left to be given, where there is a count.
    pub(crate) left: Option<u64>,
    // The signature of the last product that the last call was given.
    pub(crate) last: Option<Signature>,
    // The front of the ident of the product in hand.
    pub(crate) in_hand: Reason,
}
