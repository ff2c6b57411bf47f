//! What is asked for.

use ldm_class::Class;
use ldm_types::Signature;

/// Whom to ask for which products, for how many of them, and the sizes of the queue of one's own that they come into.
#[derive(Clone, Copy)]
pub struct Order<'a> {
    /// The host of the node: a name or an address.
    pub host: &'a [u8],
    /// Its port.
    pub port: u16,
    /// The class of the products.
    pub class: &'a Class,
    /// The signature of the last product that was received before, if one was: the peer begins behind it, where it has
    /// that queued still.
    pub last: Option<Signature>,
    /// How many products are to be given, 1 at least. Where there is no count, all are.
    pub count: Option<u64>,
    /// The bytes of the arena of the queue, as [`ARENA`](crate::ARENA).
    pub arena: u64,
    /// The product slots of the queue, as [`SLOTS`](crate::SLOTS).
    pub slots: u32,
}

/// An order, and the name by which losses are logged.
#[derive(Clone, Copy)]
pub struct Asking<'a> {
    pub order: Order<'a>,
    /// As `gap NAME COUNT FIRST LAST`.
    pub name: &'a [u8],
}
