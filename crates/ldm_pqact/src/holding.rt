//! A product that a cursor holds.

use ldm_shared::{Held, Reader};

// A product that a cursor gave, and holds.
#[derive(Drop)]
pub(crate) struct Holding {
    pub(crate) reader: Reader,
    pub(crate) held: Held,
}
