//! A product that a cursor holds.
use ldm_shared::{Held, Reader};

// A product, and the cursor that holds it.
#[derive(Drop)]
pub(crate) struct Lent<'h> {
    pub(crate) reader: Reader,
    pub(crate) held: &'h Held,
}

// A part of the body of such a product, and the number of the block that it is.
#[derive(Drop)]
pub(crate) struct Part<'h> {
    pub(crate) lent: Lent<'h>,
    pub(crate) offset: u32,
    pub(crate) number: u32,
    pub(crate) len: u32,
}
