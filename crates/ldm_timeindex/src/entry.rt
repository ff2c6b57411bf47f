//! What the index keeps of a product.

use ldm_types::Micros;

/// A product: its number, the instant at which it came in, and the slot that it has.
#[derive(Clone, Copy)]
pub struct Entry {
    pub n: u64,
    pub time: Micros,
    pub slot: u32,
}
