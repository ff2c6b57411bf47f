//! Where bulletins go, and what their products have in common.
use crate::framing::Framing;
use ldm_types::Feed;

/// Where the bulletins of a stream go, and what their products have in common.
#[derive(Clone, Copy, Debug)]
pub struct Ingestion<'a> {
    /// How they stand in the stream.
    pub framing: Framing,
    /// The host of the node: a name or an address.
    pub host: &'a [u8],
    /// Its port.
    pub port: u16,
    /// The feedtypes of the products.
    pub feed: Feed,
    /// The origin of the products, at most 64 bytes.
    pub origin: &'a [u8],
}
