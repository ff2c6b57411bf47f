//! What a slot of the queue has.
ghost use Rattle.std.specs.Prelude.{◌≡◌, ◌+◌};
ghost use Rattle.ldm_model.specs.Product.{extent_of};
ghost use Rattle.ldm_book.specs.Products.{extent_from, kept_extent};
ghost use Rattle.ldm_book.specs.View.{kept_of};

use ldm_types::{Feed, Info, Micros, Signature};
use ldm_xdr::info_len;

/// A product of the queue: its number and its insertion time, where it begins in the arena, and of its metadata what
/// finding, evicting and stepping ask for. The metadata themselves stand in the arena.
#[derive(Clone, Copy)]
pub(crate) struct Row {
    pub(crate) n: u64,
    pub(crate) time: Micros,
    pub(crate) place: u64,
    pub(crate) signature: Signature,
    pub(crate) feed: Feed,
    // Bytes of the metadata.
    pub(crate) head: u32,
    // Bytes of the body.
    pub(crate) size: u32,
}

impl Row {
    ghost use Rattle.ldm_book.specs.RowKept.{kept_row};

    /// The row of a slot that never had a product.
    pub(crate) fn unused() -> Row {
        let Some(time) = Micros::new(0) else {
            unreachable!()
        };
        Row {
            n: 0,
            time,
            place: 0,
            signature: Signature([0; 16]),
            feed: Feed(0),
            head: 0,
            size: 0,
        }
    }

    /// The row of a product with these metadata.
    pub(crate) fn new(n: u64, time: Micros, place: u64, info: &Info) -> Row
        ensures { kept_row result ≡ kept_of n time place info.now }
    {
        Row {
            n,
            time,
            place,
            signature: info.signature(),
            feed: info.feed(),
            head: info_len(info) as u32,
            size: info.size(),
        }
    }

    /// The row of a product with these metadata that a region is reserved for. It has neither number nor time yet.
    pub(crate) fn reserved(place: u64, info: &Info) -> Row
        ensures { kept_row result ≡ kept_of 0 0 place info.now }
    {
        let Some(time) = Micros::new(0) else {
            unreachable!()
        };
        Row::new(0, time, place, info)
    }

    /// The bytes of the arena that the product takes.
    pub(crate) fn extent(&self) -> u64
        ensures { result ≡ kept_extent (kept_row self.now) }
    {
        extent_from(self.head, self.size)
    }
}

/// The bytes of the arena that a product with these metadata takes.
pub(crate) fn extent(info: &Info) -> u64
    ensures { result ≡ extent_of info.now }
{
    extent_from(info_len(info) as u32, info.size())
}

// So many bytes of metadata and of a body, rounded up to a multiple of eight.
fn extent_from(head: u32, size: u32) -> u64
    ensures { result ≡ extent_from head size }
{
    (u64::from(head) + u64::from(size)).div_ceil(8) * 8
}
