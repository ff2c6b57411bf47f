//! The metadata of a product.
ghost use Rattle.std.specs.Prelude.{◌≡◌, ◌≤◌, ◌==◌, ◌++◌, MatchResult, Some, None, position};
ghost use Rattle.ldm_types.specs.Info.{Metadata, TextsFit, texts_fault};

use crate::feed::Feed;
use crate::limits::{LONGEST_IDENT, LONGEST_ORIGIN};
use crate::micros::Micros;
use crate::signature::Signature;
use crate::texts::copied;
use arrayvec::ArrayVec;
use std::alloc::AllocError;
use std::marker::Model;
use thiserror::Error;

/// Why there is no such metadata. The faults are tested in this order.
#[derive(Clone, Copy, Debug, PartialEq, Eq, Error)]
pub enum InfoFault {
    /// The origin has more than 64 bytes.
    #[error("the origin has more than 64 bytes")]
    OriginLong,
    /// The ident has more than 255 bytes.
    #[error("the ident has more than 255 bytes")]
    IdentLong,
    /// A zero byte stands in the origin or the ident.
    #[error("a zero byte at {at}")]
    NulByte {
        /// The place of the first one, counted from 0 in the origin followed by the ident.
        at: usize,
    },
}

/// The metadata of a product.
///
/// The origin has at most 64 bytes and the ident at most 255. Neither has a zero byte. The other fields have
/// any value of their types.
#[derive(Debug, Drop)]
pub struct Info {
    arrival: Micros,
    signature: Signature,
    origin: ArrayVec<u8, LONGEST_ORIGIN>,
    feed: Feed,
    seqno: u32,
    ident: ArrayVec<u8, LONGEST_IDENT>,
    size: u32,
}

impl Model for Info {
    ghost use Rattle.ldm_types.specs.Info.{Metadata, TextsFit};

    ghost Value = { Metadata };

    ghost use Rattle.ldm_types.specs.InfoView.{metadata_of};

    ghost view = { metadata_of };

    ghost invariant = { λ info. TextsFit (metadata_of info) };
}

impl Info {
    /// The metadata with these fields, or the first fault of the two texts, in the order of [`InfoFault`].
    ///
    /// `size` is the bytes of the body.
    pub fn new(
        arrival: Micros,
        signature: Signature,
        origin: &[u8],
        feed: Feed,
        seqno: u32,
        ident: &[u8],
        size: u32,
    ) -> Result<Info, InfoFault>
        ensures { MatchResult result
            (λ info. (texts_fault origin.now ident.now ≡ None)
            × (info ≡ record {
              arrival = arrival;
              signature = signature.0;
              origin = origin.now;
              feed = feed.0;
              seqno
                  = seqno;
              ident = ident.now;
              size = size;
            }))
            (λ fault. texts_fault origin.now ident.now ≡ Some fault) }
    {
        let Ok(origin_kept) = ArrayVec::try_from(origin) else {
            return Err(InfoFault::OriginLong);
        };
        let Ok(ident_kept) = ArrayVec::try_from(ident) else {
            return Err(InfoFault::IdentLong);
        };
        if let Some(at) = nul_byte(origin, ident) {
            return Err(InfoFault::NulByte { at });
        }
        Ok(Info {
            arrival,
            signature,
            origin: origin_kept,
            feed,
            seqno,
            ident: ident_kept,
            size,
        })
    }

    /// When the product arrived where it entered the system.
    pub fn arrival(&self) -> Micros
        ensures { result ≡ self.now.arrival }
    {
        self.arrival
    }

    /// What tells the product apart from others.
    pub fn signature(&self) -> Signature
        ensures { result.0 ≡ self.now.signature }
    {
        self.signature
    }

    /// The host at which the product entered the system, without a zero byte, at most 64 bytes.
    pub fn origin(&self) -> &[u8]
        ensures value { result.now ≡ self.now.origin }
        ensures bounds { TextsFit self.now }
    {
        self.origin.as_slice()
    }

    /// The feedtypes of the product.
    pub fn feed(&self) -> Feed
        ensures { result.0 ≡ self.now.feed }
    {
        self.feed
    }

    /// The sequence number that its source gave the product.
    pub fn seqno(&self) -> u32
        ensures { result ≡ self.now.seqno }
    {
        self.seqno
    }

    /// The product identifier, without a zero byte, at most 255 bytes.
    pub fn ident(&self) -> &[u8]
        ensures value { result.now ≡ self.now.ident }
        ensures bounds { TextsFit self.now }
    {
        self.ident.as_slice()
    }

    /// Bytes of the body.
    pub fn size(&self) -> u32
        ensures { result ≡ self.now.size }
    {
        self.size
    }

    /// The same metadata once more. It takes no memory.
    pub fn copy(&self) -> Info
        ensures { result ≡ self.now }
    {
        Info {
            arrival: self.arrival,
            signature: self.signature,
            origin: copied(&self.origin),
            feed: self.feed,
            seqno: self.seqno,
            ident: copied(&self.ident),
            size: self.size,
        }
    }
}

impl Clone for Info {
    ghost is_clone = { λ info copy. copy ≡ info };

    ghost is_infallible = { λ _. Unit {0} };

    fn clone(&self) -> Result<Info, AllocError> {
        Ok(self.copy())
    }
}

// The place of the first zero byte of two texts, one behind the other.
fn nul_byte(origin: &[u8], ident: &[u8]) -> Option<usize>
    ensures { result ≡ position (λ byte. byte == 0) (origin.now ++ ident.now) }
{
    origin
        .iter()
        .chain(ident.iter())
        .position(|byte| *byte == 0)
}
