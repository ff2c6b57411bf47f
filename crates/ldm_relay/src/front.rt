//! What the front of a call says by itself.
ghost use Rattle.std.specs.Prelude.{◌≡◌};
ghost use Rattle.ldm_relay.specs.Fronts.{front_of, feed_front_of};

use crate::header::{called, read_call_header};
use crate::procedure::Procedure;
use ldm_types::Info;
use ldm_xdr::Fields;

/// The most bytes of the content of a call that carries no bytes of a product.
///
/// The header has at most 840 bytes, with a credential and a verifier of 400 bytes each; a class has at most 32
/// specifications, whose patterns have at most 255 bytes each. So the longest FEEDME has less than 9,400.
pub const LONGEST_CALL: u32 = 10_240;

/// The most bytes of the content of a BLKDATA.
///
/// The header has at most 840 bytes; a signature, two numbers and a block of 16,384 bytes follow it.
pub const LONGEST_BLOCK_CALL: u32 = 20_480;

/// What a call begins with.
#[derive(Drop)]
pub enum CallFront {
    /// A PUT, with metadata that can be read.
    Put {
        /// The number of the call.
        xid: u32,
        /// The metadata of the product.
        info: Info,
    },
    /// A HEREIS or a BLKDATA, which carry bytes of a product.
    Carries,
    /// None of these: another procedure, a PUT without metadata, or no call of this program.
    Other,
}

/// What the content of a record begins with. No more of it is read than the header, and of a PUT the metadata: the body
/// may be cut short, and anything may follow.
#[tactic(auto, unfolding(crate::specs::Fronts::front_of))]
pub fn read_call_front(bytes: &[u8]) -> CallFront
    ensures { result ≡ front_of bytes.now }
{
    let mut fields = Fields::of(bytes);
    let Ok(header) = read_call_header(&mut fields) else {
        return CallFront::Other;
    };
    match called(header) {
        Ok(Procedure::Put) => match fields.info() {
            Ok(info) => CallFront::Put {
                xid: header.xid,
                info,
            },
            Err(_) => CallFront::Other,
        },
        Ok(Procedure::Hereis | Procedure::Blkdata) => CallFront::Carries,
        _ => CallFront::Other,
    }
}

/// What a record of a feed begins with.
#[derive(Clone, Copy, Debug, PartialEq, Eq)]
pub enum FeedFront {
    /// A HEREIS.
    Hereis,
    /// A BLKDATA.
    Blkdata,
    /// Another call, or none: it carries no bytes of a product.
    Other,
}

/// What the content of a record of a feed begins with. No more of it is read than the header of a call.
#[tactic(auto, unfolding(crate::specs::Fronts::feed_front_of))]
pub fn read_feed_front(bytes: &[u8]) -> FeedFront
    ensures { result ≡ feed_front_of bytes.now }
{
    let mut fields = Fields::of(bytes);
    let Ok(header) = read_call_header(&mut fields) else {
        return FeedFront::Other;
    };
    match called(header) {
        Ok(Procedure::Hereis) => FeedFront::Hereis,
        Ok(Procedure::Blkdata) => FeedFront::Blkdata,
        _ => FeedFront::Other,
    }
}
