//! What is found in a stream.
ghost use Rattle.std.specs.Prelude.{◌≡◌};
ghost use Rattle.ldm_wmo.specs.Items.{enclosed_at, message_at};
ghost use Rattle.ldm_wmo.specs.ItemView.{found_of};

use crate::bulletin::{Reading, read_bulletin};
use crate::frame::is_enclosed;
use crate::heading::LONGEST_HEADING;
use crate::kind::Kind;
use arrayvec::ArrayVec;

/// What is found in a stream. A place is a number of bytes, counted from the stream's first.
#[derive(Debug, Drop)]
pub enum Item<'a> {
    /// A bulletin.
    Bulletin {
        /// Where it begins.
        at: u64,
        /// Its number, which its source counts up.
        seqno: u32,
        /// Its heading: TTAAii CCCC YYGGgg, and perhaps BBB.
        heading: ArrayVec<u8, LONGEST_HEADING>,
        /// All its bytes, from its first to the closing 3.
        bytes: &'a [u8],
    },
    /// A candidate that is no bulletin, or a frame that is none.
    Bad {
        /// Where it begins.
        at: u64,
    },
}

/// What the message of a frame is that begins there and has these bytes.
pub(crate) fn enclosed_at(at: u64, kind: Kind, bytes: &[u8]) -> Item<'_>
    ensures { found_of result ≡ enclosed_at at kind bytes.now }
{
    if is_enclosed(bytes) {
        item_at(at, kind, bytes)
    } else {
        Item::Bad { at }
    }
}

/// What a candidate of that kind is that begins there and has these bytes.
pub(crate) fn item_at(at: u64, kind: Kind, bytes: &[u8]) -> Item<'_>
    ensures { found_of result ≡ message_at at kind bytes.now }
{
    let Some(Reading { seqno, heading }) = read_bulletin(kind, bytes) else {
        return Item::Bad { at };
    };
    match ArrayVec::try_from(heading) {
        Ok(heading) => Item::Bulletin {
            at,
            seqno,
            heading,
            bytes,
        },
        Err(_) => unreachable!(),
    }
}
