//! How much is kept of a record.

use ldm_relay::{FeedFront, LARGEST_RECORD, LONGEST_BLOCK_CALL, LONGEST_CALL, read_feed_front};
use ldm_rpc::Keeper;

/// Keeps of each record no more than receiving it takes: all bytes of a product, or of a block, and of any other record
/// no more than the longest one that is read.
#[derive(Clone, Copy, Debug, PartialEq, Eq)]
pub(crate) enum RecordKeeper {
    /// The reply to a request is owed.
    Answer,
    /// The records are those of a feed.
    Feed,
}

impl RecordKeeper {
    /// That of the next record.
    pub(crate) fn of(is_feeding: bool) -> RecordKeeper {
        if is_feeding {
            RecordKeeper::Feed
        } else {
            RecordKeeper::Answer
        }
    }
}

impl Keeper for RecordKeeper {
    fn most_kept(&mut self, front: &[u8]) -> u64 {
        let most = match self {
            RecordKeeper::Answer => LONGEST_CALL,
            RecordKeeper::Feed => match read_feed_front(front) {
                FeedFront::Hereis => LARGEST_RECORD,
                FeedFront::Blkdata => LONGEST_BLOCK_CALL,
                FeedFront::Other => LONGEST_CALL,
            },
        };
        u64::from(most)
    }
}
