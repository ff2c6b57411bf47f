//! Where in a stream a scanner is.
use crate::kind::Kind;

/// The most bytes of a bulletin, in all.
pub const LARGEST_BULLETIN: usize = 1_048_576;

/// Where in a stream a scanner is.
#[derive(Clone, Copy, Debug)]
pub enum Stage {
    /// Outside candidates.
    Outside,
    /// In a candidate that is open.
    Within {
        /// Where it begins.
        at: u64,
    },
    /// Behind a candidate that has ended.
    Complete {
        /// Where it begins.
        at: u64,
    },
    /// In a stream of frames.
    Framed(FrameStage),
}

/// Where in a stream of frames a scanner is.
#[derive(Clone, Copy, Debug)]
pub enum FrameStage {
    /// Before a frame.
    Between,
    /// In the length and the type of a message.
    Head {
        /// Where its frame begins.
        at: u64,
    },
    /// In a message.
    Body {
        /// Where its frame begins.
        at: u64,
        /// How many of its bytes have not come yet.
        left: usize,
        /// What its text is.
        kind: Kind,
    },
    /// Behind a message.
    Whole {
        /// Where its frame begins.
        at: u64,
        /// What its text is.
        kind: Kind,
    },
    /// Behind ten bytes that are no length and type.
    Unread {
        /// Where they begin.
        at: u64,
    },
    /// Behind a frame that is none: where the next one begins is not known.
    Lost,
}
