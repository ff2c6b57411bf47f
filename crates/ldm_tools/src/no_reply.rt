//! Why a reply was not heard.
ghost use Rattle.std.specs.Prelude.{◌≡◌};
ghost use Rattle.ldm_tools.specs.Replies.{no_reply_of};

use crate::reader::NoRecord;

/// Why the reply to a call was not heard.
#[derive(Clone, Copy, Debug, PartialEq, Eq)]
pub enum NoReply {
    /// The peer ended the stream after `at` bytes; or the record that begins at byte `at` of it is not the reply, or is
    /// longer than a reply may be.
    BadFrame { at: u64 },
    /// As many bytes came as are taken of a stream.
    StreamLimit,
    /// The link failed, and its count of faults rose.
    LinkFault,
    /// There is no memory.
    OutOfMemory,
}

/// Where no record was heard, there is no reply.
pub(crate) fn no_reply(why: NoRecord) -> NoReply
    ensures { result ≡ no_reply_of why }
{
    match why {
        NoRecord::Ended { at } => NoReply::BadFrame { at },
        NoRecord::TooLong { at } => NoReply::BadFrame { at },
        NoRecord::StreamLimit => NoReply::StreamLimit,
        NoRecord::LinkFault => NoReply::LinkFault,
        NoRecord::OutOfMemory => NoReply::OutOfMemory,
    }
}
