//! How the sending end of a session ends.

use ldm_outside::{LinkFailed, SinkFailed};
use ldm_session::NoReply;
use ldm_types::OutOfMemory;
use std::alloc::AllocError;

/// How the sending end of a session ends. One who tells of products awaits no reply, so it meets neither
/// [`SendEnd::PeerEnd`] nor [`SendEnd::BadReply`].
#[derive(Clone, Copy, Debug, PartialEq, Eq)]
pub enum SendEnd {
    /// The cursor came to the end of the queue, and the gate said to stop. The link is closed.
    Stopped,
    /// A part of the class is left to the host, and it was told which.
    Reclassed,
    /// Nothing of the class is left to the host.
    Denied {
        /// The number of the first ALLOW rule that is about the host, or 0 where there is none.
        rule: u64,
    },
    /// The peer ended the stream where a reply was owed.
    PeerEnd {
        /// How many bytes came, or 2^64 - 1 where they are more.
        at: u64,
    },
    /// The link failed, and its count of faults rose.
    LinkFault,
    /// The log failed, and its count of faults rose.
    LogFault,
    /// A record is not the reply that is owed.
    BadReply {
        /// How many bytes came before it, or 2^64 - 1 where they are more.
        at: u64,
    },
    /// All cursors are taken.
    AllBusy,
    /// The queue has had all the calls that it can have.
    Worn,
    /// There is no memory.
    OutOfMemory,
}

impl From<OutOfMemory> for SendEnd {
    ghost use Rattle.std.specs.Prelude.{◌≡◌};
    ghost use Rattle.ldm_sender.specs.declared.end.SendEnd.TheVariants as end;

    ghost from_gives = { λ _ result. result ≡ end.OutOfMemory };

    fn from(_error: OutOfMemory) -> SendEnd {
        SendEnd::OutOfMemory
    }
}

impl From<AllocError> for SendEnd {
    ghost use Rattle.std.specs.Prelude.{◌≡◌};
    ghost use Rattle.ldm_sender.specs.declared.end.SendEnd.TheVariants as end;

    ghost from_gives = { λ _ result. result ≡ end.OutOfMemory };

    fn from(_error: AllocError) -> SendEnd {
        SendEnd::OutOfMemory
    }
}

impl From<LinkFailed> for SendEnd {
    ghost use Rattle.std.specs.Prelude.{◌≡◌};
    ghost use Rattle.ldm_sender.specs.declared.end.SendEnd.TheVariants as end;

    ghost from_gives = { λ _ result. result ≡ end.LinkFault };

    fn from(_error: LinkFailed) -> SendEnd {
        SendEnd::LinkFault
    }
}

impl From<SinkFailed> for SendEnd {
    ghost use Rattle.std.specs.Prelude.{◌≡◌};
    ghost use Rattle.ldm_sender.specs.declared.end.SendEnd.TheVariants as end;

    ghost from_gives = { λ _ result. result ≡ end.LogFault };

    fn from(_error: SinkFailed) -> SendEnd {
        SendEnd::LogFault
    }
}

impl From<NoReply> for SendEnd {
    ghost use Rattle.std.specs.Prelude.{◌≡◌};
    ghost use Rattle.ldm_sender.specs.NoReplyEnd.{end_of};

    ghost from_gives = { λ error result. result ≡ end_of error };

    fn from(error: NoReply) -> SendEnd {
        match error {
            NoReply::PeerEnd { at } => SendEnd::PeerEnd { at },
            NoReply::BadReply { at } => SendEnd::BadReply { at },
            NoReply::LinkFault => SendEnd::LinkFault,
            NoReply::OutOfMemory => SendEnd::OutOfMemory,
        }
    }
}
