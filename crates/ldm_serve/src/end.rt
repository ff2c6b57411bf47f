//! How a connection ends.

use ldm_intake::RecvEnd;
use ldm_notify::NoteEnd;
use ldm_outside::LinkFailed;
use ldm_sender::SendEnd;

/// How serving a connection ended.
#[derive(Drop)]
pub enum ServeEnd {
    /// It became a feeding, which ended so.
    Feed(SendEnd),
    /// It became a receiving of what the peer pushed, which ended so.
    Receive(RecvEnd),
    /// It became a session of notices, which ended so.
    Notify(NoteEnd),
    /// The peer ended the stream behind a record.
    Ended,
    /// The peer ended the stream within a record.
    Truncated {
        /// How many bytes came.
        at: u64,
    },
    /// A record is refused, or is longer than the largest one.
    BadFrame {
        /// How many bytes came before it.
        at: u64,
    },
    /// The ACCEPT rules leave nothing of what the peer offered.
    Denied {
        /// The number of the first ACCEPT rule that is about the host, or 0 where there is none.
        rule: u64,
    },
    /// The link failed, and its count of faults rose.
    LinkFault,
    /// As many bytes came as are taken of a stream.
    StreamLimit,
    /// The queue has had all the calls that it can have.
    Worn,
    /// There is no memory.
    OutOfMemory,
}

impl From<LinkFailed> for ServeEnd {
    ghost use Rattle.std.specs.Prelude.{◌≡◌};
    ghost use Rattle.ldm_serve.specs.declared.end.ServeEnd.TheVariants as end;

    ghost from_gives = { λ _ result. result ≡ end.LinkFault };

    fn from(_error: LinkFailed) -> ServeEnd {
        ServeEnd::LinkFault
    }
}
