//! How a connection goes on behind a record.
use ldm_class::Class;
use ldm_relay::{Feedme, Notifyme};
use ldm_types::OutOfMemory;
use thiserror::Error;

/// How a connection goes on behind a record. What the peer is owed was appended.
#[derive(Drop)]
pub enum Responded {
    /// The next record is read.
    GoesOn,
    /// From now on a feeding, which answers the request. Each pattern of its class means something; none is built yet.
    Feeds { ask: Feedme },
    /// From now on a receiving of what the peer pushes. The class is built of the one that the peer offered.
    Receives { class: Class },
    /// From now on a notifying, which answers the request. Each pattern of its class means something; none is built
    /// yet.
    Notifies { ask: Notifyme },
    /// The record is refused.
    Refused,
    /// The ACCEPT rules leave nothing of what the peer offered: the number of the first rule about the host, or 0 for
    /// none.
    Denied { rule: u64 },
}

/// Why a record was not responded to. Nothing was appended, and no call was made.
#[derive(Clone, Copy, Debug, PartialEq, Eq, Error)]
pub enum RespondFault {
    /// The queue has had all the calls that it can have.
    #[error("the queue is worn")]
    Worn,
    /// There is no memory.
    #[error("no memory")]
    OutOfMemory,
}

impl From<OutOfMemory> for RespondFault {
    ghost use Rattle.std.specs.Prelude.{◌≡◌};
    ghost use Rattle.ldm_serve.specs.declared.responded.RespondFault.TheVariants as fault;

    ghost from_gives = { λ _ why. why ≡ fault.OutOfMemory };

    fn from(_error: OutOfMemory) -> RespondFault {
        RespondFault::OutOfMemory
    }
}
