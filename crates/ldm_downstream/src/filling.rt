//! Receiving straight into the record in hand.
ghost use Rattle.std.specs.Prelude.{◌≡◌};
ghost use Rattle.ldm_outside.specs.Link.{IsNotClosed};
ghost use Rattle.ldm_downstream.specs.Filling.{Receives};

use ldm_outside::{Awaited, Got, Link};
use ldm_rpc::Filler;

/// Receives from a link where a record is kept: what puts the bytes of a [`Link`] into the record of an
/// [`ldm_rpc::KeptRecords`].
#[derive(Clone, Copy)]
pub struct Receiving {
    awaited: Awaited,
    got: Got,
}

impl Receiving {
    /// It receives what is awaited so.
    pub fn of(awaited: Awaited) -> Receiving {
        Receiving {
            awaited,
            got: Got::Failed,
        }
    }

    /// What the link gave at the last call.
    pub fn got(&self) -> Got
        ensures { result ≡ self.now.got }
    {
        self.got
    }
}

impl<K: Link> Filler<K> for Receiving {
    ghost can_fill = { λ link. IsNotClosed (K.tells link) };

    ghost gives = { λ _ old bytes receiving new. Receives receiving.got bytes (K.tells old) (K.tells new) };

    fn fill(&mut self, link: &mut K, into: &mut [u8]) -> usize {
        self.got = link.recv(into, self.awaited);
        match self.got {
            Got::Bytes(count) => count,
            Got::End | Got::Failed => 0,
        }
    }
}
