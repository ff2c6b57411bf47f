//! Where in a record a reader is.

ghost use Rattle.std.specs.Prelude.{◌≡◌};
ghost use Rattle.ldm_rpc.specs.Reading.{stage_before};

use crate::fault::RpcFault;

/// The bit of a fragment header that marks the last fragment of its record.
pub const LAST_FRAGMENT: u32 = 0x8000_0000;

/// Where in a record a reader is.
#[derive(Clone, Copy, Debug)]
pub enum Stage {
    /// In a fragment header, of which fewer than four bytes came.
    Header {
        /// How many came.
        came: u8,
        /// These bytes as a number, the highest first.
        number: u32,
    },
    /// In the bytes of a fragment.
    Fragment {
        /// How many of them are still to come: at least one.
        left: u32,
        /// Whether it is the last fragment of its record.
        last: bool,
    },
    /// Behind the last fragment.
    Whole,
    /// The stream is read no further.
    Faulty(RpcFault),
}

/// The stage before so many bytes of a fragment.
pub(crate) fn stage_before(left: u32, last: bool) -> Stage
    ensures { result ≡ stage_before left last }
{
    if left > 0 {
        return Stage::Fragment { left, last };
    }
    if last {
        Stage::Whole
    } else {
        Stage::Header { came: 0, number: 0 }
    }
}
