//! How much is kept of a record.
ghost use Rattle.std.specs.Prelude.{◌≡◌};
ghost use Rattle.ldm_serve.specs.Respond.{longest_put};

use crate::client::Client;
use crate::front::front_in;
use ldm_relay::{CallFront, LONGEST_CALL, read_call_front};
use ldm_rpc::Keeper;

/// The most bytes of the content of a HEREIS or a BLKDATA that is read where it has no place: the largest block fits.
pub const LONGEST_CARRIED: u32 = 65_536;

/// Of each record no more is kept than its answer needs: of a PUT that the rules let the host make, and for which there
/// is room in the arena, as many bytes as it announces; of a HEREIS or a BLKDATA [`LONGEST_CARRIED`]; of any other
/// record as many as the longest call has.
///
/// Without memory to ask the rules it is as if they let the host make a PUT: they are asked again for the answer.
impl Keeper for Client<'_> {
    fn most_kept(&mut self, front: &[u8]) -> u64
        ensures same { self.new ≡ self.old }
    {
        match read_call_front(front_in(front)) {
            CallFront::Put { xid: _, info } => match self.front_answer(&info) {
                Ok(Some(_)) => u64::from(LONGEST_CALL),
                _ => longest_put(info.size()),
            },
            CallFront::Carries => u64::from(LONGEST_CARRIED),
            CallFront::Other => u64::from(LONGEST_CALL),
        }
    }
}

/// The most bytes of the content of a PUT with a body of that size: it has no more in front of its body than the
/// longest call, and up to four bytes of padding.
pub(crate) fn longest_put(size: u32) -> u64
    ensures { result ≡ longest_put size }
{
    u64::from(LONGEST_CALL) + u64::from(size) + 4
}
