//! The example of ldm_types.

ghost use Rattle.std.specs.Prelude.{◌≡◌, IfOk};

use ldm_types::{Feed, Info, InfoFault, Micros, Signature};

/// The metadata of a product without a body, from the host `relay`.
pub fn empty_product(arrival: Micros, signature: Signature) -> Result<Info, InfoFault>
    ensures { IfOk result (λ info. info.size ≡ 0) }
{
    Info::new(arrival, signature, b"relay", Feed(1), 0, b"EMPTY", 0)
}
