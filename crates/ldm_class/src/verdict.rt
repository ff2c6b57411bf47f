//! Whether rules let a product pass.
ghost use Rattle.std.specs.Prelude.{◌≡◌, IfOk};
ghost use Rattle.ldm_class.specs.Access.{verdict};

use crate::answers::Verdict;
use crate::rule::Rule;
use ldm_types::{Info, OutOfMemory};
use std::alloc::Global;

/// The verdict of these rules on a host and a product. The feedtypes are asked first, then the host, then the ident.
pub fn verdict_of(
    alloc: Global,
    rules: &[Rule],
    host: &[u8],
    info: &Info,
) -> Result<Verdict, OutOfMemory>
    ensures { IfOk result (λ answer. answer ≡ verdict rules.now host.now info.now) }
{
    let mut first_met = None;
    for (place, rule) in rules.iter().enumerate() {
        if rule.meets(alloc, host, info)? {
            let number = place as u64 + 1;
            if rule.passes(alloc, info)? {
                return Ok(Verdict::Yes { rule: number });
            }
            first_met = first_met.or(Some(number));
        }
    }
    Ok(Verdict::No {
        rule: first_met.unwrap_or(0),
    })
}
