//! The example of ldm_class.

use ldm_class::{Class, Policy, Verdict};
use ldm_types::{Info, OutOfMemory};
use std::alloc::Global;

/// How many of these products go to a host that asked for a class.
pub fn count_due(
    alloc: Global,
    policy: &Policy,
    host: &[u8],
    class: &Class,
    products: &[Info],
) -> Result<u32, OutOfMemory> {
    let mut class = class.matcher(alloc)?;
    let mut policy = policy.for_host(alloc, host, false)?;
    let mut due = 0u32;
    for info in products {
        if class.wants(info) && matches!(policy.verdict(info), Verdict::Yes { .. }) {
            due = due.saturating_add(1);
        }
    }
    Ok(due)
}
