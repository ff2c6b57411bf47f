//! The example of ldm_pqact_match.

use ldm_pqact_conf::Entries;
use ldm_pqact_match::{Decision, choose};
use ldm_types::{Info, Micros, OutOfMemory};
use std::alloc::Global;

/// How many actions are to be done for a product.
pub fn count_actions(
    alloc: Global,
    entries: &Entries,
    info: &Info,
    time: Micros,
) -> Result<usize, OutOfMemory> {
    let chosen = choose(alloc, entries, info, time)?;
    Ok(
        chosen
            .iter()
            .filter(|chosen| matches!(chosen.decision, Decision::Act(_)))
            .count(),
    )
}
