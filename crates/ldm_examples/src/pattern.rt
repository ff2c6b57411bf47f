//! The example of ldm_pattern.

use ldm_pattern::{Pattern, Refusal};
use std::alloc::Global;

/// Whether a host's name has a pattern. Nothing is found by a pattern that means nothing.
pub fn is_met(alloc: Global, pattern: &[u8], host: &[u8]) -> Result<bool, Refusal> {
    let pattern = Pattern::build(alloc, pattern)?;
    match pattern.is_in(alloc, host) {
        Ok(is_in) => Ok(is_in),
        Err(_) => Err(Refusal::OutOfMemory),
    }
}
