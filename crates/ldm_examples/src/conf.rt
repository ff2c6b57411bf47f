//! The example of ldm_conf.

use ldm_conf::{ConfFault, read_conf};
use ldm_outside::Store;
use std::alloc::Global;

/// How many hosts a node asks.
pub fn count_requests<F: Store>(
    alloc: Global,
    text: &[u8],
    store: &mut F,
) -> Result<usize, ConfFault> {
    let conf = read_conf(alloc, text, store)?;
    Ok(conf.requests.len())
}
