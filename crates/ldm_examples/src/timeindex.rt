//! The example of ldm_timeindex.

use ldm_timeindex::TimeIndex;
use ldm_types::{Micros, OutOfMemory};
use std::alloc::Global;

/// An index with room for 64 products, with one that came in at that instant.
pub fn with_one(alloc: Global, time: Micros) -> Result<TimeIndex, OutOfMemory> {
    let mut index = TimeIndex::create(alloc, 64)?;
    index.push(5, time, 7);
    Ok(index)
}
