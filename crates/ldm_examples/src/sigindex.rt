//! The example of ldm_sigindex.

use ldm_sigindex::SigIndex;
use ldm_types::{OutOfMemory, Signature};
use std::alloc::Global;

/// An index of 64 slots, of which slot 7 has a product.
pub fn with_one(alloc: Global, signature: Signature) -> Result<SigIndex, OutOfMemory> {
    let mut index = SigIndex::create(alloc, 64)?;
    index.put(signature, 7);
    Ok(index)
}
