//! The example of ldm_words.

use ldm_words::{WordsFault, read_pqmon};
use std::alloc::Global;

/// The port of the node that words ask.
pub fn port_asked(alloc: Global, words: &[String]) -> Result<u16, WordsFault> {
    let asked = read_pqmon(alloc, words)?;
    Ok(asked.peer.port)
}
