//! The example of ldm_signature.

use ldm_signature::{read_hex, sign};

/// Whether a text spells the signature of a body.
pub fn is_signature_of(text: &[u8], body: &[u8]) -> bool {
    read_hex(text) == Some(sign(body))
}
