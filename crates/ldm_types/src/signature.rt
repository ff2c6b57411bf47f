//! Signatures.

/// The 16 bytes that tell products apart: usually the MD5 digest of the body (RFC 1321).
#[derive(Clone, Copy, Debug, PartialEq, Eq, PartialOrd, Ord, Hash)]
pub struct Signature(pub [u8; 16]);
