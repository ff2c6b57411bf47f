//! What calls answer that may fail and give nothing else.

/// The object failed, and its count of faults rose.
#[derive(Clone, Copy, Debug, PartialEq, Eq)]
pub struct Failed;
