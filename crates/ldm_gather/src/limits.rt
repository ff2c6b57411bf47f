//! The queue of a tool that receives.

/// The bytes of the arena of its queue.
pub const ARENA: u64 = 67_108_864;

/// The product slots of its queue.
pub const SLOTS: u32 = 16_384;

/// The passes of its queue.
pub const PASSES: u32 = 1;

/// The most bytes of a product that is to come in one message: larger ones are to come in blocks.
pub const LARGEST_HEREIS: u32 = 16_384;

/// Every feedtype, one bit each.
pub const EVERY_FEEDTYPE: u32 = u32::MAX;
