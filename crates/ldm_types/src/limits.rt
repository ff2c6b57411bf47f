//! The limits that every part of the program keeps.

/// The greatest instant: microseconds since the beginning of 1970, UTC. The next one has seconds of more than 32 bits.
pub const GREATEST_INSTANT: u64 = 4_294_967_295_999_999;

/// The smallest arena of a queue, in bytes.
pub const SMALLEST_ARENA: u64 = 64;

/// The largest arena of a queue, in bytes.
pub const LARGEST_ARENA: u64 = 1_073_741_824;

/// Arenas, and the extents and places of products in them, are multiples of so many bytes.
pub const ARENA_UNIT: u64 = 8;

/// The most slots of a queue, and so the most products that it can have at a time.
pub const MOST_SLOTS: u32 = 1_048_576;

/// The most bytes of the host at which a product entered the system.
pub const LONGEST_ORIGIN: usize = 64;

/// The most bytes of a product identifier.
pub const LONGEST_IDENT: usize = 255;

/// The most bytes of a pattern of a class.
pub const LONGEST_PATTERN: usize = 255;

/// The most specifications of a class.
pub const MOST_SPECS: usize = 32;
