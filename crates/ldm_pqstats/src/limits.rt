//! Limits, and the feedtype of what is sent.

/// As many products as are too many to count one more.
pub const MOST_PRODUCTS: u64 = 2_147_483_648;

/// The most bytes of the lines of an hour that are sent.
pub const LARGEST_BODY: usize = 1_073_741_824;

/// The feedtype EXP.
pub const EXP: u32 = 0x4000_0000;
