//! Limits.

use ldm_rpc::LEAST_FRONT;

/// The most bytes that are received at once.
pub const LONGEST_PIECE: usize = 262_144;

/// A record of more bytes is long: the next one is as long, as a rule.
pub const LONGEST_SHORT: usize = 32_768;

/// How many bytes are received in a piece where the next record is long, as a rule: what is left of the one in hand,
/// the header of that one, and the front by which it is known how much of it is kept. The rest need not be copied
/// there.
pub const SHORT_PIECE: usize = LEAST_FRONT + 512;
