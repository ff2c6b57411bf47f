//! The values that the whole program speaks of: instants, actors, cursor numbers, signatures, feedtypes,
//! the metadata of a product, the classes of products that a site asks for, limits, and want of memory.
//!
//! Every type keeps its bounds: a value that exists is within them.
#![tactic(auto)]

mod class;
mod feed;
mod info;
mod limits;
mod memory;
mod micros;
mod numbers;
mod signature;
mod texts;

pub use class::{ClassSpec, Spec};
pub use feed::Feed;
pub use info::{Info, InfoFault};
pub use limits::{
    ARENA_UNIT, GREATEST_INSTANT, LARGEST_ARENA, LONGEST_IDENT, LONGEST_ORIGIN, LONGEST_PATTERN,
    MOST_SLOTS, MOST_SPECS, SMALLEST_ARENA,
};
pub use memory::OutOfMemory;
pub use micros::Micros;
pub use numbers::{Actor, CursorNo};
pub use signature::Signature;
