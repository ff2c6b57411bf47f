//! The metadata of a product as bytes and back, in XDR (RFC 4506), this project's profile.
//!
//! An unsigned number is four bytes, the highest first. A string is its length as such a number, its
//! bytes, and zero bytes up to a multiple of four. A fixed opaque is its bytes alone. The metadata are
//! eight fields, one after another: the seconds of the arrival, its microseconds, the signature, the
//! origin, the feedtypes, the sequence number, the ident, and the size of the body.
//!
//! No call takes memory.
#![tactic(auto)]

mod examples;
mod fault;
mod fields;
mod laws;
mod length;
mod reading;
mod writing;

pub use examples::worked_examples;
pub use fault::XdrFault;
pub use fields::Fields;
pub use laws::{finds_the_first_fault, no_spelling_begins_another, spelling_has_metadata_len};
pub use length::{LONGEST_METADATA, info_len};
pub use reading::read_info;
pub use writing::write_info;
