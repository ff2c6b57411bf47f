//! Records of a byte stream: the record marking of RFC 5531, section 11.
//!
//! A record is one or more fragments. A fragment is a header of four bytes and then its bytes. The header is a
//! number, its highest byte first: the top bit says that the fragment is the record's last, and the other 31 bits
//! are the number of its bytes, which may be zero. The content of a record is the bytes of its fragments, joined.
#![tactic(auto)]

mod came;
mod fault;
mod filler;
mod front_records;
mod in_place;
mod keeper;
mod kept;
mod kept_records;
mod laws;
mod marks;
mod records;
mod stage;

pub use fault::RpcFault;
pub use filler::Filler;
pub use front_records::{Front, FrontRecords};
pub use in_place::InPlace;
pub use keeper::Keeper;
pub use kept::{LEAST_FILL, LEAST_FRONT};
pub use kept_records::KeptRecords;
pub use laws::{
    no_record_begins_another, pending_from_the_first_byte, pieces_join, pushes_read_the_stream,
    records_are_read, too_long_at_the_header, what_is_read_is_spelled,
};
pub use records::{LARGEST_KEPT, Records};
pub use stage::LAST_FRAGMENT;
