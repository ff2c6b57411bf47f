//! The receiver over a stream: the bytes of a connection come in pieces, and become products of the queue.
#![tactic(auto)]

mod ends;
mod filling;
mod keeping;
mod laws;
mod limits;
mod receiver;
mod session;
mod stream;
mod taker;

pub use filling::Receiving;
pub use laws::{accepted_streams_are_received, pieces_make_no_difference, rounds_are_told};
pub use limits::{LONGEST_PIECE, LONGEST_SHORT, SHORT_PIECE};
pub use receiver::{Pushed, Receiver};
pub use session::{Received, receive, receive_pushed};
