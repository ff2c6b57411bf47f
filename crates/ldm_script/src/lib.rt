//! Script lines.
//!
//! [`read_line`] reads a line as an order, or tells the column of its first fault, and [`write_line`] writes an order
//! as a line. [`body_into`] writes the bytes of a body that a line spells. Contracts see orders as what the model of the
//! queue speaks of. What an order is answered is a line of `ldm_answers`.
//!
//! Only `write_line` takes memory.
#![tactic(auto)]

mod body;
mod examples;
mod fields;
mod laws;
mod line;
mod order;
mod put_places;
mod split;
mod word;
mod write;

pub use body::{Body, LONGEST_BODY, body_into};
pub use examples::worked_examples;
pub use laws::finds_the_first_fault;
pub use line::{BadLine, LONGEST_LINE, blank_info, read_line, read_line_into};
pub use order::{Act, Call, LastPlaces, LentAct, LentOrder, Order, Place, ReservePlace};
pub use write::write_line;
