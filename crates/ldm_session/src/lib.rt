//! What the sending ends of sessions share: messages that are gathered, the line of a loss, and when a session that has
//! nothing to send says that it is there. The definitions in `specs/` say besides what a link, a clock and a gate went
//! through over many calls, and which replies an announcer is owed.
#![tactic(auto)]

mod gaps;
mod gathering;
mod idle;
mod limits;
mod replies;
mod waiting;

pub use gaps::{LONGEST_NAME, write_gap};
pub use gathering::{GATHERED, room_to_gather, send_before_rest, send_gathered, send_where_full};
pub use idle::{LONGEST_SILENCE, is_silent_since};
pub use limits::LONGEST_STREAM;
pub use replies::{NoReply, Replies};
pub use waiting::Waiting;
