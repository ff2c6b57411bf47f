//! The messages that nodes exchange: remote procedure calls and replies (RFC 5531) with bodies in XDR (RFC 4506), in
//! this project's profile.
//!
//! [`read_call`] and [`read_reply`] read the content of one record, and [`write_message`] writes a whole record. What
//! is read borrows the record: no body is copied, and reading takes no memory.
#![tactic(auto)]

mod body;
mod call;
mod class;
mod fault;
mod feed;
mod front;
mod header;
mod laws;
mod length;
mod message;
mod procedure;
mod put;
mod put_reply;
mod record;
mod refusal;
mod reply;
mod write;

pub use body::{BodyPlace, CallWithBody, write_head, write_with_room};
pub use call::read_call;
pub use fault::RelayFault;
pub use feed::{FeedCall, read_feed_call};
pub use front::{
    CallFront, FeedFront, LONGEST_BLOCK_CALL, LONGEST_CALL, read_call_front, read_feed_front,
};
pub use laws::{
    a_refusal_is_no_result, credentials_are_passed_over, long_records_carry,
    what_is_read_is_written, what_is_written_is_read,
};
pub use ldm_model::Stat;
pub use message::{
    Blkdata, ClassAnswer, Comingsoon, ComingsoonReply, Feedme, FeedmeReply, Hereis, Hiya,
    HiyaReply, Isalive, LARGEST_BLOCK, LARGEST_CONTENT, LARGEST_RECORD, LARGEST_REPLY, Message,
    Notification, Notifyme, NotifymeReply, Put, PutAnswer, PutReply, Qstat, QstatReply, Refusal,
    Refused, SoonAnswer,
};
pub use procedure::{PROGRAM, Procedure, VERSION};
pub use put::read_put;
pub use put_reply::write_put_reply;
pub use record::write_message;
pub use refusal::read_refusal;
pub use reply::read_reply;
