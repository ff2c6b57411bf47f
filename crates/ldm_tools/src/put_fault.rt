//! Why a product was not put, or the answer not told.
use crate::no_reply::NoReply;

/// Why a product was not put into the queue of a peer, or the line of the answer not written.
#[derive(Clone, Copy, Debug, PartialEq, Eq)]
pub enum PutFault {
    /// No answer to the PUT was heard.
    NoAnswer(NoReply),
    /// The peer does not let the caller insert a product.
    Denied,
    /// The sink failed, after a front of the line.
    SinkFault,
}
