//! Links: streams of bytes in both directions, between two programs.
ghost use Rattle.std.specs.Prelude.{◌<◌, ◌≤◌, length};
ghost use Rattle.ldm_outside.specs.Link.{LinkRecord, IsNotClosed, SendsAll};

use crate::io::{Got, Put};

/// Which way a byte went.
#[derive(Clone, Copy, Debug, PartialEq, Eq)]
pub enum Way {
    /// The link was sent it.
    Sent,
    /// The link gave it, as the first byte of a call of `recv`: here it was asked for more.
    First,
    /// The link gave it, behind such a byte, in the same call.
    Given,
}

/// A byte that passed on a link.
#[derive(Clone, Copy, Debug, PartialEq, Eq)]
pub struct Passed {
    /// Which way it went.
    pub way: Way,
    /// The byte.
    pub byte: u8,
}

/// What is awaited of a peer. No clause speaks of it: a link may fail the sooner, the less the peer may keep it waiting.
#[derive(Clone, Copy, Debug, PartialEq, Eq)]
pub enum Awaited {
    /// The first byte of a request, which the peer sends when it likes.
    Request,
    /// The first byte of a reply to what was sent.
    Reply,
    /// The first byte of what a feed brings.
    Feed,
    /// The bytes behind the first ones of a record.
    Rest,
}

impl Awaited {
    /// The rest of a record where one was begun, and else this.
    pub fn or_rest(self, is_begun: bool) -> Awaited {
        if is_begun { Awaited::Rest } else { self }
    }
}

/// A stream of bytes to another program and one back.
///
/// Bytes are received as from a [`Source`](crate::Source) and sent as to a [`Sink`](crate::Sink). Only `close` closes
/// a link, and a closed one neither receives nor sends.
pub trait Link {
    ghost use Rattle.ldm_outside.specs.Link.{RecvGives, SendGives, ChecksPeer, Closes};

    /// What it tells: what passed, byte by byte and both ways in one order, and which bytes came with one call, and the
    /// bytes that it has left to give, if it tells these; how often it failed and was at its end; and whether it was
    /// closed. A count stands still at the end of `u64`.
    ghost tells: { Self → LinkRecord };

    /// Receives some bytes into the front of the buffer, which has room for one at least.
    ///
    /// A failure loses no byte, so a caller may go on after it. The buffer behind the bytes that came, and all of it
    /// where none came, may hold anything.
    fn recv(&mut self, into: &mut [u8], awaited: Awaited) -> Got
        requires room { 0 < length into.old }
        requires not_closed { IsNotClosed (tells self.old) }
        ensures given { RecvGives result into.new (tells self.old) (tells self.new) }
        ensures faults_kept { (tells self.old).faults ≤ (tells self.new).faults }
        ensures ends_kept { (tells self.old).ends ≤ (tells self.new).ends }
        ensures still_open { IsNotClosed (tells self.new) };

    /// Sends some bytes from the front of the piece: what is left of it is the caller's to send.
    ///
    /// Where it fails it sent nothing, so a caller may send the piece again.
    fn send(&mut self, piece: &[u8]) -> Put
        requires not_closed { IsNotClosed (tells self.old) }
        ensures sent { SendGives result piece.now (tells self.old) (tells self.new) }
        ensures faults_kept { (tells self.old).faults ≤ (tells self.new).faults }
        ensures still_open { IsNotClosed (tells self.new) };

    /// Looks whether the peer is still there. It waits for nothing, and takes no byte.
    ///
    /// It fails where the link knows that the peer closed its side or went.
    fn check_peer(&mut self) -> Result<(), LinkFailed>
        requires not_closed { IsNotClosed (tells self.old) }
        ensures checked { ChecksPeer result (tells self.old) (tells self.new) }
        ensures faults_kept { (tells self.old).faults ≤ (tells self.new).faults }
        ensures still_open { IsNotClosed (tells self.new) };

    /// Closes it, for both directions.
    fn close(&mut self)
        ensures { Closes (tells self.old) (tells self.new) };
}

/// A link failed, and its count of faults rose.
#[derive(Clone, Copy, Debug, PartialEq, Eq)]
pub struct LinkFailed;

/// Sends the whole piece: all of it at once, then each time what the link left of it. An empty piece takes no call.
///
/// [`LinkFailed`] comes at the first call that fails, after a front of the piece was sent.
pub fn send_all<K: Link>(link: &mut K, piece: &[u8]) -> Result<(), LinkFailed>
    requires { IsNotClosed (K.tells link.old) }
    ensures sent { SendsAll result piece.now (K.tells link.old) (K.tells link.new) }
    ensures faults_kept { (K.tells link.old).faults ≤ (K.tells link.new).faults }
    ensures still_open { IsNotClosed (K.tells link.new) }
{
    let mut at = 0;
    while at < piece.len() {
        match link.send(&piece[at..]) {
            Put::Took(n) => at += n,
            Put::Failed => return Err(LinkFailed),
        }
    }
    Ok(())
}
