//! The replies to announcements.
ghost use Rattle.std.specs.Prelude.{◌≡◌, ◌≤◌, ℕ, [], List, IfErr, IfOk, MatchOption};
ghost use Rattle.ldm_outside.specs.Link.{IsNotClosed};
ghost use Rattle.ldm_session.specs.Owed.{IsReplyTo};

use crate::waiting::Waiting;
use ldm_outside::{Awaited, Got, Link};
use ldm_relay::{LARGEST_REPLY, Message, Procedure, SoonAnswer, read_reply};
use ldm_rpc::{Records, RpcFault};
use ldm_types::OutOfMemory;
use std::alloc::Global;
use std::sync::Wait;

/// Why the reply to an announcement was not heard.
#[derive(Clone, Copy, Debug, PartialEq, Eq)]
pub enum NoReply {
    /// The peer ended the stream.
    PeerEnd {
        /// How many bytes came since the first, or 2^64 - 1 where they are more.
        at: u64,
    },
    /// A record is not the reply to the announcement, or is longer than a reply may be.
    BadReply {
        /// How many bytes came before it, or 2^64 - 1 where they are more.
        at: u64,
    },
    /// The link failed, and its count of faults rose.
    LinkFault,
    /// There is too little memory for the content of a record.
    OutOfMemory,
}

/// A reader of the replies to announcements (COMINGSOON), which are heard one at a time.
///
/// It takes all its memory at once, but for the content of the record in hand, which has at most [`LARGEST_REPLY`]
/// bytes: 4,096 bytes, or as many as the link gave ahead. After a [`NoReply`] it is of no more use.
#[derive(Drop)]
pub struct Replies {
    records: Records,
    // How many bytes came before the record in hand, and how many were looked at. Both stand still at the end of `u64`.
    begins: u64,
    came: u64,
    waiting: Waiting,
}

impl Replies {
    ghost use Rattle.ldm_session.specs.Hearing.{Heard, Hears};
    ghost use Rattle.ldm_session.specs.Looking.{IsOwn, Pushes, Reads, Receives};
    ghost use Rattle.ldm_session.specs.Owed.{Code};

    /// A reader of a link that gave these bytes, and nothing else yet. It begins before the first of them.
    pub fn create(alloc: Global, ahead: &[u8]) -> Result<Replies, OutOfMemory>
        ensures heard { IfOk result (λ replies. Heard ahead.now [] replies) }
    {
        Ok(Replies {
            records: Records::create(alloc, LARGEST_REPLY),
            begins: 0,
            came: 0,
            waiting: Waiting::create(alloc, ahead)?,
        })
    }

    /// Hears the reply to the announcement of that number, which is the next record that the link gives. It receives no
    /// more than that takes, but what comes with the reply waits for the next call.
    ///
    /// A peer that goes on to send fragments without bytes is heard without end.
    pub fn hear<H: Wait, K: Link>(
        &mut self,
        rt: &H,
        link: &mut K,
        xid: u32,
    ) -> Result<SoonAnswer, NoReply>
        requires { IsNotClosed (K.tells link.old) }
        ensures heard { Hears result xid self.old self.new (K.tells link.old) (K.tells link.new) }
        ensures faults_kept { (K.tells link.old).faults ≤ (K.tells link.new).faults }
        ensures ends_kept { (K.tells link.old).ends ≤ (K.tells link.new).ends }
        ensures still_open { IsNotClosed (K.tells link.new) }
    {
        for _ in rt.forever() {
            if let Some(answer) = self.read(xid)? {
                return Ok(answer);
            }
            self.receive(link)?;
        }
        unreachable!()
    }

    // Looks at what waits: the reply, or None where more has to come for it.
    fn read(&mut self, xid: u32) -> Result<Option<SoonAnswer>, NoReply>
        ensures read { (given : List ℕ) (codes : List Code) → Heard given codes self.old
            → Reads result xid given codes self.new }
        ensures own { IfErr result IsOwn }
    {
        match self.push() {
            Ok(()) => {}
            Err(RpcFault::TooLong { .. }) => return Err(NoReply::BadReply { at: self.begins }),
            Err(RpcFault::OutOfMemory) => return Err(NoReply::OutOfMemory),
        }
        let Some(content) = self.records.whole() else {
            return Ok(None);
        };
        let Some(answer) = reply_in(content, xid) else {
            return Err(NoReply::BadReply { at: self.begins });
        };
        self.records.next();
        self.begins = self.came;
        Ok(Some(answer))
    }

    // Looks at what waits, up to the end of the record in hand.
    fn push(&mut self) -> Result<(), RpcFault>
        ensures { Pushes result self.old self.new }
    {
        self.records.next();
        let taken = self.records.push(self.waiting.as_slice())?;
        self.came = self.came.saturating_add(taken as u64);
        self.waiting.skip(taken);
        Ok(())
    }

    // Receives a piece in place of what waits.
    fn receive<K: Link>(&mut self, link: &mut K) -> Result<(), NoReply>
        requires { IsNotClosed (K.tells link.old) }
        ensures received { Receives result self.old self.new (K.tells link.old) (K.tells link.new) }
        ensures faults_kept { (K.tells link.old).faults ≤ (K.tells link.new).faults }
        ensures ends_kept { (K.tells link.old).ends ≤ (K.tells link.new).ends }
        ensures still_open { IsNotClosed (K.tells link.new) }
    {
        let awaited = Awaited::Reply.or_rest(self.records.pending());
        match self.waiting.fill(link, u64::MAX, awaited) {
            Got::Bytes(_) => Ok(()),
            Got::End => Err(NoReply::PeerEnd { at: self.came }),
            Got::Failed => Err(NoReply::LinkFault),
        }
    }
}

// What a record says to the announcement of that number, if it is the reply to it.
fn reply_in(content: &[u8], xid: u32) -> Option<SoonAnswer>
    ensures { MatchOption result ((answer : SoonAnswer) → ¬ (IsReplyTo xid answer content.now))
        (λ answer. IsReplyTo xid answer content.now) }
{
    match read_reply(content, Procedure::Comingsoon.number()) {
        Ok(Message::ComingsoonReply(reply)) if reply.xid == xid => Some(reply.answer),
        _ => None,
    }
}
