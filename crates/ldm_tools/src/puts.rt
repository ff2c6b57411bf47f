//! PUTs over a link, one after another.
ghost use Rattle.std.specs.Prelude.{◌≡◌, ◌≤◌, ◌++◌, ◌%◌, ◌^◌, ◌+◌, [], IfOk, MatchOption, length};
ghost use Rattle.ldm_outside.specs.Link.{IsNotClosed, SendsAll};
ghost use Rattle.ldm_relay.specs.declared.message.PutAnswer.{PutAnswer};
ghost use Rattle.ldm_relay.specs.Writable.{IsShortProduct};
ghost use Rattle.ldm_tools.specs.Replies.{HearsReply, IsPutReply};
ghost use Rattle.ldm_tools.specs.Puts.{HasPut, PutsOne, SendsPut, put_call};

use crate::no_reply::{NoReply, no_reply};
use crate::reader::LinkReader;
use ldm_outside::{Link, LinkFailed, send_all};
use ldm_relay::{CallWithBody, Message, Procedure, PutAnswer, read_reply, write_head};
use ldm_types::{Info, OutOfMemory};
use std::alloc::Global;

// The bytes that fill up a body to a multiple of four, at most three.
const ZEROS: [u8; 3] = [0; 3];

/// PUTs over one link, one after another: each goes out after the answer to the one before. The first has the number 1.
///
/// It takes its memory at once, but for the content of the reply in hand, which has at most
/// [`LARGEST_REPLY`](ldm_relay::LARGEST_REPLY) bytes, and for the head of a record, which has some hundred bytes. A
/// body is sent from where it lies. After a [`NoReply`] it is of no more use.
#[derive(Drop)]
pub struct Puts {
    reader: LinkReader,
    head: Vec<u8>,
    next: u32,
}

impl Puts {
    /// Before the first PUT over a link that gave nothing yet.
    pub fn create(alloc: Global) -> Result<Puts, OutOfMemory>
        ensures { IfOk result (λ puts. HasPut [] [] puts) }
    {
        Ok(Puts {
            reader: LinkReader::create(alloc)?,
            head: Vec::new(alloc),
            next: 1,
        })
    }

    /// Puts a product into the queue of the peer, and hears what became of it. The body has `info.size()` bytes.
    pub fn put<K: Link>(
        &mut self,
        link: &mut K,
        info: &Info,
        body: &[u8],
    ) -> Result<PutAnswer, NoReply>
        requires not_closed { IsNotClosed (K.tells link.old) }
        requires size { length body.now ≡ info.now.size }
        requires short { IsShortProduct info.now info.now.size }
        ensures puts { PutsOne result info.now body.now self.old self.new (K.tells link.old) (K.tells link.new) }
        ensures faults_kept { (K.tells link.old).faults ≤ (K.tells link.new).faults }
        ensures ends_kept { (K.tells link.old).ends ≤ (K.tells link.new).ends }
        ensures still_open { IsNotClosed (K.tells link.new) }
    {
        let xid = self.next;
        self.next = xid.wrapping_add(1);
        match send_put(link, &mut self.head, xid, info, body) {
            Ok(()) => hear_put(&mut self.reader, link, xid),
            Err(why) => Err(why),
        }
    }
}

// Sends the record of a PUT: its head from the buffer, and its body from where it lies.
fn send_put<K: Link>(
    link: &mut K,
    head: &mut Vec<u8>,
    xid: u32,
    info: &Info,
    body: &[u8],
) -> Result<(), NoReply>
    requires not_closed { IsNotClosed (K.tells link.old) }
    requires size { length body.now ≡ info.now.size }
    requires short { IsShortProduct info.now info.now.size }
    ensures sent { SendsPut result (put_call xid info.now body.now) (K.tells link.old) (K.tells link.new) }
    ensures faults_kept { (K.tells link.old).faults ≤ (K.tells link.new).faults }
    ensures still_open { IsNotClosed (K.tells link.new) }
{
    head.clear();
    let padding = match write_head(&CallWithBody::Put { xid, info }, head) {
        Ok(padding) => padding,
        Err(_) => return Err(NoReply::OutOfMemory),
    };
    match send_parts(link, head.as_slice(), body, &ZEROS[..padding]) {
        Ok(()) => Ok(()),
        Err(_) => Err(NoReply::LinkFault),
    }
}

// Sends three pieces, one behind the other.
fn send_parts<K: Link>(
    link: &mut K,
    first: &[u8],
    second: &[u8],
    third: &[u8],
) -> Result<(), LinkFailed>
    requires { IsNotClosed (K.tells link.old) }
    ensures sent { SendsAll result (first.now ++ (second.now ++ third.now)) (K.tells link.old) (K.tells link.new) }
    ensures faults_kept { (K.tells link.old).faults ≤ (K.tells link.new).faults }
    ensures still_open { IsNotClosed (K.tells link.new) }
{
    match send_all(link, first) {
        Ok(()) => send_both(link, second, third),
        Err(failed) => Err(failed),
    }
}

// Sends two pieces, one behind the other.
fn send_both<K: Link>(link: &mut K, first: &[u8], second: &[u8]) -> Result<(), LinkFailed>
    requires { IsNotClosed (K.tells link.old) }
    ensures sent { SendsAll result (first.now ++ second.now) (K.tells link.old) (K.tells link.new) }
    ensures faults_kept { (K.tells link.old).faults ≤ (K.tells link.new).faults }
    ensures still_open { IsNotClosed (K.tells link.new) }
{
    match send_all(link, first) {
        Ok(()) => send_all(link, second),
        Err(failed) => Err(failed),
    }
}

// Hears the reply to the PUT of that number, which is the next record that the link gives.
fn hear_put<K: Link>(reader: &mut LinkReader, link: &mut K, xid: u32) -> Result<PutAnswer, NoReply>
    requires { IsNotClosed (K.tells link.old) }
    ensures heard { HearsReply (IsPutReply xid) result reader.old reader.new (K.tells link.old) (K.tells link.new) }
    ensures faults_kept { (K.tells link.old).faults ≤ (K.tells link.new).faults }
    ensures ends_kept { (K.tells link.old).ends ≤ (K.tells link.new).ends }
    ensures still_open { IsNotClosed (K.tells link.new) }
{
    match reader.hear(link) {
        Ok(()) => match answer_in(reader.content(), xid) {
            Some(answer) => Ok(answer),
            None => Err(NoReply::BadFrame { at: reader.place() }),
        },
        Err(why) => Err(no_reply(why)),
    }
}

// What the content of a record says, if it is the reply to the PUT of that number.
fn answer_in(content: &[u8], xid: u32) -> Option<PutAnswer>
    ensures { MatchOption result ((answer : PutAnswer) → ¬ (IsPutReply xid answer content.now))
        (λ answer. IsPutReply xid answer content.now) }
{
    match read_reply(content, Procedure::Put.number()) {
        Ok(Message::PutReply(reply)) if reply.xid == xid => Some(reply.answer),
        _ => None,
    }
}
