//! How long messages are when they are written.
ghost use Rattle.std.specs.Prelude.{◌≡◌, ◌≤◌, ◌<◌, ◌+◌, ◌^◌, ℕ, List, length};
ghost use Rattle.std.specs.List.{flat_map};
ghost use Rattle.ldm_types.specs.Info.{pad4, metadata_len};
ghost use Rattle.ldm_xdr.specs.Spelling.{spelling, hyper, Fits as InfoFits};
ghost use Rattle.ldm_relay.specs.MessageView.{sent_of};
ghost use Rattle.ldm_relay.specs.Sent as sent;
ghost use Rattle.ldm_relay.specs.Spelling.{class_bytes, class_answer_bytes, stat_bytes};
ghost use Rattle.ldm_relay.specs.Spelling.{put_answer_bytes, refusal_bytes, written};
ghost use Rattle.ldm_relay.specs.Bodies.{body_len, with_body, front_of, CanCarry};
ghost use Rattle.ldm_relay.specs.Writable.{IsWritable};
ghost use Rattle.ldm_relay.specs.Fits.{Is32, SpecFits, ClassFits, ClassAnswerFits};
ghost use Rattle.ldm_relay.specs.Fits.{StatFits, PutAnswerFits, RefusalFits, Fits};
ghost use Rattle.ldm_relay.specs.declared.message.TheConstants.{LARGEST_BLOCK, LARGEST_CONTENT};
ghost use Rattle.ldm_relay.specs.declared.length.TheConstants.{LONGEST_CLASS};
ghost use Rattle.ldm_xdr.specs.declared.length.TheConstants.{LONGEST_METADATA};

use crate::body::CallWithBody;
use crate::message::{ClassAnswer, Message, PutAnswer, Refusal};
use ldm_model::Stat;
use ldm_types::{ClassSpec, Info, Signature, Spec};
use ldm_xdr::info_len;

// The most bytes of a class: 32 specifications with patterns of 255 bytes.
const LONGEST_CLASS: usize = 8_468;

/// The length of the content of the record of a message.
#[tactic(auto, using(crate::proofs::Lengths::lengths), unfolding(crate::specs::Spelling::written))]
pub(crate) fn content_len(message: &Message) -> usize
    requires { IsWritable (sent_of message.now) }
    ensures value { result ≡ length (written (sent_of message.now)) }
    ensures bound { result ≤ LARGEST_CONTENT }
    ensures fits { Fits (sent_of message.now) }
{
    match message {
        Message::Feedme(m) => call_header_len(m.xid)
            + class_len(&m.class)
            + number_len(m.max_hereis),
        Message::FeedmeReply(m) => reply_header_len(m.xid) + class_answer_len(&m.answer),
        Message::Hiya(m) => call_header_len(m.xid) + class_len(&m.class),
        Message::HiyaReply(m) => reply_header_len(m.xid)
            + number_len(m.max_hereis)
            + class_answer_len(&m.answer),
        Message::Hereis(m) => call_len(&CallWithBody::Hereis {
            xid: m.xid,
            info: &m.info,
        }),
        Message::Comingsoon(m) => call_header_len(m.xid)
            + spelling_len(&m.info)
            + number_len(m.block_size),
        Message::ComingsoonReply(m) => reply_header_len(m.xid) + 4,
        Message::Blkdata(m) => call_len(&CallWithBody::Blkdata {
            xid: m.xid,
            signature: m.signature,
            number: m.number,
            len: m.block.len() as u32,
        }),
        Message::Isalive(m) => call_header_len(m.xid),
        Message::Qstat(m) => call_header_len(m.xid),
        Message::QstatReply(m) => reply_header_len(m.xid) + stat_len(m.stat),
        Message::Put(m) => call_len(&CallWithBody::Put {
            xid: m.xid,
            info: &m.info,
        }),
        Message::PutReply(m) => put_reply_len(m.xid, m.answer),
        Message::Notifyme(m) => call_header_len(m.xid) + class_len(&m.class),
        Message::NotifymeReply(m) => reply_header_len(m.xid) + class_answer_len(&m.answer),
        Message::Notification(m) => call_header_len(m.xid) + spelling_len(&m.info),
        Message::Refused(m) => accepted_header_len(m.xid) + refusal_len(m.why),
    }
}

/// The length of the content of the record of a call that carries bytes.
#[tactic(auto, using(crate::proofs::Lengths::lengths), unfolding(crate::specs::Bodies::front_of))]
pub(crate) fn call_len(call: &CallWithBody) -> usize
    requires { CanCarry call.now }
    ensures value { result ≡ length (front_of call.now) + pad4 (body_len call.now) }
    ensures bound { result ≤ LARGEST_CONTENT }
    ensures fits { (body : List ℕ) → length body ≡ body_len call.now → Fits (with_body call.now body) }
{
    match call {
        CallWithBody::Hereis { xid, info } | CallWithBody::Put { xid, info } => {
            call_header_len(*xid) + spelling_len(info) + padded(info.size() as usize)
        }
        CallWithBody::Blkdata {
            xid,
            signature,
            number,
            len,
        } => call_header_len(*xid) + block_len(*signature, *number, *len),
    }
}

/// The length of the content of the record of the reply to a PUT.
#[tactic(auto, using(crate::proofs::Lengths::lengths), unfolding(crate::specs::Spelling::written))]
pub(crate) fn put_reply_len(xid: u32, answer: PutAnswer) -> usize
    ensures value { result ≡ length (written (sent.PutReply xid answer)) }
    ensures bound { result ≤ 52 }
    ensures fits { Fits (sent.PutReply xid answer) }
{
    reply_header_len(xid) + put_answer_len(answer)
}

// Each header begins with the number of the call.
fn call_header_len(xid: u32) -> usize
    ensures len { result ≡ 40 }
    ensures fits { Is32 xid }
{
    40
}

fn reply_header_len(xid: u32) -> usize
    ensures len { result ≡ 24 }
    ensures fits { Is32 xid }
{
    24
}

// A reply up to its accept status.
fn accepted_header_len(xid: u32) -> usize
    ensures len { result ≡ 20 }
    ensures fits { Is32 xid }
{
    20
}

fn number_len(n: u32) -> usize
    ensures len { result ≡ 4 }
    ensures fits { Is32 n }
{
    4
}

#[tactic(auto, using(crate::proofs::Lengths::lengths))]
fn class_len(class: &ClassSpec) -> usize
    ensures value { result ≡ length (class_bytes class.now) }
    ensures bound { result ≤ LONGEST_CLASS }
    ensures fits { ClassFits class.now }
{
    let mut len = 20;
    for spec in class.specs.as_slice() {
        len += spec_len(spec);
    }
    let _instants = (class.from.get(), class.to.get());
    len
}

// The length of a specification.
fn spec_len(spec: &Spec) -> usize
    ensures value { result ≡ 8 + pad4 (length spec.now.pattern.items) }
    ensures bound { result ≤ 264 }
    ensures fits { SpecFits spec.now }
{
    let _feed = spec.feed.0;
    8 + padded(spec.pattern.as_slice().len())
}

#[tactic(auto, using(crate::proofs::Lengths::lengths))]
fn class_answer_len(answer: &ClassAnswer) -> usize
    ensures value { result ≡ length (class_answer_bytes answer.now) }
    ensures bound { result ≤ 4 + LONGEST_CLASS }
    ensures fits { ClassAnswerFits answer.now }
{
    match answer {
        ClassAnswer::Reclass(class) => 4 + class_len(class),
        ClassAnswer::Ok | ClassAnswer::Denied | ClassAnswer::BadPattern | ClassAnswer::Busy => 4,
    }
}

#[tactic(auto, using(crate::proofs::Lengths::lengths))]
fn stat_len(stat: Option<Stat>) -> usize
    ensures value { result ≡ length (stat_bytes stat) }
    ensures bound { result ≤ 44 }
    ensures fits { StatFits stat }
{
    match stat {
        Some(_) => 44,
        None => 4,
    }
}

// A signature, the number of a block, and the block with its length.
fn block_len(signature: Signature, number: u32, len: u32) -> usize
    requires { len ≤ LARGEST_BLOCK }
    ensures value { result ≡ length signature.0 + 8 + pad4 len }
    ensures bound { result ≤ 24 + LARGEST_BLOCK }
    ensures fits { (length signature.0 ≡ 16) × Is32 number }
{
    24 + padded(len as usize)
}

#[tactic(auto, using(crate::proofs::Lengths::lengths))]
fn put_answer_len(answer: PutAnswer) -> usize
    ensures value { result ≡ length (put_answer_bytes answer) }
    ensures bound { result ≤ 28 }
    ensures fits { PutAnswerFits answer }
{
    match answer {
        PutAnswer::Admitted { .. } => 28,
        PutAnswer::TooBig { .. } => 20,
        PutAnswer::Duplicate { .. } | PutAnswer::Locked { .. } => 12,
        PutAnswer::TimeEnd | PutAnswer::Denied => 4,
    }
}

#[tactic(auto, using(crate::proofs::Lengths::lengths))]
fn refusal_len(why: Refusal) -> usize
    ensures value { result ≡ length (refusal_bytes why) }
    ensures bound { result ≤ 12 }
    ensures fits { RefusalFits why }
{
    match why {
        Refusal::ProgramMismatch { .. } => 12,
        Refusal::ProgramUnavailable
        | Refusal::ProcedureUnavailable
        | Refusal::GarbageArguments
        | Refusal::SystemError => 4,
    }
}

// The length of the spelling of metadata. Their fields are read since their bounds are known where they are.
#[tactic(auto, using(crate::proofs::Lengths::spelling_of_16))]
fn spelling_len(info: &Info) -> usize
    ensures value { result ≡ length (spelling info.now) }
    ensures len { result ≡ metadata_len info.now }
    ensures bound { result ≤ LONGEST_METADATA }
    ensures fits { InfoFits info.now }
{
    let _numbers = (
        info.arrival().get(),
        info.feed().0,
        info.seqno(),
        info.size(),
    );
    let _signature = info.signature();
    let _origin = info.origin();
    let _ident = info.ident();
    info_len(info)
}

/// A length rounded up to a multiple of four.
pub(crate) fn padded(length: usize) -> usize
    requires { length + 3 < 2 ^ 64 }
    ensures { result ≡ pad4 length }
{
    length.div_ceil(4) * 4
}
