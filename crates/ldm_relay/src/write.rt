//! Writing messages.
ghost use Rattle.std.specs.Prelude.{◌≡◌, ◌<◌, ◌≤◌, ◌+◌, ◌-◌, ◌^◌, ◌++◌, ℕ, length, replicate, OnOk, OnErr};
ghost use Rattle.std.specs.Int.{w32, w64};
ghost use Rattle.std.specs.List.{flat_map};
ghost use Rattle.ldm_types.specs.Info.{pad4};
ghost use Rattle.ldm_xdr.specs.Spelling.{spelling, number, unsigned, hyper, padded, opaque};
ghost use Rattle.ldm_relay.specs.Sent as sent;
ghost use Rattle.ldm_relay.specs.MessageView.{sent_of};
ghost use Rattle.ldm_relay.specs.Spelling.{instant_bytes, spec_bytes, class_bytes, class_answer_bytes};
ghost use Rattle.ldm_relay.specs.Spelling.{soon_answer_bytes, figures_bytes, stat_bytes, put_answer_bytes};
ghost use Rattle.ldm_relay.specs.Spelling.{refusal_bytes, no_authentication, call_header, accepted_header};
ghost use Rattle.ldm_relay.specs.Spelling.{reply_header, written, record_of};
ghost use Rattle.ldm_relay.specs.Bodies.{body_len, with_body, front_of};
ghost use Rattle.ldm_relay.specs.Writable.{IsWritable};
ghost use Rattle.ldm_relay.specs.Appends.{HasRoom, Appends};
ghost use Rattle.ldm_relay.specs.declared.message.TheConstants.{LARGEST_BLOCK};

use crate::body::CallWithBody;
use crate::header::{ACCEPTED, CALL, NO_AUTHENTICATION, REPLY, RPC_VERSION, SUCCESS};
use crate::message::{ClassAnswer, Message, PutAnswer, Refusal, SoonAnswer};
use crate::procedure::{PROGRAM, Procedure, VERSION};
use byteorder::{BigEndian, ByteOrder};
use ldm_model::Stat;
use ldm_types::{ClassSpec, Info, Micros, Signature, Spec};
use ldm_xdr::{LONGEST_METADATA, info_len, write_info};

// Each of these appends what there is room for.

/// Writes the content of the record of a message.
#[tactic(auto, unfolding(crate::specs::Spelling::written))]
pub(crate) fn put_message(out: &mut Vec<u8>, message: &Message)
    requires writable { IsWritable (sent_of message.now) }
    requires room { HasRoom out.old (written (sent_of message.now)) }
    ensures { Appends out.old out.new (written (sent_of message.now)) }
{
    match message {
        Message::Feedme(m) => put_feedme(out, m.xid, &m.class, m.max_hereis),
        Message::FeedmeReply(m) => put_feedme_reply(out, m.xid, &m.answer),
        Message::Hiya(m) => put_hiya(out, m.xid, &m.class),
        Message::HiyaReply(m) => put_hiya_reply(out, m.xid, m.max_hereis, &m.answer),
        Message::Hereis(m) => put_with_body(
            out,
            &CallWithBody::Hereis {
                xid: m.xid,
                info: &m.info,
            },
            m.body,
        ),
        Message::Comingsoon(m) => put_comingsoon(out, m.xid, &m.info, m.block_size),
        Message::ComingsoonReply(m) => put_comingsoon_reply(out, m.xid, m.answer),
        Message::Blkdata(m) => put_with_body(
            out,
            &CallWithBody::Blkdata {
                xid: m.xid,
                signature: m.signature,
                number: m.number,
                len: m.block.len() as u32,
            },
            m.block,
        ),
        Message::Isalive(m) => put_call_header(out, m.xid, Procedure::Isalive),
        Message::Qstat(m) => put_call_header(out, m.xid, Procedure::Qstat),
        Message::QstatReply(m) => put_qstat_reply(out, m.xid, m.stat),
        Message::Put(m) => put_with_body(
            out,
            &CallWithBody::Put {
                xid: m.xid,
                info: &m.info,
            },
            m.body,
        ),
        Message::PutReply(m) => put_put_reply(out, m.xid, m.answer),
        Message::Notifyme(m) => put_notifyme(out, m.xid, &m.class),
        Message::NotifymeReply(m) => put_notifyme_reply(out, m.xid, &m.answer),
        Message::Notification(m) => put_notification(out, m.xid, &m.info),
        Message::Refused(m) => put_refused(out, m.xid, m.why),
    }
}

#[tactic(auto, using(crate::proofs::Appending::appending), unfolding(crate::specs::Spelling::written))]
fn put_feedme(out: &mut Vec<u8>, xid: u32, class: &ClassSpec, max_hereis: u32)
    requires { HasRoom out.old (written (sent.Feedme xid class.now max_hereis)) }
    ensures { Appends out.old out.new (written (sent.Feedme xid class.now max_hereis)) }
{
    put_call_header(out, xid, Procedure::Feedme);
    put_class(out, class);
    put_unsigned(out, max_hereis);
}

#[tactic(auto, using(crate::proofs::Appending::appending), unfolding(crate::specs::Spelling::written))]
fn put_feedme_reply(out: &mut Vec<u8>, xid: u32, answer: &ClassAnswer)
    requires { HasRoom out.old (written (sent.FeedmeReply xid answer.now)) }
    ensures { Appends out.old out.new (written (sent.FeedmeReply xid answer.now)) }
{
    put_reply_header(out, xid);
    put_class_answer(out, answer);
}

#[tactic(auto, using(crate::proofs::Appending::appending), unfolding(crate::specs::Spelling::written))]
fn put_hiya(out: &mut Vec<u8>, xid: u32, class: &ClassSpec)
    requires { HasRoom out.old (written (sent.Hiya xid class.now)) }
    ensures { Appends out.old out.new (written (sent.Hiya xid class.now)) }
{
    put_call_header(out, xid, Procedure::Hiya);
    put_class(out, class);
}

#[tactic(auto, using(crate::proofs::Appending::appending), unfolding(crate::specs::Spelling::written))]
fn put_hiya_reply(out: &mut Vec<u8>, xid: u32, max_hereis: u32, answer: &ClassAnswer)
    requires { HasRoom out.old (written (sent.HiyaReply xid max_hereis answer.now)) }
    ensures { Appends out.old out.new (written (sent.HiyaReply xid max_hereis answer.now)) }
{
    put_reply_header(out, xid);
    put_unsigned(out, max_hereis);
    put_class_answer(out, answer);
}

// A call that carries bytes.
#[tactic(auto, using(crate::proofs::Appending::appending, crate::proofs::Bodies::front_and_body))]
fn put_with_body(out: &mut Vec<u8>, call: &CallWithBody, body: &[u8])
    requires len { length body.now ≡ body_len call.now }
    requires room { HasRoom out.old (written (with_body call.now body.now)) }
    ensures { Appends out.old out.new (written (with_body call.now body.now)) }
{
    put_front(out, call);
    put_padded(out, body);
}

/// Writes a call that carries bytes up to these.
#[tactic(auto, using(crate::proofs::Appending::appending), unfolding(crate::specs::Bodies::front_of))]
pub(crate) fn put_front(out: &mut Vec<u8>, call: &CallWithBody)
    requires { HasRoom out.old (front_of call.now) }
    ensures { Appends out.old out.new (front_of call.now) }
{
    match call {
        CallWithBody::Hereis { xid, info } => put_product_front(out, *xid, Procedure::Hereis, info),
        CallWithBody::Put { xid, info } => put_product_front(out, *xid, Procedure::Put, info),
        CallWithBody::Blkdata {
            xid,
            signature,
            number,
            len,
        } => put_block_front(out, *xid, *signature, *number, *len),
    }
}

#[tactic(auto, using(crate::proofs::Appending::appending))]
fn put_product_front(out: &mut Vec<u8>, xid: u32, procedure: Procedure, info: &Info)
    requires { HasRoom out.old (call_header xid procedure ++ spelling info.now) }
    ensures { Appends out.old out.new (call_header xid procedure ++ spelling info.now) }
{
    put_call_header(out, xid, procedure);
    put_info(out, info);
}

#[tactic(auto, using(crate::proofs::Appending::appending))]
fn put_block_front(out: &mut Vec<u8>, xid: u32, signature: Signature, number: u32, len: u32)
    requires { HasRoom out.old (call_header xid Procedure.Blkdata ++ (signature.0 ++ unsigned number ++ unsigned len)) }
    ensures { Appends out.old out.new
        (call_header xid Procedure.Blkdata ++ (signature.0 ++ unsigned number ++ unsigned len)) }
{
    put_call_header(out, xid, Procedure::Blkdata);
    put(out, &signature.0);
    put_unsigned(out, number);
    put_unsigned(out, len);
}

#[tactic(auto, using(crate::proofs::Appending::appending), unfolding(crate::specs::Spelling::written))]
fn put_comingsoon(out: &mut Vec<u8>, xid: u32, info: &Info, block_size: u32)
    requires { HasRoom out.old (written (sent.Comingsoon xid info.now block_size)) }
    ensures { Appends out.old out.new (written (sent.Comingsoon xid info.now block_size)) }
{
    put_call_header(out, xid, Procedure::Comingsoon);
    put_info(out, info);
    put_unsigned(out, block_size);
}

#[tactic(auto, using(crate::proofs::Appending::appending), unfolding(crate::specs::Spelling::written))]
fn put_comingsoon_reply(out: &mut Vec<u8>, xid: u32, answer: SoonAnswer)
    requires { HasRoom out.old (written (sent.ComingsoonReply xid answer)) }
    ensures { Appends out.old out.new (written (sent.ComingsoonReply xid answer)) }
{
    put_reply_header(out, xid);
    put_soon_answer(out, answer);
}

#[tactic(auto, using(crate::proofs::Appending::appending), unfolding(crate::specs::Spelling::written))]
fn put_qstat_reply(out: &mut Vec<u8>, xid: u32, stat: Option<Stat>)
    requires { HasRoom out.old (written (sent.QstatReply xid stat)) }
    ensures { Appends out.old out.new (written (sent.QstatReply xid stat)) }
{
    put_reply_header(out, xid);
    put_stat(out, stat);
}

#[tactic(auto, using(crate::proofs::Appending::appending), unfolding(crate::specs::Spelling::written))]
pub(crate) fn put_put_reply(out: &mut Vec<u8>, xid: u32, answer: PutAnswer)
    requires { HasRoom out.old (written (sent.PutReply xid answer)) }
    ensures { Appends out.old out.new (written (sent.PutReply xid answer)) }
{
    put_reply_header(out, xid);
    put_put_answer(out, answer);
}

#[tactic(auto, using(crate::proofs::Appending::appending), unfolding(crate::specs::Spelling::written))]
fn put_notifyme(out: &mut Vec<u8>, xid: u32, class: &ClassSpec)
    requires { HasRoom out.old (written (sent.Notifyme xid class.now)) }
    ensures { Appends out.old out.new (written (sent.Notifyme xid class.now)) }
{
    put_call_header(out, xid, Procedure::Notifyme);
    put_class(out, class);
}

#[tactic(auto, using(crate::proofs::Appending::appending), unfolding(crate::specs::Spelling::written))]
fn put_notifyme_reply(out: &mut Vec<u8>, xid: u32, answer: &ClassAnswer)
    requires { HasRoom out.old (written (sent.NotifymeReply xid answer.now)) }
    ensures { Appends out.old out.new (written (sent.NotifymeReply xid answer.now)) }
{
    put_reply_header(out, xid);
    put_class_answer(out, answer);
}

#[tactic(auto, using(crate::proofs::Appending::appending), unfolding(crate::specs::Spelling::written))]
fn put_notification(out: &mut Vec<u8>, xid: u32, info: &Info)
    requires { HasRoom out.old (written (sent.Notification xid info.now)) }
    ensures { Appends out.old out.new (written (sent.Notification xid info.now)) }
{
    put_call_header(out, xid, Procedure::Notification);
    put_info(out, info);
}

#[tactic(auto, using(crate::proofs::Appending::appending), unfolding(crate::specs::Spelling::written))]
fn put_refused(out: &mut Vec<u8>, xid: u32, why: Refusal)
    requires { HasRoom out.old (written (sent.Refused xid why)) }
    ensures { Appends out.old out.new (written (sent.Refused xid why)) }
{
    put_accepted_header(out, xid);
    put_refusal(out, why);
}

#[tactic(auto, using(crate::proofs::Appending::appending))]
fn put_refusal(out: &mut Vec<u8>, why: Refusal)
    requires { HasRoom out.old (refusal_bytes why) }
    ensures { Appends out.old out.new (refusal_bytes why) }
{
    match why {
        Refusal::ProgramUnavailable => put_unsigned(out, 1),
        Refusal::ProgramMismatch { lowest, highest } => {
            put_unsigned(out, 2);
            put_unsigned(out, lowest);
            put_unsigned(out, highest);
        }
        Refusal::ProcedureUnavailable => put_unsigned(out, 3),
        Refusal::GarbageArguments => put_unsigned(out, 4),
        Refusal::SystemError => put_unsigned(out, 5),
    }
}

#[tactic(auto, using(crate::proofs::Appending::appending), unfolding(crate::specs::Spelling::call_header))]
fn put_call_header(out: &mut Vec<u8>, xid: u32, procedure: Procedure)
    requires { HasRoom out.old (call_header xid procedure) }
    ensures { Appends out.old out.new (call_header xid procedure) }
{
    put_unsigned(out, xid);
    put_unsigned(out, CALL);
    put_unsigned(out, RPC_VERSION);
    put_unsigned(out, PROGRAM);
    put_unsigned(out, VERSION);
    put_unsigned(out, procedure.number());
    put_no_authentication(out);
    put_no_authentication(out);
}

#[tactic(auto, using(crate::proofs::Appending::appending), unfolding(crate::specs::Spelling::reply_header))]
fn put_reply_header(out: &mut Vec<u8>, xid: u32)
    requires { HasRoom out.old (reply_header xid) }
    ensures { Appends out.old out.new (reply_header xid) }
{
    put_accepted_header(out, xid);
    put_unsigned(out, SUCCESS);
}

#[tactic(auto, using(crate::proofs::Appending::appending), unfolding(crate::specs::Spelling::accepted_header))]
fn put_accepted_header(out: &mut Vec<u8>, xid: u32)
    requires { HasRoom out.old (accepted_header xid) }
    ensures { Appends out.old out.new (accepted_header xid) }
{
    put_unsigned(out, xid);
    put_unsigned(out, REPLY);
    put_unsigned(out, ACCEPTED);
    put_no_authentication(out);
}

#[tactic(auto, using(crate::proofs::Appending::appending), unfolding(crate::specs::Spelling::no_authentication))]
fn put_no_authentication(out: &mut Vec<u8>)
    requires { HasRoom out.old no_authentication }
    ensures { Appends out.old out.new no_authentication }
{
    put_unsigned(out, NO_AUTHENTICATION);
    put_unsigned(out, 0);
}

#[tactic(auto, using(crate::proofs::Appending::appending))]
fn put_class_answer(out: &mut Vec<u8>, answer: &ClassAnswer)
    requires { HasRoom out.old (class_answer_bytes answer.now) }
    ensures { Appends out.old out.new (class_answer_bytes answer.now) }
{
    match answer {
        ClassAnswer::Ok => put_unsigned(out, 0),
        ClassAnswer::Reclass(class) => {
            put_unsigned(out, 1);
            put_class(out, class);
        }
        ClassAnswer::Denied => put_unsigned(out, 2),
        ClassAnswer::BadPattern => put_unsigned(out, 3),
        ClassAnswer::Busy => put_unsigned(out, 4),
    }
}

fn put_soon_answer(out: &mut Vec<u8>, answer: SoonAnswer)
    requires { HasRoom out.old (soon_answer_bytes answer) }
    ensures { Appends out.old out.new (soon_answer_bytes answer) }
{
    match answer {
        SoonAnswer::Ok => put_unsigned(out, 0),
        SoonAnswer::DontSend => put_unsigned(out, 1),
    }
}

#[tactic(auto, using(crate::proofs::Appending::appending))]
fn put_stat(out: &mut Vec<u8>, stat: Option<Stat>)
    requires { HasRoom out.old (stat_bytes stat) }
    ensures { Appends out.old out.new (stat_bytes stat) }
{
    match stat {
        Some(stat) => {
            put_unsigned(out, 0);
            put_figures(out, stat);
        }
        None => put_unsigned(out, 2),
    }
}

#[tactic(auto, using(crate::proofs::Appending::appending))]
fn put_figures(out: &mut Vec<u8>, stat: Stat)
    requires { HasRoom out.old (figures_bytes stat) }
    ensures { Appends out.old out.new (figures_bytes stat) }
{
    put_hyper(out, stat.admitted);
    put_hyper(out, stat.queued);
    put_hyper(out, stat.held);
    put_hyper(out, stat.used);
    put_hyper(out, stat.largest_free);
}

#[tactic(auto, using(crate::proofs::Appending::appending))]
fn put_put_answer(out: &mut Vec<u8>, answer: PutAnswer)
    requires { HasRoom out.old (put_answer_bytes answer) }
    ensures { Appends out.old out.new (put_answer_bytes answer) }
{
    match answer {
        PutAnswer::Admitted { n, time, evicted } => {
            put_unsigned(out, 0);
            put_hyper(out, n);
            put_hyper(out, time);
            put_hyper(out, evicted);
        }
        PutAnswer::TooBig { need, arena } => {
            put_unsigned(out, 1);
            put_hyper(out, need);
            put_hyper(out, arena);
        }
        PutAnswer::Duplicate { n } => {
            put_unsigned(out, 2);
            put_hyper(out, n);
        }
        PutAnswer::TimeEnd => put_unsigned(out, 3),
        PutAnswer::Locked { held } => {
            put_unsigned(out, 4);
            put_hyper(out, held);
        }
        PutAnswer::Denied => put_unsigned(out, 5),
    }
}

#[tactic(auto, using(crate::proofs::Appending::appending), unfolding(crate::specs::Spelling::class_bytes))]
fn put_class(out: &mut Vec<u8>, class: &ClassSpec)
    requires { HasRoom out.old (class_bytes class.now) }
    ensures { Appends out.old out.new (class_bytes class.now) }
{
    let specs = class.specs.as_slice();
    put_instant(out, class.from);
    put_instant(out, class.to);
    put_unsigned(out, specs.len() as u32);
    put_specs(out, specs);
}

fn put_specs(out: &mut Vec<u8>, specs: &[Spec])
    requires { HasRoom out.old (flat_map spec_bytes specs.now) }
    ensures { Appends out.old out.new (flat_map spec_bytes specs.now) }
{
    for spec in specs {
        put_spec(out, spec);
    }
}

#[tactic(auto, using(crate::proofs::Appending::appending), unfolding(crate::specs::Spelling::spec_bytes))]
fn put_spec(out: &mut Vec<u8>, spec: &Spec)
    requires { HasRoom out.old (spec_bytes spec.now) }
    ensures { Appends out.old out.new (spec_bytes spec.now) }
{
    put_unsigned(out, spec.feed.0);
    put_opaque(out, spec.pattern.as_slice());
}

#[tactic(auto, using(crate::proofs::Appending::appending), unfolding(crate::specs::Spelling::instant_bytes))]
fn put_instant(out: &mut Vec<u8>, instant: Micros)
    requires { HasRoom out.old (instant_bytes instant) }
    ensures { Appends out.old out.new (instant_bytes instant) }
{
    let micros = instant.get();
    put_unsigned(out, (micros / 1_000_000) as u32);
    put_unsigned(out, (micros % 1_000_000) as u32);
}

fn put_info(out: &mut Vec<u8>, info: &Info)
    requires { HasRoom out.old (spelling info.now) }
    ensures { Appends out.old out.new (spelling info.now) }
{
    let mut bytes = [0; LONGEST_METADATA];
    let len = info_len(info);
    write_info(info, &mut bytes);
    put(out, &bytes[..len]);
}

#[tactic(auto, using(crate::proofs::Appending::appending), unfolding(ldm_xdr::specs::Spelling::opaque))]
fn put_opaque(out: &mut Vec<u8>, bytes: &[u8])
    requires short { length bytes.now < 2 ^ 32 }
    requires room { HasRoom out.old (opaque bytes.now) }
    ensures { Appends out.old out.new (opaque bytes.now) }
{
    put_unsigned(out, bytes.len() as u32);
    put_padded(out, bytes);
}

#[tactic(auto, using(crate::proofs::Appending::appending))]
fn put_padded(out: &mut Vec<u8>, bytes: &[u8])
    requires { HasRoom out.old (padded bytes.now) }
    ensures { Appends out.old out.new (padded bytes.now) }
{
    put(out, bytes);
    put_zeros(out, (4 - bytes.len() % 4) % 4);
}

/// Writes zero bytes.
pub(crate) fn put_zeros(out: &mut Vec<u8>, count: usize)
    requires { HasRoom out.old (replicate count 0) }
    ensures { Appends out.old out.new (replicate count 0) }
{
    let len = out.len() + count;
    if out.resize(len, 0).is_err() {
        unreachable!();
    }
}

#[tactic(auto, unfolding(ldm_xdr::specs::Spelling::number))]
pub(crate) fn put_unsigned(out: &mut Vec<u8>, n: u32)
    requires { HasRoom out.old (number w32 n) }
    ensures { Appends out.old out.new (number w32 n) }
{
    let mut bytes = [0; 4];
    BigEndian::write_u32(&mut bytes, n);
    put(out, &bytes);
}

#[tactic(auto, unfolding(ldm_xdr::specs::Spelling::number))]
fn put_hyper(out: &mut Vec<u8>, n: u64)
    requires { HasRoom out.old (number w64 n) }
    ensures { Appends out.old out.new (number w64 n) }
{
    let mut bytes = [0; 8];
    BigEndian::write_u64(&mut bytes, n);
    put(out, &bytes);
}

fn put(out: &mut Vec<u8>, bytes: &[u8])
    requires { HasRoom out.old bytes.now }
    ensures { Appends out.old out.new bytes.now }
{
    if out.extend_from_slice(bytes).is_err() {
        unreachable!();
    }
}
