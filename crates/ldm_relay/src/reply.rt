//! Reading replies.
ghost use Rattle.std.specs.Prelude.{IfOk, Some};
ghost use Rattle.ldm_relay.specs.MessageView.{sent_of};
ghost use Rattle.ldm_relay.specs.Replies.{accepted_in, result_in, feedme_reply_in, hiya_reply_in};
ghost use Rattle.ldm_relay.specs.Replies.{comingsoon_reply_in, notifyme_reply_in, figures_in, stat_in};
ghost use Rattle.ldm_relay.specs.Replies.{qstat_reply_in, admitted_in, too_big_in, put_answer_in, put_reply_in};
ghost use Rattle.ldm_xdr.specs.FieldReads.{Gives};
ghost use Rattle.ldm_relay.specs.Writable.{IsWritable};
ghost use Rattle.ldm_relay.specs.Fits.{StatFits, PutAnswerFits, Fits};
ghost use Rattle.ldm_relay.specs.Reading.{Answers, whole, reply_of};

use crate::class::read_class_answer;
use crate::fault::RelayFault;
use crate::header::{SUCCESS, read_reply_header};
use crate::message::{
    ComingsoonReply, FeedmeReply, HiyaReply, Message, NotifymeReply, PutAnswer, PutReply,
    QstatReply, SoonAnswer,
};
use crate::procedure::Answered;
use ldm_model::Stat;
use ldm_xdr::Fields;

/// The reply that is the whole content of a record, to a call of that procedure. It takes no memory.
///
/// A reply that tells why the procedure was not carried out is `BadMessage`, at the place of its accept status:
/// [`read_refusal`](crate::read_refusal) reads it. The verifier must be of flavour 0 and have at most 400 bytes, which
/// are not looked at.
#[tactic(auto, unfolding(crate::specs::Reading::reply_of))]
pub fn read_reply(bytes: &[u8], procedure: u32) -> Result<Message<'_>, RelayFault>
    ensures read { Answers sent_of result (reply_of procedure bytes.now) }
    ensures writable { IfOk result (λ m. IsWritable (sent_of m)) }
    ensures fits { IfOk result (λ m. Fits (sent_of m)) }
{
    let mut fields = Fields::of(bytes);
    let xid = match read_reply_header(&mut fields) {
        Ok(xid) => xid,
        Err(left) => {
            return Err(RelayFault::NotRpc {
                at: bytes.len().saturating_sub(left),
            });
        }
    };
    let Some(answered) = Answered::of_number(procedure) else {
        return Err(RelayFault::WrongProcedure { xid, procedure });
    };
    match read_rest(answered, xid, fields) {
        Ok(message) => Ok(message),
        Err(left) => Err(RelayFault::BadMessage {
            xid,
            at: bytes.len().saturating_sub(left),
        }),
    }
}

// Where one of these cannot read a field, the error is how many bytes there are from it to the end of the record.

// What stands from the accept status on, and nothing behind it.
#[tactic(auto, unfolding(crate::specs::Reading::whole))]
fn read_rest(answered: Answered, xid: u32, mut fields: Fields<'_>) -> Result<Message<'_>, usize>
    ensures read { Answers sent_of result (whole (accepted_in answered xid fields.entry)) }
    ensures writable { IfOk result (λ m. IsWritable (sent_of m)) }
    ensures fits { IfOk result (λ m. Fits (sent_of m)) }
{
    let message = read_accepted(answered, xid, &mut fields)?;
    fields.end()?;
    Ok(message)
}

#[tactic(auto, unfolding(crate::specs::Replies::accepted_in))]
fn read_accepted<'a>(
    answered: Answered,
    xid: u32,
    fields: &mut Fields<'a>,
) -> Result<Message<'a>, usize>
    ensures read { Gives sent_of result (accepted_in answered xid fields.old) fields.new }
    ensures writable { IfOk result (λ m. IsWritable (sent_of m)) }
    ensures fits { IfOk result (λ m. Fits (sent_of m)) }
{
    fields.exactly(SUCCESS)?;
    read_result(answered, xid, fields)
}

fn read_result<'a>(
    answered: Answered,
    xid: u32,
    fields: &mut Fields<'a>,
) -> Result<Message<'a>, usize>
    ensures read { Gives sent_of result (result_in answered xid fields.old) fields.new }
    ensures writable { IfOk result (λ m. IsWritable (sent_of m)) }
    ensures fits { IfOk result (λ m. Fits (sent_of m)) }
{
    match answered {
        Answered::Feedme => read_feedme_reply(xid, fields),
        Answered::Hiya => read_hiya_reply(xid, fields),
        Answered::Comingsoon => read_comingsoon_reply(xid, fields),
        Answered::Qstat => read_qstat_reply(xid, fields),
        Answered::Put => read_put_reply(xid, fields),
        Answered::Notifyme => read_notifyme_reply(xid, fields),
    }
}

#[tactic(auto, unfolding(crate::specs::Replies::feedme_reply_in))]
fn read_feedme_reply<'a>(xid: u32, fields: &mut Fields<'a>) -> Result<Message<'a>, usize>
    ensures read { Gives sent_of result (feedme_reply_in xid fields.old) fields.new }
    ensures writable { IfOk result (λ m. IsWritable (sent_of m)) }
    ensures fits { IfOk result (λ m. Fits (sent_of m)) }
{
    let answer = read_class_answer(fields)?;
    Ok(Message::FeedmeReply(FeedmeReply { xid, answer }))
}

#[tactic(auto, unfolding(crate::specs::Replies::notifyme_reply_in))]
fn read_notifyme_reply<'a>(xid: u32, fields: &mut Fields<'a>) -> Result<Message<'a>, usize>
    ensures read { Gives sent_of result (notifyme_reply_in xid fields.old) fields.new }
    ensures writable { IfOk result (λ m. IsWritable (sent_of m)) }
    ensures fits { IfOk result (λ m. Fits (sent_of m)) }
{
    let answer = read_class_answer(fields)?;
    Ok(Message::NotifymeReply(NotifymeReply { xid, answer }))
}

#[tactic(auto, unfolding(crate::specs::Replies::hiya_reply_in))]
fn read_hiya_reply<'a>(xid: u32, fields: &mut Fields<'a>) -> Result<Message<'a>, usize>
    ensures read { Gives sent_of result (hiya_reply_in xid fields.old) fields.new }
    ensures writable { IfOk result (λ m. IsWritable (sent_of m)) }
    ensures fits { IfOk result (λ m. Fits (sent_of m)) }
{
    let max_hereis = fields.unsigned()?;
    let answer = read_class_answer(fields)?;
    Ok(Message::HiyaReply(HiyaReply {
        xid,
        max_hereis,
        answer,
    }))
}

#[tactic(auto, unfolding(crate::specs::Replies::comingsoon_reply_in))]
fn read_comingsoon_reply<'a>(xid: u32, fields: &mut Fields<'a>) -> Result<Message<'a>, usize>
    ensures read { Gives sent_of result (comingsoon_reply_in xid fields.old) fields.new }
    ensures writable { IfOk result (λ m. IsWritable (sent_of m)) }
    ensures fits { IfOk result (λ m. Fits (sent_of m)) }
{
    let left = fields.left();
    let answer = match fields.unsigned()? {
        0 => SoonAnswer::Ok,
        1 => SoonAnswer::DontSend,
        _ => return Err(left),
    };
    Ok(Message::ComingsoonReply(ComingsoonReply { xid, answer }))
}

#[tactic(auto, unfolding(crate::specs::Replies::qstat_reply_in))]
fn read_qstat_reply<'a>(xid: u32, fields: &mut Fields<'a>) -> Result<Message<'a>, usize>
    ensures read { Gives sent_of result (qstat_reply_in xid fields.old) fields.new }
    ensures writable { IfOk result (λ m. IsWritable (sent_of m)) }
    ensures fits { IfOk result (λ m. Fits (sent_of m)) }
{
    let stat = read_stat(fields)?;
    Ok(Message::QstatReply(QstatReply { xid, stat }))
}

#[tactic(auto, unfolding(crate::specs::Replies::stat_in, crate::specs::Replies::told_in))]
fn read_stat(fields: &mut Fields) -> Result<Option<Stat>, usize>
    ensures read { Gives (λ stat. stat) result (stat_in fields.old) fields.new }
    ensures fits { IfOk result (λ stat. StatFits stat) }
{
    let left = fields.left();
    match fields.unsigned()? {
        0 => Ok(Some(read_figures(fields)?)),
        2 => Ok(None),
        _ => Err(left),
    }
}

#[tactic(auto, unfolding(crate::specs::Replies::figures_in))]
fn read_figures(fields: &mut Fields) -> Result<Stat, usize>
    ensures read { Gives (λ figures. figures) result (figures_in fields.old) fields.new }
    ensures fits { IfOk result (λ figures. StatFits (Some figures)) }
{
    let admitted = fields.hyper()?;
    let queued = fields.hyper()?;
    let held = fields.hyper()?;
    let used = fields.hyper()?;
    let largest_free = fields.hyper()?;
    Ok(Stat {
        admitted,
        queued,
        held,
        used,
        largest_free,
    })
}

#[tactic(auto, unfolding(crate::specs::Replies::put_reply_in))]
fn read_put_reply<'a>(xid: u32, fields: &mut Fields<'a>) -> Result<Message<'a>, usize>
    ensures read { Gives sent_of result (put_reply_in xid fields.old) fields.new }
    ensures writable { IfOk result (λ m. IsWritable (sent_of m)) }
    ensures fits { IfOk result (λ m. Fits (sent_of m)) }
{
    let answer = read_put_answer(fields)?;
    Ok(Message::PutReply(PutReply { xid, answer }))
}

#[tactic(auto, unfolding(crate::specs::Replies::put_answer_in, crate::specs::Replies::duplicate_in, crate::specs::Replies::locked_in))]
fn read_put_answer(fields: &mut Fields) -> Result<PutAnswer, usize>
    ensures read { Gives (λ answer. answer) result (put_answer_in fields.old) fields.new }
    ensures fits { IfOk result (λ answer. PutAnswerFits answer) }
{
    let left = fields.left();
    match fields.unsigned()? {
        0 => read_admitted(fields),
        1 => read_too_big(fields),
        2 => Ok(PutAnswer::Duplicate { n: fields.hyper()? }),
        3 => Ok(PutAnswer::TimeEnd),
        4 => Ok(PutAnswer::Locked {
            held: fields.hyper()?,
        }),
        5 => Ok(PutAnswer::Denied),
        _ => Err(left),
    }
}

#[tactic(auto, unfolding(crate::specs::Replies::admitted_in))]
fn read_admitted(fields: &mut Fields) -> Result<PutAnswer, usize>
    ensures read { Gives (λ answer. answer) result (admitted_in fields.old) fields.new }
    ensures fits { IfOk result (λ answer. PutAnswerFits answer) }
{
    let n = fields.hyper()?;
    let time = fields.hyper()?;
    let evicted = fields.hyper()?;
    Ok(PutAnswer::Admitted { n, time, evicted })
}

#[tactic(auto, unfolding(crate::specs::Replies::too_big_in))]
fn read_too_big(fields: &mut Fields) -> Result<PutAnswer, usize>
    ensures read { Gives (λ answer. answer) result (too_big_in fields.old) fields.new }
    ensures fits { IfOk result (λ answer. PutAnswerFits answer) }
{
    let need = fields.hyper()?;
    let arena = fields.hyper()?;
    Ok(PutAnswer::TooBig { need, arena })
}
