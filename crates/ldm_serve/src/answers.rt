//! Answers of the queue, as the peer is told them.
ghost use Rattle.std.specs.Prelude.{◌≡◌, ℕ, ◌++◌, ◌∷◌, [], Some};
ghost use Rattle.ldm_model.specs.Answers.{insert_answer};
ghost use Rattle.ldm_relay.specs.Sent as sent;
ghost use Rattle.ldm_relay.specs.Spelling.{records_of};
ghost use Rattle.ldm_serve.specs.Answering.{put_replies, stat_replies};
ghost use Rattle.ldm_serve.specs.Responds.{HasAnswerRoom};

use ldm_model::{InsertReply, Stat};
use ldm_relay::{Message, PutAnswer, QstatReply, write_message, write_put_reply};

// Appends the answer to the PUT of that number.
pub(crate) fn put_answer(out: &mut Vec<u8>, xid: u32, answer: PutAnswer)
    requires { HasAnswerRoom out.old }
    ensures { out.new.items ≡ out.old.items ++ records_of (sent.PutReply xid answer ∷ []) }
{
    if write_put_reply(xid, answer, out).is_err() {
        unreachable!();
    }
}

// Appends the answer to the QSTAT of that number.
pub(crate) fn put_stat(out: &mut Vec<u8>, xid: u32, stat: Option<Stat>)
    requires { HasAnswerRoom out.old }
    ensures { out.new.items ≡ out.old.items ++ records_of (sent.QstatReply xid stat ∷ []) }
{
    let message = Message::QstatReply(QstatReply { xid, stat });
    if write_message(&message, out).is_err() {
        unreachable!();
    }
}

// What the peer is told of an insertion.
pub(crate) fn answer_of(reply: InsertReply) -> PutAnswer
    ensures { (xid : ℕ) → put_replies xid (insert_answer reply) ≡ sent.PutReply xid result ∷ [] }
{
    match reply {
        InsertReply::Admitted { n, time, evicted } => PutAnswer::Admitted {
            n,
            time: time.get(),
            evicted,
        },
        InsertReply::TooBig { need, arena } => PutAnswer::TooBig { need, arena },
        InsertReply::Duplicate { n } => PutAnswer::Duplicate { n },
        InsertReply::TimeEnd => PutAnswer::TimeEnd,
        InsertReply::Locked { held } => PutAnswer::Locked { held },
    }
}
