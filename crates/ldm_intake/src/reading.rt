//! The reply to a request, as a record has it.
ghost use Rattle.std.specs.Prelude.{◌≡◌, Bool, Ok, MatchOption};
ghost use Rattle.ldm_types.specs.declared.class.ClassSpec.{ClassSpec};
ghost use Rattle.ldm_relay.specs.declared.procedure.Procedure.TheVariants as procedure;
ghost use Rattle.ldm_relay.specs.Procedure.{number_of};
ghost use Rattle.ldm_relay.specs.Reading.{reply_of};
ghost use Rattle.ldm_relay.specs.Sent as sent;
ghost use Rattle.ldm_intake.specs.Course.{Comes};
ghost use Rattle.ldm_intake.specs.Receiving.{Receiving};
ghost use Rattle.ldm_intake.specs.Record.{reply_course};
ghost use Rattle.ldm_intake.specs.Step.{Bad};

use ldm_relay::{FeedmeReply, Message, Procedure, read_reply};

/// The reply to a FEEDME that the content of a record is, if it is one.
pub fn read_answer(content: &[u8]) -> Option<FeedmeReply>
    ensures { MatchOption result
        ((s : Receiving) (class : ClassSpec) (again : Bool)
        → reply_course s class again (reply_of (number_of procedure.Feedme) content.now) ≡ Comes Bad)
        (λ reply. reply_of (number_of procedure.Feedme) content.now ≡ Ok (sent.FeedmeReply reply.xid reply.answer)) }
{
    match read_reply(content, Procedure::Feedme.number()) {
        Ok(Message::FeedmeReply(reply)) => Some(reply),
        Ok(_) => None,
        Err(_) => None,
    }
}
