//! What the content of a record is.
ghost use Rattle.std.specs.Prelude.{◌≡◌, Bool, Ok, MatchOption};
ghost use Rattle.ldm_types.specs.declared.class.ClassSpec.{ClassSpec};
ghost use Rattle.ldm_relay.specs.declared.procedure.Procedure.TheVariants as procedure;
ghost use Rattle.ldm_relay.specs.Procedure.{number_of};
ghost use Rattle.ldm_relay.specs.Reading.{call_of, reply_of};
ghost use Rattle.ldm_relay.specs.Sent as sent;
ghost use Rattle.ldm_watch.specs.Step.{by_call, by_reply};
ghost use Rattle.ldm_watch.specs.declared.step.Step.TheVariants as said;

use crate::step::Step;
use ldm_relay::{Message, NotifymeReply, Procedure, read_call, read_reply};

/// The reply to a NOTIFYME that the content of a record is, if it is one.
pub(crate) fn read_answer(content: &[u8]) -> Option<NotifymeReply>
    ensures { MatchOption result
        ((class : ClassSpec) (again : Bool)
        → by_reply class again (reply_of (number_of procedure.Notifyme) content.now) ≡ said.Bad)
        (λ reply. reply_of (number_of procedure.Notifyme) content.now ≡ Ok
        (sent.NotifymeReply reply.xid reply.answer)) }
{
    match read_reply(content, Procedure::Notifyme.number()) {
        Ok(Message::NotifymeReply(reply)) => Some(reply),
        Ok(_) => None,
        Err(_) => None,
    }
}

/// What the content of a record says once the peer tells of products.
pub(crate) fn read_notice(content: &[u8]) -> Step
    ensures { result ≡ by_call (call_of content.now) }
{
    match read_call(content) {
        Ok(Message::Notification(notification)) => Step::Notice(notification.info),
        Ok(Message::Isalive(_)) => Step::Alive,
        Ok(_) => Step::Bad,
        Err(_) => Step::Bad,
    }
}
