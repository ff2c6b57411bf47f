//! FEEDME and NOTIFYME.
ghost use Rattle.std.specs.Prelude.{ℕ};
ghost use Rattle.ldm_outside.specs.Clock.{ClockRecord};
ghost use Rattle.ldm_shared.specs.Passes.{PassView};
ghost use Rattle.ldm_serve.specs.Respond.{to_feedme, to_notifyme};
ghost use Rattle.ldm_serve.specs.Responds.{Responds, stands};

use crate::responded::{RespondFault, Responded};
use crate::saying::say;
use ldm_class::{Class, ClassFault};
use ldm_relay::{ClassAnswer, Feedme, FeedmeReply, Message, Notifyme, NotifymeReply};
use std::alloc::Global;

// A request to be fed: the feeding answers it, where each pattern of its class means something.
pub(crate) fn feedme(
    alloc: Global,
    ask: Feedme,
    out: &mut Vec<u8>,
) -> Result<Responded, RespondFault>
    ensures { (pass : PassView) (clock : ClockRecord) → Responds result (to_feedme ask.xid ask.class ask.max_hereis)
        (stands pass clock out.old.items) (stands pass clock out.new.items) }
{
    match Class::check(alloc, &ask.class) {
        Ok(()) => Ok(Responded::Feeds { ask }),
        Err(ClassFault::BadPattern { .. }) => {
            let xid = ask.xid;
            let answer = ClassAnswer::BadPattern;
            say(&Message::FeedmeReply(FeedmeReply { xid, answer }), out)?;
            Ok(Responded::GoesOn)
        }
        Err(ClassFault::OutOfMemory) => Err(RespondFault::OutOfMemory),
    }
}

// A request to be told of products: the notifying answers it, where each pattern of its class means something.
pub(crate) fn notifyme(
    alloc: Global,
    ask: Notifyme,
    out: &mut Vec<u8>,
) -> Result<Responded, RespondFault>
    ensures { (pass : PassView) (clock : ClockRecord) → Responds result (to_notifyme ask.xid ask.class)
        (stands pass clock out.old.items) (stands pass clock out.new.items) }
{
    match Class::check(alloc, &ask.class) {
        Ok(()) => Ok(Responded::Notifies { ask }),
        Err(ClassFault::BadPattern { .. }) => {
            let xid = ask.xid;
            let answer = ClassAnswer::BadPattern;
            say(&Message::NotifymeReply(NotifymeReply { xid, answer }), out)?;
            Ok(Responded::GoesOn)
        }
        Err(ClassFault::OutOfMemory) => Err(RespondFault::OutOfMemory),
    }
}
