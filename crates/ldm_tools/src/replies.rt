//! The replies that one who asks is owed.
ghost use Rattle.std.specs.Prelude.{◌≡◌, ◌≤◌, Option, MatchOption};
ghost use Rattle.ldm_outside.specs.Link.{IsNotClosed};
ghost use Rattle.ldm_model.specs.declared.stat.Stat.{Stat};
ghost use Rattle.ldm_tools.specs.Replies.{HearsReply, IsStatReply};

use crate::no_reply::{NoReply, no_reply};
use crate::reader::LinkReader;
use ldm_model::Stat;
use ldm_outside::Link;
use ldm_relay::{Message, Procedure, read_reply};

/// Hears the reply to the QSTAT of that number, which is the next record that the link gives.
pub(crate) fn hear_stat<K: Link>(
    reader: &mut LinkReader,
    link: &mut K,
    xid: u32,
) -> Result<Option<Stat>, NoReply>
    requires { IsNotClosed (K.tells link.old) }
    ensures heard { HearsReply (IsStatReply xid) result reader.old reader.new (K.tells link.old) (K.tells link.new) }
    ensures faults_kept { (K.tells link.old).faults ≤ (K.tells link.new).faults }
    ensures ends_kept { (K.tells link.old).ends ≤ (K.tells link.new).ends }
    ensures still_open { IsNotClosed (K.tells link.new) }
{
    match reader.hear(link) {
        Ok(()) => match stat_in(reader.content(), xid) {
            Some(stat) => Ok(stat),
            None => Err(NoReply::BadFrame { at: reader.place() }),
        },
        Err(why) => Err(no_reply(why)),
    }
}

// What the content of a record tells, if it is the reply to the QSTAT of that number.
fn stat_in(content: &[u8], xid: u32) -> Option<Option<Stat>>
    ensures { MatchOption result ((stat : Option Stat) → ¬ (IsStatReply xid stat content.now))
        (λ stat. IsStatReply xid stat content.now) }
{
    match read_reply(content, Procedure::Qstat.number()) {
        Ok(Message::QstatReply(reply)) if reply.xid == xid => Some(reply.stat),
        _ => None,
    }
}
