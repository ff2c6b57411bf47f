//! What a receiver sends.
ghost use Rattle.std.specs.Prelude.{◌≡◌, ◌++◌, ◌∷◌, [], OnOk, OnErr};
ghost use Rattle.ldm_relay.specs.Sent as sent;
ghost use Rattle.ldm_intake.specs.Room.{HasReplyRoom};
ghost use Rattle.ldm_relay.specs.Spelling.{records_of};

use ldm_relay::{ComingsoonReply, Feedme, Message, SoonAnswer, write_message};
use ldm_types::{ClassSpec, OutOfMemory};

/// The bytes of the record of a reply to a COMINGSOON.
pub const SOON_REPLY: usize = 32;

/// Appends the record of the reply to the COMINGSOON of that number.
pub fn put_soon(out: &mut Vec<u8>, xid: u32, answer: SoonAnswer)
    requires { HasReplyRoom out.old }
    ensures { out.new.items ≡ out.old.items ++ records_of (sent.ComingsoonReply xid answer ∷ []) }
{
    let message = Message::ComingsoonReply(ComingsoonReply { xid, answer });
    if write_message(&message, out).is_err() {
        unreachable!();
    }
}

/// Appends the record of a FEEDME of that number.
pub fn put_feedme(
    out: &mut Vec<u8>,
    xid: u32,
    class: &ClassSpec,
    max_hereis: u32,
) -> Result<(), OutOfMemory>
    ensures ok { OnOk result (out.new.items ≡ out.old.items ++ records_of (sent.Feedme xid class.now max_hereis ∷ [])) }
    ensures err { OnErr result (out.new.items ≡ out.old.items) }
{
    let class = class.copy();
    write_message(
        &Message::Feedme(Feedme {
            xid,
            class,
            max_hereis,
        }),
        out,
    )
}
