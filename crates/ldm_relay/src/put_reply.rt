//! Writing the reply to a PUT as a record.
ghost use Rattle.std.specs.Prelude.{◌≡◌, ◌++◌, OnOk, OnErr, IsOk};
ghost use Rattle.ldm_relay.specs.Appends.{HasRoom};
ghost use Rattle.ldm_relay.specs.Sent as sent;
ghost use Rattle.ldm_relay.specs.Spelling.{written, record_of};

use crate::length::put_reply_len;
use crate::message::PutAnswer;
use crate::write::{put_put_reply, put_unsigned};
use ldm_rpc::LAST_FRAGMENT;
use ldm_types::OutOfMemory;

/// Appends the record of the reply to a PUT, as [`write_message`](crate::write_message) does. After an `Err`, `out` is
/// as before.
///
/// A [`Message`](crate::Message) has room for a class, some 8,700 bytes, and this has not.
#[tactic(auto, using(crate::proofs::Appending::appending, crate::proofs::Lengths::lengths), unfolding(ldm_xdr::specs::Spelling::number))]
pub fn write_put_reply(xid: u32, answer: PutAnswer, out: &mut Vec<u8>) -> Result<(), OutOfMemory>
    ensures ok { OnOk result (out.new.items ≡ out.old.items ++ record_of (written (sent.PutReply xid answer))) }
    ensures err { OnErr result (out.new.items ≡ out.old.items) }
    // Memory is asked for only where there is no room.
    ensures enough { HasRoom out.old (record_of (written (sent.PutReply xid answer))) → IsOk result }
{
    let len = put_reply_len(xid, answer);
    out.reserve(4 + len)?;
    put_unsigned(out, LAST_FRAGMENT + len as u32);
    put_put_reply(out, xid, answer);
    Ok(())
}
