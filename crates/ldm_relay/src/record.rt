//! Writing a message as a record.
ghost use Rattle.std.specs.Prelude.{◌≡◌, ◌++◌, OnOk, OnErr, IsOk};
ghost use Rattle.ldm_relay.specs.MessageView.{sent_of};
ghost use Rattle.ldm_relay.specs.Spelling.{written, in_one, record_of};
ghost use Rattle.ldm_rpc.specs.Spelling.{Fits as RecordFits};
ghost use Rattle.ldm_relay.specs.declared.message.TheConstants.{LARGEST_CONTENT};
ghost use Rattle.ldm_relay.specs.Writable.{IsWritable};
ghost use Rattle.ldm_relay.specs.Fits.{Fits};
ghost use Rattle.ldm_relay.specs.Appends.{HasRoom};

use crate::length::content_len;
use crate::message::Message;
use crate::write::{put_message, put_unsigned};
use ldm_rpc::LAST_FRAGMENT;
use ldm_types::OutOfMemory;

/// Appends the record of the message: a header of four bytes, and the content as one fragment. The credential and the
/// verifier are empty. The body is copied once.
///
/// The body of a [`Hereis`](crate::Hereis) or [`Put`](crate::Put) must have `info.size()` bytes and leave the content
/// within [`LARGEST_CONTENT`](crate::LARGEST_CONTENT), and a block must have at most
/// [`LARGEST_BLOCK`](crate::LARGEST_BLOCK). After an `Err`, `out` is as before.
#[tactic(auto, using(crate::proofs::Appending::appending, crate::proofs::Lengths::lengths, crate::proofs::Records::one_record), unfolding(ldm_xdr::specs::Spelling::number))]
pub fn write_message(message: &Message, out: &mut Vec<u8>) -> Result<(), OutOfMemory>
    requires { IsWritable (sent_of message.now) }
    ensures ok { OnOk result (out.new.items ≡ out.old.items ++ record_of (written (sent_of message.now))) }
    // The message is within the bounds of the law that it is read again.
    ensures fits { Fits (sent_of message.now) }
    // It is one record of a stream whose limit is the largest content.
    ensures record_fits { RecordFits LARGEST_CONTENT (in_one (written (sent_of message.now))) }
    ensures err { OnErr result (out.new.items ≡ out.old.items) }
    // Memory is asked for only where there is no room.
    ensures enough { HasRoom out.old (record_of (written (sent_of message.now))) → IsOk result }
{
    let len = content_len(message);
    out.reserve(4 + len)?;
    put_unsigned(out, LAST_FRAGMENT + len as u32);
    put_message(out, message);
    Ok(())
}
