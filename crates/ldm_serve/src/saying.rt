//! What the peer is owed.
ghost use Rattle.std.specs.Prelude.{◌≡◌, ◌++◌, ◌∷◌, [], OnOk, OnErr};
ghost use Rattle.ldm_relay.specs.MessageView.{sent_of};
ghost use Rattle.ldm_relay.specs.Writable.{IsWritable};
ghost use Rattle.ldm_relay.specs.Spelling.{records_of};
ghost use Rattle.ldm_serve.specs.Responds.{HasAnswerRoom};

use ldm_relay::{Message, write_message};
use ldm_types::OutOfMemory;

/// The most bytes of the record of an answer that the queue decides: one with its figures.
pub const LONGEST_ANSWER: usize = 72;

// Appends the record of a message.
pub(crate) fn say(message: &Message, out: &mut Vec<u8>) -> Result<(), OutOfMemory>
    requires { IsWritable (sent_of message.now) }
    ensures ok { OnOk result (out.new.items ≡ out.old.items ++ records_of (sent_of message.now ∷ [])) }
    ensures err { OnErr result (out.new.items ≡ out.old.items) }
{
    write_message(message, out)
}

// Takes room for an answer, before the queue is asked.
pub(crate) fn answer_room(out: &mut Vec<u8>) -> Result<(), OutOfMemory>
    ensures ok { OnOk result (HasAnswerRoom out.new) }
    ensures same { out.new.items ≡ out.old.items }
{
    out.reserve(LONGEST_ANSWER)?;
    Ok(())
}
