//! Room for what a record makes a receiver write, which is taken before the queue is called.
ghost use Rattle.std.specs.Prelude.{◌≡◌, OnOk};
ghost use Rattle.ldm_intake.specs.Room.{HasNoteRoom, HasReplyRoom};

use crate::notes::LONGEST_NOTE;
use crate::replies::SOON_REPLY;
use ldm_types::OutOfMemory;

// Room for a log line.
pub(crate) fn note_room(notes: &mut Vec<u8>) -> Result<(), OutOfMemory>
    ensures ok { OnOk result (HasNoteRoom notes.new) }
    ensures same { notes.new.items ≡ notes.old.items }
{
    notes.reserve(LONGEST_NOTE)?;
    Ok(())
}

// Room for the reply to a COMINGSOON.
pub(crate) fn reply_room(out: &mut Vec<u8>) -> Result<(), OutOfMemory>
    ensures ok { OnOk result (HasReplyRoom out.new) }
    ensures same { out.new.items ≡ out.old.items }
{
    out.reserve(SOON_REPLY)?;
    Ok(())
}
