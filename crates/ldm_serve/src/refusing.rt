//! Records that are no calls.
ghost use Rattle.std.specs.Prelude.{◌≡◌, ◌++◌, OnOk, OnErr};
ghost use Rattle.ldm_outside.specs.Clock.{ClockRecord};
ghost use Rattle.ldm_shared.specs.Passes.{PassView};
ghost use Rattle.ldm_relay.specs.Spelling.{records_of};
ghost use Rattle.ldm_serve.specs.Respond.{refusals, to_fault};
ghost use Rattle.ldm_serve.specs.Responds.{Responds, stands};

use crate::responded::{RespondFault, Responded};
use crate::saying::say;
use ldm_relay::{Message, RelayFault};
use ldm_types::OutOfMemory;

// A record that could not be read as a call: where it is owed a refusal, that is appended.
pub(crate) fn refuse(fault: RelayFault, out: &mut Vec<u8>) -> Result<Responded, RespondFault>
    ensures { (pass : PassView) (clock : ClockRecord) → Responds result (to_fault fault)
        (stands pass clock out.old.items) (stands pass clock out.new.items) }
{
    say_refusal(fault, out)?;
    match fault {
        RelayFault::WrongProcedure { .. } => Ok(Responded::GoesOn),
        RelayFault::WrongProgram { .. } => Ok(Responded::Refused),
        RelayFault::BadMessage { .. } => Ok(Responded::Refused),
        RelayFault::NotRpc { .. } => Ok(Responded::Refused),
    }
}

// Appends the refusal that is owed, where one is.
fn say_refusal(fault: RelayFault, out: &mut Vec<u8>) -> Result<(), OutOfMemory>
    ensures ok { OnOk result (out.new.items ≡ out.old.items ++ records_of (refusals fault)) }
    ensures err { OnErr result (out.new.items ≡ out.old.items) }
{
    match fault.refusal() {
        Some(refused) => say(&Message::Refused(refused), out),
        None => Ok(()),
    }
}
