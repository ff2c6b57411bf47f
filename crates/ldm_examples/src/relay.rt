//! The example of ldm_relay.

ghost use Rattle.std.specs.Prelude.{◌≡◌, ◌+◌, ◌≤◌, ◌++◌, length, OnOk};
ghost use Rattle.ldm_types.specs.Info.{metadata_len, pad4};
ghost use Rattle.ldm_relay.specs.Sent.{Sent as sent};
ghost use Rattle.ldm_relay.specs.Spelling.{record_of, written};
ghost use Rattle.ldm_relay.specs.declared.message.TheConstants.{LARGEST_CONTENT};

use ldm_relay::{Hereis, Message, RelayFault, write_message};
use ldm_types::{Info, OutOfMemory};

/// Answers a call that could not be read, where it is owed an answer.
pub fn refuse(fault: RelayFault, out: &mut Vec<u8>) -> Result<(), OutOfMemory> {
    match fault.refusal() {
        Some(refused) => write_message(&Message::Refused(refused), out),
        None => Ok(()),
    }
}

/// Appends the record of a product.
pub fn send(out: &mut Vec<u8>, xid: u32, info: Info, body: &[u8]) -> Result<(), OutOfMemory>
    requires size { length body.now ≡ info.size }
    requires short { 40 + metadata_len info + pad4 (length body.now) ≤ LARGEST_CONTENT }
    ensures { OnOk result (out.new.items ≡ out.old.items ++ record_of (written (sent.Hereis xid info body.now))) }
{
    write_message(&Message::Hereis(Hereis { xid, info, body }), out)
}
