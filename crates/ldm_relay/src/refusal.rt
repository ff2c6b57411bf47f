//! Reading replies to calls that were not carried out.
ghost use Rattle.std.specs.Prelude.{IfOk};
ghost use Rattle.ldm_relay.specs.Fits.{RefusalFits, Fits};
ghost use Rattle.ldm_relay.specs.MessageView.{refused_of};
ghost use Rattle.ldm_relay.specs.Refusals.{versions_in, refusal_in, refused_in};
ghost use Rattle.ldm_xdr.specs.FieldReads.{Gives};
ghost use Rattle.ldm_relay.specs.Reading.{Answers, whole, refusal_of};

use crate::fault::RelayFault;
use crate::header::read_reply_header;
use crate::message::{Refusal, Refused};
use ldm_xdr::Fields;

/// The reply that is the whole content of a record, and says why a call was not carried out. It takes no memory.
///
/// A reply that tells a success is `BadMessage`, at the place of its accept status: [`read_reply`](crate::read_reply)
/// reads it. The verifier must be of flavour 0 and have at most 400 bytes, which are not looked at.
#[tactic(auto, unfolding(crate::specs::Reading::refusal_of))]
pub fn read_refusal(bytes: &[u8]) -> Result<Refused, RelayFault>
    ensures read { Answers refused_of result (refusal_of bytes.now) }
    ensures fits { IfOk result (λ m. Fits (refused_of m)) }
{
    let mut fields = Fields::of(bytes);
    let xid = match read_reply_header(&mut fields) {
        Ok(xid) => xid,
        Err(left) => {
            return Err(RelayFault::NotRpc {
                at: bytes.len().saturating_sub(left),
            });
        }
    };
    match read_rest(xid, fields) {
        Ok(refused) => Ok(refused),
        Err(left) => Err(RelayFault::BadMessage {
            xid,
            at: bytes.len().saturating_sub(left),
        }),
    }
}

// Where one of these cannot read a field, the error is how many bytes there are from it to the end of the record.

// What stands from the accept status on, and nothing behind it.
#[tactic(auto, unfolding(crate::specs::Reading::whole, crate::specs::Refusals::refused_in))]
fn read_rest(xid: u32, mut fields: Fields<'_>) -> Result<Refused, usize>
    ensures read { Answers refused_of result (whole (refused_in xid fields.entry)) }
    ensures fits { IfOk result (λ m. Fits (refused_of m)) }
{
    let why = read_why(&mut fields)?;
    fields.end()?;
    Ok(Refused { xid, why })
}

#[tactic(auto, unfolding(crate::specs::Refusals::refusal_in))]
fn read_why(fields: &mut Fields) -> Result<Refusal, usize>
    ensures read { Gives (λ why. why) result (refusal_in fields.old) fields.new }
    ensures fits { IfOk result (λ why. RefusalFits why) }
{
    let left = fields.left();
    match fields.unsigned()? {
        1 => Ok(Refusal::ProgramUnavailable),
        2 => read_versions(fields),
        3 => Ok(Refusal::ProcedureUnavailable),
        4 => Ok(Refusal::GarbageArguments),
        5 => Ok(Refusal::SystemError),
        _ => Err(left),
    }
}

#[tactic(auto, unfolding(crate::specs::Refusals::versions_in))]
fn read_versions(fields: &mut Fields) -> Result<Refusal, usize>
    ensures read { Gives (λ why. why) result (versions_in fields.old) fields.new }
    ensures fits { IfOk result (λ why. RefusalFits why) }
{
    let lowest = fields.unsigned()?;
    let highest = fields.unsigned()?;
    Ok(Refusal::ProgramMismatch { lowest, highest })
}
