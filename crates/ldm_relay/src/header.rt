//! What stands before the body of a call and before the result of a reply (RFC 5531, section 9).
ghost use Rattle.std.specs.Prelude.{◌≡◌, MatchResult, Ok, Err};
ghost use Rattle.ldm_relay.specs.Headers.{authentication_in, call_header_in, reply_header_in};
ghost use Rattle.ldm_relay.specs.Reading.{called};
ghost use Rattle.ldm_xdr.specs.FieldReads.{Gives};

use crate::fault::RelayFault;
use crate::procedure::{PROGRAM, Procedure, VERSION};
use ldm_xdr::Fields;

// The two types of messages.
pub(crate) const CALL: u32 = 0;

pub(crate) const REPLY: u32 = 1;

// The version of the protocol of remote procedure calls.
pub(crate) const RPC_VERSION: u32 = 2;

// The status of a reply to a call that was not denied.
pub(crate) const ACCEPTED: u32 = 0;

// The accept status of a procedure that was carried out, and the greatest one: 1 to 5 say why it was not.
pub(crate) const SUCCESS: u32 = 0;

pub(crate) const LAST_STATUS: u32 = 5;

// The flavour of a credential or verifier that proves nothing.
pub(crate) const NO_AUTHENTICATION: u32 = 0;

// The most bytes of the body of a credential or verifier.
pub(crate) const LONGEST_AUTHENTICATION: u32 = 400;

/// The header of a call.
#[derive(Clone, Copy)]
pub(crate) struct CallHeader {
    pub xid: u32,
    pub program: u32,
    pub version: u32,
    pub procedure: u32,
}

/// Reads the header of a call.
#[tactic(auto, unfolding(crate::specs::Headers::call_header_in))]
pub(crate) fn read_call_header(fields: &mut Fields) -> Result<CallHeader, usize>
    ensures { Gives (λ header. header) result (call_header_in fields.old) fields.new }
{
    let xid = fields.unsigned()?;
    fields.exactly(CALL)?;
    fields.exactly(RPC_VERSION)?;
    let program = fields.unsigned()?;
    let version = fields.unsigned()?;
    let procedure = fields.unsigned()?;
    pass_authentication(fields)?;
    pass_authentication(fields)?;
    Ok(CallHeader {
        xid,
        program,
        version,
        procedure,
    })
}

/// The procedure that a header names.
pub(crate) fn called(header: CallHeader) -> Result<Procedure, RelayFault>
    ensures { result ≡ called header }
{
    if header.program != PROGRAM || header.version != VERSION {
        return Err(RelayFault::WrongProgram {
            xid: header.xid,
            program: header.program,
            version: header.version,
        });
    }
    match Procedure::of_number(header.procedure) {
        Some(procedure) => Ok(procedure),
        None => Err(RelayFault::WrongProcedure {
            xid: header.xid,
            procedure: header.procedure,
        }),
    }
}

/// Reads the header of a reply up to its accept status, which is left: the number of the call that is answered.
#[tactic(auto, unfolding(crate::specs::Headers::reply_header_in))]
pub(crate) fn read_reply_header(fields: &mut Fields) -> Result<u32, usize>
    ensures { Gives (λ xid. xid) result (reply_header_in fields.old) fields.new }
{
    let xid = fields.unsigned()?;
    fields.exactly(REPLY)?;
    fields.exactly(ACCEPTED)?;
    pass_authentication(fields)?;
    fields.again().up_to(LAST_STATUS)?;
    Ok(xid)
}

// Goes past a credential or verifier.
#[tactic(auto, unfolding(crate::specs::Headers::authentication_in))]
fn pass_authentication(fields: &mut Fields) -> Result<(), usize>
    ensures { MatchResult result (λ _. authentication_in fields.old ≡ Ok fields.new)
        (λ bad. authentication_in fields.old ≡ Err bad) }
{
    fields.exactly(NO_AUTHENTICATION)?;
    fields.pass(LONGEST_AUTHENTICATION)
}
