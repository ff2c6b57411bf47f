//! Why a record is no message, and what a call is answered that is none.
ghost use Rattle.std.specs.Prelude.{◌≡◌, IfSome};
ghost use Rattle.ldm_relay.specs.Fits.{Fits};
ghost use Rattle.ldm_relay.specs.MessageView.{refused_of};
ghost use Rattle.ldm_relay.specs.Owed.{refusal_owed, wrong_program};

use crate::message::{Refusal, Refused};
use crate::procedure::{PROGRAM, VERSION};
use thiserror::Error;

/// What is wrong with the content of a record that was read as a message. The faults are tested in this order.
///
/// The `xid` is that of the call or reply, so that a call that was not understood can be answered.
///
/// A place is counted from 0 in the content of the record: that of the first field that cannot be read, or of the first
/// surplus byte. A credential or verifier is two fields, its flavour and its body. A string, an opaque or the body of a
/// product is one field with its length and its padding. A byte of padding that is not zero is told by its own place.
#[derive(Clone, Copy, Debug, PartialEq, Eq, Error)]
pub enum RelayFault {
    /// The header of the call or reply cannot be read (RFC 5531, section 9), or is not of this project's profile.
    #[error("no header of a remote procedure call at byte {at}")]
    NotRpc {
        at: usize,
    },
    /// The call is for another program, or for another version of it.
    #[error("a call for version {version} of program {program}")]
    WrongProgram {
        xid: u32,
        program: u32,
        version: u32,
    },
    /// There is no such procedure, or none of this number that has a reply.
    #[error("no procedure {procedure}")]
    WrongProcedure {
        xid: u32,
        procedure: u32,
    },
    /// The body cannot be read, or a reply says that the call was not carried out.
    #[error("the message cannot be read at byte {at}")]
    BadMessage {
        xid: u32,
        at: usize,
    },
}

impl RelayFault {
    /// The refusal that a call with this fault is owed, as [`read_call`](crate::read_call) answers it: `None` where it
    /// is no call that could be answered.
    ///
    /// A call of another program is told so, and a call of another version of this one is told the version that there
    /// is.
    pub fn refusal(self) -> Option<Refused>
        ensures refusal { result ≡ refusal_owed self }
        // So it can be written, and is read again.
        ensures fits { IfSome result (λ refused. Fits (refused_of refused)) }
    {
        match self {
            RelayFault::NotRpc { .. } => None,
            RelayFault::WrongProgram { xid, program, .. } => Some(Refused {
                xid,
                why: wrong_program(program),
            }),
            RelayFault::WrongProcedure { xid, .. } => Some(Refused {
                xid,
                why: Refusal::ProcedureUnavailable,
            }),
            RelayFault::BadMessage { xid, .. } => Some(Refused {
                xid,
                why: Refusal::GarbageArguments,
            }),
        }
    }
}

// What a call of that program is told, or of another version of this one.
fn wrong_program(program: u32) -> Refusal
    ensures { result ≡ wrong_program program }
{
    if program == PROGRAM {
        Refusal::ProgramMismatch {
            lowest: VERSION,
            highest: VERSION,
        }
    } else {
        Refusal::ProgramUnavailable
    }
}
