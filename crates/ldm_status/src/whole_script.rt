//! A script that is taken whole, before any of its lines is looked at.
ghost use Rattle.std.specs.Prelude.{◌≡◌, ◌<◌, ◌≤◌, length, IfOk, IfErr};
ghost use Rattle.ldm_status.specs.WholeScript.{TakesWhole, TakesPart};

use crate::status::Status;
use crate::streams::PIECE;
use ldm_outside::{Got, Source};
use std::alloc::{AllocError, Global};

/// How many bytes of a script are too many.
pub const LONGEST_SCRIPT: u32 = 67_108_864;

/// Why a script was not taken whole.
#[derive(Clone, Copy, Debug, PartialEq, Eq)]
pub enum ScriptFault {
    /// As many bytes were taken as are too many: [`LONGEST_SCRIPT`].
    StreamLimit,
    /// The source failed.
    SourceFault,
    /// There is no memory.
    OutOfMemory,
}

impl From<AllocError> for ScriptFault {
    ghost use Rattle.std.specs.Prelude.{◌≡◌};
    ghost use Rattle.ldm_status.specs.declared.whole_script.ScriptFault.TheVariants as untaken;

    ghost from_gives = { λ _ why. why ≡ untaken.OutOfMemory };

    fn from(_error: AllocError) -> ScriptFault {
        ScriptFault::OutOfMemory
    }
}

impl From<ScriptFault> for Status {
    ghost use Rattle.std.specs.Prelude.{◌≡◌};
    ghost use Rattle.ldm_status.specs.WholeScript.{status_of_untaken};

    ghost from_gives = { λ why status. status ≡ status_of_untaken why };

    fn from(why: ScriptFault) -> Status {
        match why {
            ScriptFault::StreamLimit => Status::StreamLimit,
            ScriptFault::SourceFault => Status::SourceFault,
            ScriptFault::OutOfMemory => Status::NoMemory,
        }
    }
}

/// Takes all bytes of a source, up to its end. It asks for [`PIECE`] bytes at once.
pub fn take_script<S: Source>(alloc: Global, source: &mut S) -> Result<Vec<u8>, ScriptFault>
    ensures whole { IfOk result (λ text. TakesWhole text.items (S.tells source.old) (S.tells source.new)) }
    ensures part { IfErr result (λ why. TakesPart why (S.tells source.old) (S.tells source.new)) }
    ensures source_faults_kept { (S.tells source.old).faults ≤ (S.tells source.new).faults }
{
    let mut piece = vec![in alloc; 0u8; PIECE]?;
    take_pieces(alloc, &mut piece, source)
}

// Takes them by pieces that are as long as the buffer, at most.
fn take_pieces<S: Source>(
    alloc: Global,
    piece: &mut [u8],
    source: &mut S,
) -> Result<Vec<u8>, ScriptFault>
    requires { 0 < length piece.old }
    ensures whole { IfOk result (λ text. TakesWhole text.items (S.tells source.old) (S.tells source.new)) }
    ensures part { IfErr result (λ why. TakesPart why (S.tells source.old) (S.tells source.new)) }
    ensures source_faults_kept { (S.tells source.old).faults ≤ (S.tells source.new).faults }
{
    let most = LONGEST_SCRIPT as usize;
    let mut text = Vec::new(alloc);
    while text.len() < most {
        let room = piece.len().min(most - text.len());
        let buffer = &mut piece[..room];
        match source.read(buffer) {
            Got::Bytes(n) => text.extend_from_slice(&buffer[..n])?,
            Got::End => return Ok(text),
            Got::Failed => return Err(ScriptFault::SourceFault),
        }
    }
    Err(ScriptFault::StreamLimit)
}
