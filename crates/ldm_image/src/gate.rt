//! The gate of a file: the byte that tells an image that was written whole.
ghost use Rattle.std.specs.Prelude.{◌≡◌, ◌≤◌, IfOk, IfSome, OnErr, Some};
ghost use Rattle.ldm_outside.specs.Count.{Rose};
ghost use Rattle.ldm_disk.specs.Calls.{FileChanges, KeepsDisk, KeepsFile, Rises};
ghost use Rattle.ldm_image.specs.Gates.{HasGate, Shuts, WritesGate};
ghost use Rattle.ldm_image.specs.Saving.{IsReady};

use ldm_disk::Disk;
use ldm_outside::{Failed, Got};

/// Where the gate stands.
pub(crate) const GATE_PLACE: u64 = 5;

/// The gate of an image that was written whole.
pub(crate) const CLEAN: u8 = 1;

// The gate of an image that is being written.
const SHUT: u8 = 0;

/// The gate of the file. `None` where it ends before.
pub(crate) fn read_gate<D: Disk>(disk: &mut D) -> Result<Option<u8>, Failed>
    ensures gate { IfOk result (λ gate. IfSome (D.tells disk.old).file (λ file. HasGate gate file.bytes)) }
    ensures file { FileChanges KeepsFile (D.tells disk.old).file (D.tells disk.new).file }
    ensures failed { OnErr result (Rose (D.tells disk.old).faults (D.tells disk.new).faults) }
    ensures kept { KeepsDisk (D.tells disk.old) (D.tells disk.new) }
{
    let mut byte = [0u8; 1];
    match disk.read(GATE_PLACE, &mut byte) {
        Got::Bytes(_) => Ok(Some(byte[0])),
        Got::End => Ok(None),
        Got::Failed => Err(Failed),
    }
}

/// Writes the gate alone, and syncs it.
pub(crate) fn write_gate<D: Disk>(disk: &mut D, gate: u8) -> Result<(), Failed>
    requires { IsReady (D.tells disk.old) }
    ensures written { FileChanges (WritesGate result gate) (D.tells disk.old).file (D.tells disk.new).file }
    ensures failed { Rises result (D.tells disk.old) (D.tells disk.new) }
    ensures kept { KeepsDisk (D.tells disk.old) (D.tells disk.new) }
{
    disk.write_at(GATE_PLACE, &[gate])?;
    disk.sync()
}

/// Makes the file unclean, so that it opens as nothing until it is written whole.
///
/// A gate that is not clean is left alone: a write of it that is broken off could leave one that is.
pub(crate) fn shut_gate<D: Disk>(disk: &mut D) -> Result<(), Failed>
    requires { IsReady (D.tells disk.old) }
    ensures shut { FileChanges (Shuts result) (D.tells disk.old).file (D.tells disk.new).file }
    ensures failed { Rises result (D.tells disk.old) (D.tells disk.new) }
    ensures kept { KeepsDisk (D.tells disk.old) (D.tells disk.new) }
{
    if let Some(gate) = read_gate(disk)? {
        if gate != CLEAN {
            return Ok(());
        }
    }
    write_gate(disk, SHUT)
}
