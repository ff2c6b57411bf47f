//! Reading parts of a file whole.

ghost use Rattle.std.specs.Prelude.{◌≡◌, ◌+◌, ◌<◌, ◌^◌, ℕ, length, slice_index, vec_len, IfErr, IfOk, IfSome};
ghost use Rattle.ldm_disk.specs.Calls.{FileChanges, KeepsDisk, KeepsFile};
ghost use Rattle.ldm_image.specs.Reading.{FailsReading, FaultRose, Fills, HeadIs, PartIs};

use crate::open::ImageFault;
use crate::sizes::HEAD;
use ldm_disk::Disk;
use ldm_outside::Got;
use std::alloc::Global;

/// Fills the buffer with what stands at a place. A disk whose file ends before although it told another length gives no
/// image.
pub(crate) fn fill<D: Disk>(disk: &mut D, at: u64, into: &mut [u8]) -> Result<(), ImageFault>
    requires { at + length into.old < 2 ^ 64 }
    ensures filled { IfSome (D.tells disk.old).file (λ file. Fills result at into.new file.bytes) }
    ensures bytes { IfOk result (λ done. (i : ℕ) → slice_index into.new i < 256) }
    ensures file { FileChanges KeepsFile (D.tells disk.old).file (D.tells disk.new).file }
    ensures failed { FailsReading result (D.tells disk.old) (D.tells disk.new) }
    ensures kept { KeepsDisk (D.tells disk.old) (D.tells disk.new) }
{
    let mut done = 0;
    while done < into.len() {
        match disk.read(at + done as u64, &mut into[done..]) {
            Got::Bytes(n) => done += n,
            Got::End => return Err(ImageFault::BadImage {
                at: at + done as u64,
            }),
            Got::Failed => return Err(ImageFault::DiskFault),
        }
    }
    Ok(())
}

/// The first bytes of a file of that length: 48, or all of it.
pub(crate) fn read_head<D: Disk>(disk: &mut D, len: u64) -> Result<[u8; 48], ImageFault>
    requires { IfSome (D.tells disk.old).file (λ file. len ≡ length file.bytes) }
    ensures read { IfSome (D.tells disk.old).file (λ file. HeadIs result len file.bytes) }
    ensures bytes { IfOk result (λ bytes. (i : ℕ) → slice_index bytes i < 256) }
    ensures file { FileChanges KeepsFile (D.tells disk.old).file (D.tells disk.new).file }
    ensures failed { IfErr result (λ fault. FaultRose fault (D.tells disk.old) (D.tells disk.new)) }
    ensures kept { KeepsDisk (D.tells disk.old) (D.tells disk.new) }
{
    let mut head = [0u8; HEAD as usize];
    match fill(disk, 0, &mut head[..len.min(HEAD) as usize]) {
        Ok(()) => Ok(head),
        Err(fault) => Err(fault),
    }
}

/// So many bytes at a place, in memory of their own.
pub(crate) fn read_part<D: Disk>(
    alloc: Global,
    disk: &mut D,
    at: u64,
    count: u64,
) -> Result<Vec<u8>, ImageFault>
    requires { at + count < 2 ^ 63 }
    ensures read { IfSome (D.tells disk.old).file (λ file. PartIs result at count file.bytes) }
    ensures len { IfOk result (λ bytes. vec_len bytes ≡ count) }
    ensures bytes { IfOk result (λ bytes. (i : ℕ) → slice_index bytes.items i < 256) }
    ensures file { FileChanges KeepsFile (D.tells disk.old).file (D.tells disk.new).file }
    ensures failed { IfErr result (λ fault. FaultRose fault (D.tells disk.old) (D.tells disk.new)) }
    ensures kept { KeepsDisk (D.tells disk.old) (D.tells disk.new) }
{
    let mut bytes = vec![in alloc; 0u8; count as usize]?;
    match fill(disk, at, &mut bytes) {
        Ok(()) => Ok(bytes),
        Err(fault) => Err(fault),
    }
}
