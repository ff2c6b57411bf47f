//! Texts that stand in a value, with a bound in their type.
ghost use Rattle.std.specs.Prelude.{◌≡◌};

use arrayvec::ArrayVec;

/// The same text once more. It takes no memory.
pub fn copied<const N: usize>(text: &ArrayVec<u8, N>) -> ArrayVec<u8, N>
    ensures { result.items ≡ text.now.items }
{
    let mut copy = ArrayVec::new();
    if copy.try_extend_from_slice(text.as_slice()).is_err() {
        unreachable!();
    }
    copy
}
