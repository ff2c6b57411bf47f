//! The example of ldm_freelist.

ghost use Rattle.std.specs.Prelude.{◌<◌, ◌^◌};

use ldm_freelist::{FreeSet, Steps};
use std::sync::ledger::Ledger;

/// Takes the shortest free region out that is long enough, and answers where it begins.
pub fn take_best<L: Ledger>(free: &mut FreeSet, need: u64, steps: &mut Steps<L>) -> Option<u64>
    requires { steps.old < 2 ^ 62 }
{
    let (extent, offset) = free.best(need, steps)?;
    free.remove(extent, offset);
    Some(offset)
}
