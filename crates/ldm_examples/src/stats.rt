//! The example of ldm_stats.

ghost use Rattle.std.specs.Prelude.{◌<◌, ◌^◌};
ghost use Rattle.ldm_stats.specs.Joining.{count_of};

use ldm_stats::Stats;
use ldm_types::{Info, Micros, OutOfMemory};

/// Adds a product, and appends the lines that stand then.
pub fn add_and_report(
    stats: &mut Stats,
    time: Micros,
    info: &Info,
    out: &mut Vec<u8>,
) -> Result<(), OutOfMemory>
    requires { count_of stats.old.entries < 2 ^ 31 }
{
    stats.add(time, info)?;
    stats.report(out)
}
