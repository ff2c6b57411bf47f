//! The example of ldm_regions.

ghost use Rattle.std.specs.Prelude.{◌≡◌, ◌<◌, None};
ghost use Rattle.std.specs.FinMap as map;

use ldm_regions::Regions;

/// Takes 24 positions for an owner that has none, and answers what is left free in one piece.
pub fn left_free(regions: &mut Regions, owner: u32) -> u64
    requires owner { owner < regions.old.slots }
    requires none { map.get regions.old.owned owner ≡ None }
{
    let _start = regions.take(24, owner);
    regions.largest()
}
