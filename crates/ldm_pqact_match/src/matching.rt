//! Which entries act on a product.
ghost use Rattle.std.specs.Prelude.{◌≡◌, IfOk, IfSome, is_some};
ghost use Rattle.ldm_pattern.specs.Parts.{parts_of};
ghost use Rattle.ldm_pqact_match.specs.Matching.{acts, parts_for};

use ldm_pattern::Groups;
use ldm_pqact_conf::Entry;
use ldm_types::{Info, OutOfMemory};
use std::alloc::Global;

/// The groups of an entry that acts on a product, by whether an earlier one matched. None where it does not act.
///
/// No pattern is searched for where the feedtypes do not meet.
pub fn groups_to_act_by<'a>(
    alloc: Global,
    entry: &Entry,
    info: &'a Info,
    matched: bool,
) -> Result<Option<Groups<'a>>, OutOfMemory>
    ensures acts { IfOk result (λ groups. is_some groups ≡ acts matched info.now entry.now) }
    ensures groups { IfOk result (λ groups. IfSome groups (λ found. parts_of found ≡ parts_for info.now entry.now)) }
{
    if !entry.feed().meets(info.feed()) {
        return Ok(None);
    }
    match entry.pattern() {
        Some(pattern) => pattern.groups(alloc, info.ident()),
        None if matched => Ok(None),
        None => Ok(Some(Groups::none())),
    }
}
