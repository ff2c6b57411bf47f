//! What the tools receive that have a class, a count and a node.
ghost use Rattle.std.specs.Prelude.{◌≡◌, MatchResult, Some};
ghost use Rattle.ldm_words.specs.Faults.{IsFaultOf};
ghost use Rattle.ldm_words.specs.Forms.{receiving_of};
ghost use Rattle.ldm_words.specs.Views.{receiving_view, rows_in};

use crate::fault::WordsFault;
use crate::said::Receiving;
use crate::values::{class, optional_count, peer};
use clap::ArgMatches;
use std::alloc::Global;

/// What matches ask to receive.
pub(crate) fn receiving_of(alloc: Global, matches: &ArgMatches<'_>) -> Result<Receiving, WordsFault>
    ensures { let meaning = receiving_of (rows_in matches.now) in
        MatchResult result (λ said. meaning ≡ Some (receiving_view said)) (IsFaultOf meaning) }
{
    let class = class(alloc, matches)?;
    let Some(count) = optional_count(matches) else {
        return Err(WordsFault::Usage);
    };
    let Some(peer) = peer(matches) else {
        return Err(WordsFault::Usage);
    };
    Ok(Receiving { class, count, peer })
}
