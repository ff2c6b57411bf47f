//! The choice of the entries that act.
ghost use Rattle.std.specs.Prelude.{◌≡◌, ◌||◌, not, is_none, IfOk};
ghost use Rattle.ldm_pqact_match.specs.Choice.{choose_of};
ghost use Rattle.ldm_pqact_match.specs.Choosing.{IsChoice};

use crate::chosen::{Chosen, Decision, place_number};
use crate::decide::decide;
use crate::matching::groups_to_act_by;
use crate::moment::Moment;
use crate::sources::Sources;
use ldm_pqact_conf::{Entries, Entry};
use ldm_types::{Info, Micros, OutOfMemory};
use std::alloc::Global;

/// The entries that act on a product that was inserted at that time, in file order, and what each does.
///
/// An entry matches a product where its feedtype meets the product's and its pattern is found in the ident. Every entry
/// that matches acts, and so does each `_ELSE_` entry whose feedtype meets where no earlier entry matched. A product
/// that no feedtype meets costs no search and no memory.
pub fn choose(
    alloc: Global,
    entries: &Entries,
    info: &Info,
    time: Micros,
) -> Result<Vec<Chosen>, OutOfMemory>
    ensures chosen { IfOk result (λ chosen. chosen.items ≡ choose_of entries.now info.now time) }
{
    let mut chosen = Vec::new(alloc);
    let mut matched = false;
    let all = entries.as_slice();
    for (place, entry) in all.iter().enumerate() {
        if let Some(decision) = decision_of(alloc, entry, info, time, matched)? {
            chosen.push(Chosen {
                entry: place_number(place),
                decision,
            })?;
            matched = has_matched(matched, entry);
        }
    }
    Ok(chosen)
}

// What an entry does, by whether an earlier one matched. None where it does not act.
fn decision_of(
    alloc: Global,
    entry: &Entry,
    info: &Info,
    time: Micros,
    matched: bool,
) -> Result<Option<Decision>, OutOfMemory>
    ensures { IfOk result (IsChoice matched info.now time entry.now) }
{
    let Some(groups) = groups_to_act_by(alloc, entry, info, matched)? else {
        return Ok(None);
    };
    let inserted = Moment::of(time);
    let sources = Sources {
        groups,
        inserted: &inserted,
        seqno: info.seqno(),
    };
    Ok(Some(decide(alloc, entry, &sources)?))
}

// Whether an entry has matched, where this one acted.
fn has_matched(matched: bool, entry: &Entry) -> bool
    ensures { result ≡ (matched || not (is_none entry.now.pattern)) }
{
    matched || !entry.is_else()
}
