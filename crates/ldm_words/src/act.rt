//! The words of `pqact`.
ghost use Rattle.std.specs.Prelude.{◌≡◌, IfOk, MatchResult, Some, map, string_bytes};
ghost use Rattle.clap.specs.Words.{app_of};
ghost use Rattle.ldm_words.specs.Commands.{pqact_command};
ghost use Rattle.ldm_words.specs.Faults.{IsFaultOf};
ghost use Rattle.ldm_words.specs.Forms.{act_form, act_of};
ghost use Rattle.ldm_words.specs.Views.{act_view, rows_in};

use crate::command::{bare, option, option_or, parse, word};
use crate::fault::WordsFault;
use crate::receiving::receiving_of;
use crate::said::ActWords;
use crate::values::{long_number, short_number, value};
use clap::{ArgMatches, Command};
use std::alloc::{AllocError, Global};

/// What words ask `pqact` to do: `[-f FEED] [-p PATTERN] [-c COUNT] [-a ARENA] [-S SLOTS] [-s STATE] CONF HOST:PORT`, by
/// default `ANY`, `.*`, all products, 67108864, 16384 and no state. PATTERN has at most 255 bytes, COUNT is at least 1
/// and HOST has 1 to 255 bytes.
///
/// `Usage` comes exactly where the words are no form.
pub fn read_pqact<'a>(alloc: Global, words: &'a [String]) -> Result<ActWords<'a>, WordsFault>
    ensures read { let form = act_form (map string_bytes words.entry.now) in
        MatchResult result (λ said. form ≡ Some (act_view said)) (IsFaultOf form) }
{
    let matches = parse(pqact_command(alloc)?, words)?;
    act_of(alloc, &matches)
}

fn pqact_command<'a>(alloc: Global) -> Result<Command<'a>, AllocError>
    ensures { IfOk result (λ command. app_of command ≡ pqact_command) }
{
    bare(alloc, "pqact")
        .arg(option_or(alloc, "feed", 'f', "ANY"))?
        .arg(option_or(alloc, "pattern", 'p', ".*"))?
        .arg(option(alloc, "count", 'c'))?
        .arg(option_or(alloc, "arena", 'a', "67108864"))?
        .arg(option_or(alloc, "slots", 'S', "16384"))?
        .arg(option(alloc, "state", 's'))?
        .arg(word(alloc, "conf"))?
        .arg(word(alloc, "peer"))
}

fn act_of<'a>(alloc: Global, matches: &ArgMatches<'a>) -> Result<ActWords<'a>, WordsFault>
    ensures { let meaning = act_of (rows_in matches.now) in
        MatchResult result (λ said. meaning ≡ Some (act_view said)) (IsFaultOf meaning) }
{
    let receiving = receiving_of(alloc, matches)?;
    let Some(arena) = long_number(matches, "arena") else {
        return Err(WordsFault::Usage);
    };
    let Some(slots) = short_number(matches, "slots") else {
        return Err(WordsFault::Usage);
    };
    let Some(conf) = value(matches, "conf") else {
        return Err(WordsFault::Usage);
    };
    Ok(ActWords {
        class: receiving.class,
        count: receiving.count,
        arena,
        slots,
        state: value(matches, "state"),
        conf,
        peer: receiving.peer,
    })
}
