//! The words of `pqcat`.
ghost use Rattle.std.specs.Prelude.{◌≡◌, IfOk, MatchResult, Some, map, string_bytes};
ghost use Rattle.clap.specs.Words.{app_of};
ghost use Rattle.ldm_words.specs.Commands.{pqcat_command};
ghost use Rattle.ldm_words.specs.Faults.{IsFaultOf};
ghost use Rattle.ldm_words.specs.Forms.{cat_form, cat_of};
ghost use Rattle.ldm_words.specs.Views.{cat_view, rows_in};

use crate::command::{bare, option, option_or, parse};
use crate::fault::WordsFault;
use crate::receiving::receiving_of;
use crate::said::CatWords;
use crate::values::{long_number, short_number};
use clap::{ArgMatches, Command};
use std::alloc::{AllocError, Global};

/// What words ask `pqcat` to write: `[-f FEED] [-p PATTERN] [-c COUNT] [-a ARENA] [-S SLOTS] [-q HOST:PORT]`, by
/// default `ANY`, `.*`, all products, 67108864, 16384 and `127.0.0.1:388`. PATTERN has at most 255 bytes, COUNT is at
/// least 1 and HOST has 1 to 255 bytes.
///
/// `Usage` comes exactly where the words are no form.
pub fn read_pqcat(alloc: Global, words: &[String]) -> Result<CatWords, WordsFault>
    ensures read { let form = cat_form (map string_bytes words.now) in
        MatchResult result (λ said. form ≡ Some (cat_view said)) (IsFaultOf form) }
{
    let matches = parse(pqcat_command(alloc)?, words)?;
    cat_of(alloc, &matches)
}

fn pqcat_command<'a>(alloc: Global) -> Result<Command<'a>, AllocError>
    ensures { IfOk result (λ command. app_of command ≡ pqcat_command) }
{
    bare(alloc, "pqcat")
        .arg(option_or(alloc, "feed", 'f', "ANY"))?
        .arg(option_or(alloc, "pattern", 'p', ".*"))?
        .arg(option(alloc, "count", 'c'))?
        .arg(option_or(alloc, "arena", 'a', "67108864"))?
        .arg(option_or(alloc, "slots", 'S', "16384"))?
        .arg(option_or(alloc, "peer", 'q', "127.0.0.1:388"))
}

fn cat_of(alloc: Global, matches: &ArgMatches<'_>) -> Result<CatWords, WordsFault>
    ensures { let meaning = cat_of (rows_in matches.now) in
        MatchResult result (λ said. meaning ≡ Some (cat_view said)) (IsFaultOf meaning) }
{
    let receiving = receiving_of(alloc, matches)?;
    let Some(arena) = long_number(matches, "arena") else {
        return Err(WordsFault::Usage);
    };
    let Some(slots) = short_number(matches, "slots") else {
        return Err(WordsFault::Usage);
    };
    Ok(CatWords {
        class: receiving.class,
        count: receiving.count,
        arena,
        slots,
        peer: receiving.peer,
    })
}
