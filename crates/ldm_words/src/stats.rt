//! The words of `pqstats`.
ghost use Rattle.std.specs.Prelude.{◌≡◌, IfOk, MatchResult, Some, map, string_bytes};
ghost use Rattle.clap.specs.Words.{app_of};
ghost use Rattle.ldm_words.specs.Commands.{pqstats_command};
ghost use Rattle.ldm_words.specs.Faults.{IsFaultOf};
ghost use Rattle.ldm_words.specs.Forms.{stats_form, stats_of};
ghost use Rattle.ldm_words.specs.Views.{rows_in, stats_view};

use crate::command::{bare, flag, option, option_or, parse};
use crate::fault::WordsFault;
use crate::receiving::receiving_of;
use crate::said::StatsWords;
use crate::values::{hours, is_used};
use clap::{ArgMatches, Command};
use std::alloc::{AllocError, Global};

/// What words ask `pqstats` to count: `[-f FEED] [-p PATTERN] [-c COUNT] [-w HOURS] [-s] [-q HOST:PORT]`, by default
/// `ANY`, `.*`, all products, 24 and `127.0.0.1:388`. PATTERN has at most 255 bytes, COUNT is at least 1, HOURS is 1 to
/// [`MOST_HOURS`](crate::MOST_HOURS) and HOST has 1 to 255 bytes.
///
/// `Usage` comes exactly where the words are no form.
pub fn read_pqstats(alloc: Global, words: &[String]) -> Result<StatsWords, WordsFault>
    ensures read { let form = stats_form (map string_bytes words.now) in
        MatchResult result (λ said. form ≡ Some (stats_view said)) (IsFaultOf form) }
{
    let matches = parse(pqstats_command(alloc)?, words)?;
    stats_of(alloc, &matches)
}

fn pqstats_command<'a>(alloc: Global) -> Result<Command<'a>, AllocError>
    ensures { IfOk result (λ command. app_of command ≡ pqstats_command) }
{
    bare(alloc, "pqstats")
        .arg(option_or(alloc, "feed", 'f', "ANY"))?
        .arg(option_or(alloc, "pattern", 'p', ".*"))?
        .arg(option(alloc, "count", 'c'))?
        .arg(option_or(alloc, "hours", 'w', "24"))?
        .arg(flag(alloc, "send", 's'))?
        .arg(option_or(alloc, "peer", 'q', "127.0.0.1:388"))
}

fn stats_of(alloc: Global, matches: &ArgMatches<'_>) -> Result<StatsWords, WordsFault>
    ensures { let meaning = stats_of (rows_in matches.now) in
        MatchResult result (λ said. meaning ≡ Some (stats_view said)) (IsFaultOf meaning) }
{
    let receiving = receiving_of(alloc, matches)?;
    let Some(hours) = hours(matches) else {
        return Err(WordsFault::Usage);
    };
    Ok(StatsWords {
        class: receiving.class,
        count: receiving.count,
        hours,
        send: is_used(matches, "send"),
        peer: receiving.peer,
    })
}
