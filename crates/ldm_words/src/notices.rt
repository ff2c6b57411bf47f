//! The words of `notifyme`.
ghost use Rattle.std.specs.Prelude.{◌≡◌, IfOk, MatchResult, Some, map, string_bytes};
ghost use Rattle.clap.specs.Words.{app_of};
ghost use Rattle.ldm_words.specs.Commands.{notifyme_command};
ghost use Rattle.ldm_words.specs.Faults.{IsFaultOf};
ghost use Rattle.ldm_words.specs.Forms.{notices_form, notices_of};
ghost use Rattle.ldm_words.specs.Views.{notices_view, rows_in};

use crate::command::{bare, flag, option, option_or, parse};
use crate::fault::WordsFault;
use crate::receiving::receiving_of;
use crate::said::NoticesWords;
use crate::values::is_used;
use clap::{ArgMatches, Command};
use std::alloc::{AllocError, Global};

/// What words ask to be told of: `[-f FEED] [-p PATTERN] [-c COUNT] [-t] [-q HOST:PORT]`, by default `ANY`, `.*`, all
/// products and `127.0.0.1:388`. PATTERN has at most 255 bytes, COUNT is at least 1 and HOST has 1 to 255 bytes.
///
/// `Usage` comes exactly where the words are no form.
pub fn read_notifyme(alloc: Global, words: &[String]) -> Result<NoticesWords, WordsFault>
    ensures read { let form = notices_form (map string_bytes words.now) in
        MatchResult result (λ said. form ≡ Some (notices_view said)) (IsFaultOf form) }
{
    let matches = parse(notifyme_command(alloc)?, words)?;
    notices_of(alloc, &matches)
}

fn notifyme_command<'a>(alloc: Global) -> Result<Command<'a>, AllocError>
    ensures { IfOk result (λ command. app_of command ≡ notifyme_command) }
{
    bare(alloc, "notifyme")
        .arg(option_or(alloc, "feed", 'f', "ANY"))?
        .arg(option_or(alloc, "pattern", 'p', ".*"))?
        .arg(option(alloc, "count", 'c'))?
        .arg(flag(alloc, "text", 't'))?
        .arg(option_or(alloc, "peer", 'q', "127.0.0.1:388"))
}

fn notices_of(alloc: Global, matches: &ArgMatches<'_>) -> Result<NoticesWords, WordsFault>
    ensures { let meaning = notices_of (rows_in matches.now) in
        MatchResult result (λ said. meaning ≡ Some (notices_view said)) (IsFaultOf meaning) }
{
    let receiving = receiving_of(alloc, matches)?;
    Ok(NoticesWords {
        class: receiving.class,
        count: receiving.count,
        text: is_used(matches, "text"),
        peer: receiving.peer,
    })
}
