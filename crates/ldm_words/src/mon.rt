//! The words of `pqmon`.
ghost use Rattle.std.specs.Prelude.{◌≡◌, IfOk, MatchResult, Some, map, string_bytes};
ghost use Rattle.std.specs.Option.{option_map};
ghost use Rattle.clap.specs.Words.{app_of};
ghost use Rattle.ldm_words.specs.Commands.{pqmon_command};
ghost use Rattle.ldm_words.specs.Faults.{IsFaultOf};
ghost use Rattle.ldm_words.specs.Forms.{mon_form, mon_of};
ghost use Rattle.ldm_words.specs.Views.{mon_view, rows_in};

use crate::command::{bare, option, option_or, parse};
use crate::fault::WordsFault;
use crate::said::MonWords;
use crate::values::{optional_seconds, peer};
use clap::{ArgMatches, Command};
use std::alloc::{AllocError, Global};

/// The node that words ask, and how often: `[-i SECONDS] [-q HOST:PORT]`, by default once, and `127.0.0.1:388`. SECONDS
/// has 32 bits and is at least 1, and HOST has 1 to 255 bytes.
///
/// `Usage` comes exactly where the words are no form.
pub fn read_pqmon(alloc: Global, words: &[String]) -> Result<MonWords, WordsFault>
    ensures read { let form = mon_form (map string_bytes words.now) in
        MatchResult result (λ said. form ≡ Some (mon_view said)) (IsFaultOf form) }
{
    let matches = parse(pqmon_command(alloc)?, words)?;
    mon_of(&matches).ok_or(WordsFault::Usage)
}

fn pqmon_command<'a>(alloc: Global) -> Result<Command<'a>, AllocError>
    ensures { IfOk result (λ command. app_of command ≡ pqmon_command) }
{
    bare(alloc, "pqmon")
        .arg(option(alloc, "every", 'i'))?
        .arg(option_or(alloc, "peer", 'q', "127.0.0.1:388"))
}

fn mon_of(matches: &ArgMatches<'_>) -> Option<MonWords>
    ensures { option_map mon_view result ≡ mon_of (rows_in matches.now) }
{
    let every = optional_seconds(matches)?;
    let peer = peer(matches)?;
    Some(MonWords { every, peer })
}
