//! The words of `wmo`.
ghost use Rattle.std.specs.Prelude.{◌≡◌, IfOk, MatchResult, Some, map, string_bytes};
ghost use Rattle.std.specs.Option.{option_map};
ghost use Rattle.clap.specs.Words.{app_of};
ghost use Rattle.ldm_words.specs.Commands.{wmo_command};
ghost use Rattle.ldm_words.specs.Faults.{IsFaultOf};
ghost use Rattle.ldm_words.specs.Forms.{wmo_form, wmo_of};
ghost use Rattle.ldm_words.specs.Views.{rows_in, wmo_view};

use crate::command::{bare, flag, option_or, parse};
use crate::fault::WordsFault;
use crate::said::WmoWords;
use crate::values::{feed, is_used, origin, peer};
use clap::{ArgMatches, Command};
use std::alloc::{AllocError, Global};

/// Where words ask `wmo` to put bulletins: `[-f FEED] [-o ORIGIN] [-s] [-q HOST:PORT]`, by default `IDS`, `localhost` and
/// `127.0.0.1:388`. The origin has at most 64 bytes, none of them zero, and HOST has 1 to 255 bytes.
///
/// `Usage` comes exactly where the words are no form.
pub fn read_wmo<'a>(alloc: Global, words: &'a [String]) -> Result<WmoWords<'a>, WordsFault>
    ensures read { let form = wmo_form (map string_bytes words.entry.now) in
        MatchResult result (λ said. form ≡ Some (wmo_view said)) (IsFaultOf form) }
{
    let matches = parse(wmo_command(alloc)?, words)?;
    wmo_of(&matches).ok_or(WordsFault::Usage)
}

fn wmo_command<'a>(alloc: Global) -> Result<Command<'a>, AllocError>
    ensures { IfOk result (λ command. app_of command ≡ wmo_command) }
{
    bare(alloc, "wmo")
        .arg(option_or(alloc, "feed", 'f', "IDS"))?
        .arg(option_or(alloc, "origin", 'o', "localhost"))?
        .arg(flag(alloc, "socket", 's'))?
        .arg(option_or(alloc, "peer", 'q', "127.0.0.1:388"))
}

fn wmo_of<'a>(matches: &ArgMatches<'a>) -> Option<WmoWords<'a>>
    ensures { option_map wmo_view result ≡ wmo_of (rows_in matches.now) }
{
    let feed = feed(matches)?;
    let origin = origin(matches)?;
    let peer = peer(matches)?;
    Some(WmoWords {
        feed,
        origin,
        socket: is_used(matches, "socket"),
        peer,
    })
}
