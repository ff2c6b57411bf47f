//! The words of `node`.
ghost use Rattle.std.specs.Prelude.{◌≡◌, IfOk, MatchResult, Some, map, string_bytes};
ghost use Rattle.std.specs.Option.{option_map};
ghost use Rattle.clap.specs.Words.{app_of};
ghost use Rattle.ldm_words.specs.Commands.{node_command};
ghost use Rattle.ldm_words.specs.Faults.{IsFaultOf};
ghost use Rattle.ldm_words.specs.Forms.{node_form, node_of};
ghost use Rattle.ldm_words.specs.Views.{node_view, rows_in};

use crate::command::{bare, flag, option, option_or, parse, word};
use crate::fault::WordsFault;
use crate::said::NodeWords;
use crate::values::{is_used, long_number, optional_number, port, short_number, value};
use clap::{ArgMatches, Command};
use std::alloc::{AllocError, Global};

/// The node that words ask for: `[-a ARENA] [-S SLOTS] [-p PORT] [-w WORKERS] [-n SESSIONS] [-x IDLES] [-q FILE] [-e]
/// CONF`, by default 67108864, 16384, 388, 4, 4294967295, no limit and no journal. Numbers are decimal, without a sign or
/// a leading zero. ARENA has 64 bits and PORT 16, and is at least 1; the others have 32.
///
/// `Usage` comes exactly where the words are no form.
pub fn read_node<'a>(alloc: Global, words: &'a [String]) -> Result<NodeWords<'a>, WordsFault>
    ensures read { let form = node_form (map string_bytes words.entry.now) in
        MatchResult result (λ said. form ≡ Some (node_view said)) (IsFaultOf form) }
{
    let matches = parse(node_command(alloc)?, words)?;
    node_of(&matches).ok_or(WordsFault::Usage)
}

fn node_command<'a>(alloc: Global) -> Result<Command<'a>, AllocError>
    ensures { IfOk result (λ command. app_of command ≡ node_command) }
{
    bare(alloc, "node")
        .arg(option_or(alloc, "arena", 'a', "67108864"))?
        .arg(option_or(alloc, "slots", 'S', "16384"))?
        .arg(option_or(alloc, "port", 'p', "388"))?
        .arg(option_or(alloc, "workers", 'w', "4"))?
        .arg(option_or(alloc, "sessions", 'n', "4294967295"))?
        .arg(option(alloc, "idles", 'x'))?
        .arg(option(alloc, "journal", 'q'))?
        .arg(flag(alloc, "input", 'e'))?
        .arg(word(alloc, "conf"))
}

fn node_of<'a>(matches: &ArgMatches<'a>) -> Option<NodeWords<'a>>
    ensures { option_map node_view result ≡ node_of (rows_in matches.now) }
{
    let arena = long_number(matches, "arena")?;
    let slots = short_number(matches, "slots")?;
    let port = port(matches)?;
    let workers = short_number(matches, "workers")?;
    let sessions = short_number(matches, "sessions")?;
    let idles = optional_number(matches, "idles")?;
    let conf = value(matches, "conf")?;
    Some(NodeWords {
        arena,
        slots,
        port,
        workers,
        sessions,
        idles,
        journal: value(matches, "journal"),
        ends_with_input: is_used(matches, "input"),
        conf,
    })
}
