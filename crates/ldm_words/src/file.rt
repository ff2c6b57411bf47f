//! The words of the commands that keep a queue in a file: `save`, `resume` and `pqcheck`.
ghost use Rattle.std.specs.Prelude.{◌≡◌, IfOk, MatchResult, Some, map, string_bytes};
ghost use Rattle.std.specs.Option.{option_map};
ghost use Rattle.clap.specs.Words.{app_of};
ghost use Rattle.ldm_words.specs.Commands.{file_command, save_command};
ghost use Rattle.ldm_words.specs.Faults.{IsFaultOf};
ghost use Rattle.ldm_words.specs.Forms.{file_form, save_form, save_of};
ghost use Rattle.ldm_words.specs.Views.{rows_in, save_view};

use crate::command::{bare, parse, word};
use crate::fault::WordsFault;
use crate::said::SaveWords;
use crate::values::{long_number, short_number, value};
use clap::{ArgMatches, Command};
use std::alloc::{AllocError, Global};

/// What words ask `save` to do: `FILE ARENA SLOTS`. The numbers are decimal, without a sign or a leading zero: ARENA
/// has 64 bits and SLOTS has 32.
///
/// `Usage` comes exactly where the words are no form.
pub fn read_save<'a>(alloc: Global, words: &'a [String]) -> Result<SaveWords<'a>, WordsFault>
    ensures read { let form = save_form (map string_bytes words.entry.now) in
        MatchResult result (λ said. form ≡ Some (save_view said)) (IsFaultOf form) }
{
    let matches = parse(save_command(alloc)?, words)?;
    save_of(&matches).ok_or(WordsFault::Usage)
}

fn save_command<'a>(alloc: Global) -> Result<Command<'a>, AllocError>
    ensures { IfOk result (λ command. app_of command ≡ save_command) }
{
    bare(alloc, "save")
        .arg(word(alloc, "file"))?
        .arg(word(alloc, "arena"))?
        .arg(word(alloc, "slots"))
}

fn save_of<'a>(matches: &ArgMatches<'a>) -> Option<SaveWords<'a>>
    ensures { option_map save_view result ≡ save_of (rows_in matches.now) }
{
    let file = value(matches, "file")?;
    let arena = long_number(matches, "arena")?;
    let slots = short_number(matches, "slots")?;
    Some(SaveWords { file, arena, slots })
}

/// The path of the file that the words of `resume` and of `pqcheck` name: `FILE`.
///
/// `Usage` comes exactly where the words are no form.
pub fn read_file<'a>(alloc: Global, words: &'a [String]) -> Result<&'a str, WordsFault>
    ensures read { let form = file_form (map string_bytes words.entry.now) in
        MatchResult result (λ file. form ≡ Some file.now) (IsFaultOf form) }
{
    let matches = parse(file_command(alloc)?, words)?;
    value(&matches, "file").ok_or(WordsFault::Usage)
}

fn file_command<'a>(alloc: Global) -> Result<Command<'a>, AllocError>
    ensures { IfOk result (λ command. app_of command ≡ file_command) }
{
    bare(alloc, "file").arg(word(alloc, "file"))
}
