//! The words of `check`.
ghost use Rattle.std.specs.Prelude.{◌≡◌, ◌∷◌, [], IfOk, MatchResult, Some, map, string_bytes};
ghost use Rattle.std.specs.Option.{option_map};
ghost use Rattle.clap.specs.Words.{all_of, app_of};
ghost use Rattle.ldm_words.specs.Checking.{check_command, check_form, check_of, check_view, given};
ghost use Rattle.ldm_words.specs.Checking.{options_rule, some_file, some_words_rule};
ghost use Rattle.ldm_words.specs.Faults.{IsFaultOf};
ghost use Rattle.ldm_words.specs.Values.{texts_of};
ghost use Rattle.ldm_words.specs.Views.{HasRule, rows_in};

use crate::command::{bare, parse};
use crate::fault::WordsFault;
use crate::values::values;
use clap::{Arg, ArgAction, ArgMatches, Command};
use std::alloc::{AllocError, Global};

/// The files that `check` looks at, one or more.
#[derive(Drop)]
pub struct CheckWords<'a> {
    /// The paths of those that are each an ldmd.conf.
    pub confs: Vec<&'a str>,
    /// The paths of those that are each a pqact.conf.
    pub pqacts: Vec<&'a str>,
}

/// What words ask `check` to look at: `[-p PQACTCONF].. [CONF]..`, at least one file in all.
///
/// `Usage` comes exactly where the words are no form.
pub fn read_check<'a>(alloc: Global, words: &'a [String]) -> Result<CheckWords<'a>, WordsFault>
    ensures read { let form = check_form (map string_bytes words.entry.now) in
        MatchResult result (λ said. form ≡ Some (check_view said)) (IsFaultOf form) }
{
    let matches = parse(check_command(alloc)?, words)?;
    check_of(alloc, &matches)
}

fn check_command<'a>(alloc: Global) -> Result<Command<'a>, AllocError>
    ensures { IfOk result (λ command. app_of command ≡ check_command) }
{
    bare(alloc, "check")
        .arg(options(alloc, "pqacts", 'p'))?
        .arg(some_words(alloc, "confs"))
}

// An option of one letter that takes one value, used as often as wanted.
fn options<'a>(alloc: Global, name: &'a str, letter: char) -> Arg<'a>
    ensures { HasRule (options_rule name.entry.now (letter ∷ [])) result }
{
    Arg::new(alloc, name)
        .short(letter)
        .action(ArgAction::Append)
}

// Words of which none has to come.
fn some_words<'a>(alloc: Global, name: &'a str) -> Arg<'a>
    ensures { HasRule (some_words_rule name.entry.now) result }
{
    Arg::new(alloc, name).action(ArgAction::Append)
}

fn check_of<'a>(alloc: Global, matches: &ArgMatches<'a>) -> Result<CheckWords<'a>, WordsFault>
    ensures { let meaning = check_of (rows_in matches.now) in
        MatchResult result (λ said. meaning ≡ Some (check_view said)) (IsFaultOf meaning) }
{
    let confs = given(alloc, matches, "confs")?;
    let pqacts = given(alloc, matches, "pqacts")?;
    some_file(confs, pqacts).ok_or(WordsFault::Usage)
}

// The values of an option or of words, of which none has to come.
fn given<'a>(
    alloc: Global,
    matches: &ArgMatches<'a>,
    name: &str,
) -> Result<Vec<&'a str>, AllocError>
    ensures { IfOk result (λ texts. texts_of texts.items ≡ given (all_of name.now (rows_in matches.now))) }
{
    match values(matches, name) {
        Some(texts) => texts.to_vec(alloc),
        None => Ok(Vec::new(alloc)),
    }
}

fn some_file<'a>(confs: Vec<&'a str>, pqacts: Vec<&'a str>) -> Option<CheckWords<'a>>
    ensures { option_map check_view result ≡ some_file (texts_of confs.entry.items) (texts_of pqacts.entry.items) }
{
    if confs.is_empty() && pqacts.is_empty() {
        return None;
    }
    Some(CheckWords { confs, pqacts })
}
