//! Commands of `clap`, and what they make of words.
ghost use Rattle.std.specs.Prelude.{◌≡◌, [], ◌∷◌, Some, MatchResult, map, string_bytes};
ghost use Rattle.clap.specs.Words.{app_of};
ghost use Rattle.ldm_words.specs.Commands.{IsPlain, command_of, flag_rule, matched};
ghost use Rattle.ldm_words.specs.Commands.{option_or_rule, option_rule, word_rule, words_rule};
ghost use Rattle.ldm_words.specs.Faults.{IsFaultOf};
ghost use Rattle.ldm_words.specs.Views.{HasRule, rows_in};

use crate::fault::WordsFault;
use clap::{Arg, ArgAction, ArgMatches, Command};
use std::alloc::Global;

/// An option of one letter that takes one value, at most once.
pub(crate) fn option<'a>(alloc: Global, name: &'a str, letter: char) -> Arg<'a>
    ensures { HasRule (option_rule name.entry.now (letter ∷ [])) result }
{
    Arg::new(alloc, name).short(letter).action(ArgAction::Set)
}

/// Such an option, and its value where it is left out.
pub(crate) fn option_or<'a>(alloc: Global, name: &'a str, letter: char, default: &'a str) -> Arg<'a>
    ensures { HasRule (option_or_rule name.entry.now (letter ∷ []) default.entry.now) result }
{
    Arg::new(alloc, name)
        .short(letter)
        .action(ArgAction::Set)
        .default_value(default)
}

/// An option of one letter without a value, used at most once.
pub(crate) fn flag<'a>(alloc: Global, name: &'a str, letter: char) -> Arg<'a>
    ensures { HasRule (flag_rule name.entry.now (letter ∷ [])) result }
{
    Arg::new(alloc, name)
        .short(letter)
        .action(ArgAction::SetTrue)
}

/// A word that has to come.
pub(crate) fn word<'a>(alloc: Global, name: &'a str) -> Arg<'a>
    ensures { HasRule (word_rule name.entry.now) result }
{
    Arg::new(alloc, name).required(true).action(ArgAction::Set)
}

/// Words of which one has to come.
pub(crate) fn words<'a>(alloc: Global, name: &'a str) -> Arg<'a>
    ensures { HasRule (words_rule name.entry.now) result }
{
    Arg::new(alloc, name)
        .required(true)
        .action(ArgAction::Append)
}

/// A command without options or words, and without the flags for help and version. It reads the words behind its name.
pub(crate) fn bare<'a>(alloc: Global, name: &'a str) -> Command<'a>
    ensures { app_of result ≡ command_of name.entry.now [] }
{
    Command::new(alloc, name)
        .no_binary_name(true)
        .disable_help_flag(true)
        .disable_version_flag(true)
}

/// What a command makes of words.
pub(crate) fn parse<'a>(
    command: Command<'a>,
    words: &'a [String],
) -> Result<ArgMatches<'a>, WordsFault>
    requires { IsPlain (app_of command) }
    ensures { let rows = matched (app_of command.entry) (map string_bytes words.entry.now) in
        MatchResult result (λ matches. rows ≡ Some (rows_in matches)) (IsFaultOf rows) }
{
    match command.try_get_matches_from(words) {
        Ok(matches) => Ok(matches),
        Err(error) => Err(WordsFault::from(error.kind())),
    }
}
