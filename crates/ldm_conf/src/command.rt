//! The command of an EXEC line.
ghost use Rattle.std.specs.Prelude.{◌≡◌, ◌<◌, ◌≤◌, ◌∷◌, true, false, length, map, string_bytes, IfOk, MatchOption};
ghost use Rattle.std.specs.Str.{is_utf8};
ghost use Rattle.ldm_conf.specs.Commands.{is_command, parts_of};
ghost use Rattle.ldm_text.specs.Blanks.{begins_in_blank};

use ldm_text::{count_blanks, is_blank_text, place_of_blank};
use std::alloc::{AllocError, Global};

/// The words of a program to start, of which the first is the program. There is at least one.
#[derive(Drop)]
pub struct Command {
    pub words: Vec<String>,
    pub ghost some: { 0 < length words.items },
}

/// The text of a command. It has a part.
#[derive(Clone, Copy)]
pub struct CommandText<'a> {
    pub text: &'a str,
    pub ghost some: { 0 < length (parts_of text.now) },
}

/// The text of a command, if it is UTF-8 and has a part.
#[tactic(auto, using(crate::proofs::Commands::has_part))]
pub fn read_command(word: &[u8]) -> Option<CommandText<'_>>
    ensures { MatchOption result (is_command word.now ≡ false)
        (λ command. (is_command word.now ≡ true) × (command.text.now ≡ word.now)) }
{
    if is_blank_text(word) {
        return None;
    }
    match text_of(word) {
        Some(text) => Some(CommandText { text }),
        None => None,
    }
}

/// The text of a word, if it is UTF-8.
pub fn text_of(word: &[u8]) -> Option<&str>
    ensures { MatchOption result (is_utf8 word.now ≡ false)
        (λ text. (is_utf8 word.now ≡ true) × (text.now ≡ word.now)) }
{
    match str::from_utf8(word) {
        Ok(text) => Some(text),
        Err(_) => None,
    }
}

/// The parts of a command, which blanks and tabs separate.
#[tactic(auto, using(crate::proofs::Commands::some_mapped))]
pub fn split_command(alloc: Global, command: CommandText<'_>) -> Result<Command, AllocError>
    ensures { IfOk result (λ words. map string_bytes words.words.items ≡ parts_of command.entry.text.now) }
{
    let words = split_text(alloc, command.text)?;
    Ok(Command { words })
}

fn split_text(alloc: Global, command: &str) -> Result<Vec<String>, AllocError>
    ensures { IfOk result (λ parts. map string_bytes parts.items ≡ parts_of command.now) }
{
    let mut parts = Vec::new(alloc);
    let mut rest = skip_blanks(command);
    while !rest.is_empty() {
        let (part, behind) = first_part(rest);
        parts.push(String::from_str(alloc, part)?)?;
        rest = skip_blanks(behind);
    }
    Ok(parts)
}

// What is left of a text behind the blanks that it begins with.
fn skip_blanks(text: &str) -> &str
    ensures parts { parts_of result.now ≡ parts_of text.now }
    ensures begins { begins_in_blank result.now ≡ false }
    ensures shorter { length result.now ≤ length text.now }
{
    let (_, behind) = text.split_at(count_blanks(text.as_bytes()));
    behind
}

// The first part of a text that begins with no blank, and what stands behind it.
fn first_part(text: &str) -> (&str, &str)
    requires some { 0 < length text.now }
    requires begins { begins_in_blank text.now ≡ false }
    ensures parts { parts_of text.now ≡ result.0.now ∷ parts_of result.1.now }
    ensures shorter { length result.1.now < length text.now }
{
    text.split_at(place_of_blank(text.as_bytes()))
}
