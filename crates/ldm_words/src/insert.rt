//! The words of `pqinsert`.
ghost use Rattle.std.specs.Prelude.{◌≡◌, IfOk, MatchResult, Some, is_none, map, string_bytes};
ghost use Rattle.std.specs.List.{list_all};
ghost use Rattle.std.specs.Option.{option_copied};
ghost use Rattle.clap.specs.Words.{app_of};
ghost use Rattle.ldm_types.specs.Info.{texts_fault};
ghost use Rattle.ldm_words.specs.Commands.{pqinsert_command};
ghost use Rattle.ldm_words.specs.Faults.{IsFaultOf};
ghost use Rattle.ldm_words.specs.Forms.{insert_form, insert_of};
ghost use Rattle.ldm_words.specs.Values.{are_names, ident_or, texts_of};
ghost use Rattle.ldm_words.specs.Views.{insert_view, rows_in};

use crate::command::{bare, flag, option, option_or, parse, words};
use crate::fault::WordsFault;
use crate::said::InsertWords;
use crate::values::{feed, files, is_name, is_used, peer, value};
use clap::{ArgMatches, Command};
use std::alloc::{AllocError, Global};

/// What words ask `pqinsert` to do: `[-f FEED] [-p IDENT] [-o ORIGIN] [-i] [-q HOST:PORT] FILE..`, by default `EXP`,
/// the names of the files, `localhost`, the signatures of bodies and `127.0.0.1:388`. HOST has 1 to 255 bytes. Each
/// ident has at most 255 bytes and the origin at most 64; neither has a zero byte.
///
/// `Usage` comes exactly where the words are no form.
pub fn read_pqinsert<'a>(alloc: Global, words: &'a [String]) -> Result<InsertWords<'a>, WordsFault>
    ensures read { let form = insert_form (map string_bytes words.entry.now) in
        MatchResult result (λ said. form ≡ Some (insert_view said)) (IsFaultOf form) }
{
    let matches = parse(pqinsert_command(alloc)?, words)?;
    insert_of(alloc, &matches)
}

fn pqinsert_command<'a>(alloc: Global) -> Result<Command<'a>, AllocError>
    ensures { IfOk result (λ command. app_of command ≡ pqinsert_command) }
{
    bare(alloc, "pqinsert")
        .arg(option_or(alloc, "feed", 'f', "EXP"))?
        .arg(option(alloc, "ident", 'p'))?
        .arg(option_or(alloc, "origin", 'o', "localhost"))?
        .arg(flag(alloc, "sign", 'i'))?
        .arg(option_or(alloc, "peer", 'q', "127.0.0.1:388"))?
        .arg(words(alloc, "files"))
}

fn insert_of<'a>(alloc: Global, matches: &ArgMatches<'a>) -> Result<InsertWords<'a>, WordsFault>
    ensures { let meaning = insert_of (rows_in matches.now) in
        MatchResult result (λ said. meaning ≡ Some (insert_view said)) (IsFaultOf meaning) }
{
    let Some(feed) = feed(matches) else {
        return Err(WordsFault::Usage);
    };
    let Some(origin) = value(matches, "origin") else {
        return Err(WordsFault::Usage);
    };
    let Some(peer) = peer(matches) else {
        return Err(WordsFault::Usage);
    };
    let files = files(alloc, matches)?;
    let ident = value(matches, "ident");
    if !are_names(origin, ident, files.as_slice()) {
        return Err(WordsFault::Usage);
    }
    Ok(InsertWords {
        feed,
        ident: ident.map(|ident| ident.as_bytes()),
        origin: origin.as_bytes(),
        sign_ident: is_used(matches, "sign"),
        peer,
        files,
    })
}

// Whether the product of each file may have this origin and its ident.
fn are_names(origin: &str, ident: Option<&str>, files: &[&str]) -> bool
    ensures { result ≡ are_names origin.now (option_copied ident.entry) (texts_of files.now) }
{
    all_are_names(origin, ident, files)
}

fn all_are_names(origin: &str, ident: Option<&str>, files: &[&str]) -> bool
    ensures { result ≡ list_all
        (λ file. is_none (texts_fault origin.now (ident_or (option_copied ident.entry) file.now))) files.now }
{
    files.iter().all(|file| is_name(origin.as_bytes(), ident_or(ident, file).as_bytes()))
}

// The ident of the product of a file.
fn ident_or<'a>(ident: Option<&'a str>, file: &'a str) -> &'a str
    ensures { result.now ≡ ident_or (option_copied ident.entry) file.entry.now }
{
    match ident {
        Some(ident) => ident,
        None => file,
    }
}
