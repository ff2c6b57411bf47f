//! A warning, and the line that is written of it.
ghost use Rattle.std.specs.Prelude.{◌≡◌, ◌++◌, OnOk};
ghost use Rattle.ldm_check.specs.Warnings.{Missing, concern_words, line_warning, named_by, named_line, warning_line};
ghost use Rattle.ldm_check.specs.Warnings.{warning_view, warning_views, warnings_text};

use crate::lines::{put_file, put_place, put_shown};
use std::alloc::AllocError;

/// What may be wrong with what a line says.
#[derive(Clone, Copy)]
pub(crate) enum Concern {
    /// A rule whose feedtype has no member.
    NoMember,
    /// A rule whose pattern of hosts has letters of a name.
    HasName,
    /// The first REQUEST line that leaves too few workers.
    FewWorkers,
    /// The first REQUEST line that is one too many.
    NoWorker,
    /// A path with a group that may hold a slash.
    GroupInPath,
}

/// A warning: the path of a file, the number of the line in it, and what it is of.
#[derive(Drop)]
pub(crate) enum Warning {
    /// No ALLOW line of an ldmd.conf lets a tool of this machine in.
    NoTool(String),
    OfLine(String, u64, Concern),
    /// A program that the line starts is not there, or cannot be read, by the reason of the store.
    Missing(String, u64, String, Vec<u8>),
}

/// Appends the lines of warnings.
pub(crate) fn put_warnings(out: &mut Vec<u8>, warnings: &[Warning]) -> Result<(), AllocError>
    ensures { OnOk result
        (out.new.items ≡ out.old.items ++ warnings_text (warning_views warnings.entry.now)) }
{
    let mut left = warnings;
    while let [first, others @ ..] = left {
        put_warning(out, first)?;
        left = others;
    }
    Ok(())
}

// Appends the line of a warning.
fn put_warning(out: &mut Vec<u8>, warning: &Warning) -> Result<(), AllocError>
    ensures { OnOk result (out.new.items ≡ out.old.items ++ warning_line (warning_view warning.now)) }
{
    match warning {
        Warning::NoTool(path) => put_file(
            out,
            path.as_bytes(),
            b"warning: no ALLOW line lets a tool of this machine (127.0.0.1) in",
        ),
        Warning::OfLine(path, number, concern) => {
            put_concern(out, path.as_bytes(), *number, words_of(*concern))
        }
        Warning::Missing(path, number, program, reason) => put_missing(
            out,
            path.as_bytes(),
            *number,
            program.as_bytes(),
            reason.as_slice(),
        ),
    }
}

// Appends `FILE:LINE: warning: ..`.
fn put_concern(out: &mut Vec<u8>, path: &[u8], number: u64, words: &[u8]) -> Result<(), AllocError>
    ensures { OnOk result (out.new.items ≡ out.old.items ++ line_warning path.now number words.now) }
{
    put_place(out, path, number)?;
    out.extend_from_slice(b"warning: ")?;
    out.extend_from_slice(words)?;
    out.push(b'\n')?;
    Ok(())
}

// Appends the warning of a program that the store did not find.
fn put_missing(
    out: &mut Vec<u8>,
    path: &[u8],
    number: u64,
    program: &[u8],
    reason: &[u8],
) -> Result<(), AllocError>
    ensures { OnOk result (out.new.items
        ≡ out.old.items ++ warning_line (Missing path.now number program.now reason.now)) }
{
    put_named(
        out,
        path,
        number,
        b"warning: the program is not there, or cannot be read: ",
        named_by(program, reason),
    )
}

// Appends `FILE:LINE: `, these words and a name.
fn put_named(
    out: &mut Vec<u8>,
    path: &[u8],
    number: u64,
    words: &[u8],
    name: &[u8],
) -> Result<(), AllocError>
    ensures { OnOk result (out.new.items ≡ out.old.items ++ named_line path.now number words.now name.now) }
{
    put_place(out, path, number)?;
    out.extend_from_slice(words)?;
    put_shown(out, name)?;
    out.push(b'\n')?;
    Ok(())
}

// The reason of the store, which names the program; or, where it gives none, the program.
fn named_by<'a>(program: &'a [u8], reason: &'a [u8]) -> &'a [u8]
    ensures { result.now ≡ named_by program.now reason.now }
{
    if reason.is_empty() { program } else { reason }
}

// What may be wrong, in words.
fn words_of(concern: Concern) -> &'static [u8]
    ensures { result.now ≡ concern_words concern }
{
    match concern {
        Concern::NoMember => b"the feedtype has no member, so the line lets nobody in",
        Concern::HasName => {
            b"the host pattern has letters of a name, and hosts are known by their addresses"
        }
        Concern::FewWorkers => {
            b"more than 59 REQUEST lines: with the 4 workers of a node without -w they are more than 63"
        }
        Concern::NoWorker => b"more than 63 REQUEST lines, and a node has no worker for this one",
        Concern::GroupInPath => {
            b"a group of the pattern stands in the path, and may hold a slash or two dots"
        }
    }
}
