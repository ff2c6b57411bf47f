//! The log lines of entries that do nothing.
ghost use Rattle.std.specs.Prelude.{◌≡◌, ◌≤◌, ◌++◌, IfOk, length};
ghost use Rattle.ldm_types.specs.declared.limits.TheConstants.{LONGEST_IDENT};
ghost use Rattle.ldm_pqact.specs.Notes.{note_line, note_of, notes_of};

use ldm_answers::{Text, put, put_number, text_into};
use ldm_pqact_match::{Chosen, Decision};
use ldm_types::{Info, OutOfMemory};
use std::alloc::Global;

/// The lines of what was chosen for a product, in order.
pub(crate) fn notes(alloc: Global, info: &Info, chosen: &[Chosen]) -> Result<Vec<u8>, OutOfMemory>
    ensures { IfOk result (λ notes. notes.items ≡ notes_of info.now.ident chosen.now) }
{
    let mut notes = Vec::new(alloc);
    for it in chosen {
        put_note(info.ident(), &it.decision, &mut notes)?;
    }
    Ok(notes)
}

// Appends the line of an entry, where it does nothing.
fn put_note(ident: &[u8], decision: &Decision, notes: &mut Vec<u8>) -> Result<(), OutOfMemory>
    requires { length ident.now ≤ LONGEST_IDENT }
    ensures { IfOk result (λ _. notes.new.items ≡ notes.old.items ++ note_of ident.now decision.now) }
{
    match decision {
        Decision::Act(_) => Ok(()),
        Decision::NoDate { group } => put_line(b"nodate", ident, *group, notes),
        Decision::NotText { word } => put_line(b"nottext", ident, *word, notes),
    }
}

// Appends a line: a word, an ident and a number.
fn put_line(word: &[u8], ident: &[u8], number: u32, notes: &mut Vec<u8>) -> Result<(), OutOfMemory>
    requires word { length word.now ≤ 7 }
    requires ident { length ident.now ≤ LONGEST_IDENT }
    ensures { IfOk result (λ _. notes.new.items ≡ notes.old.items ++ note_line word.now ident.now number) }
{
    let mut line = Text::new();
    put(&mut line, word);
    put(&mut line, b" ");
    text_into(ident, &mut line);
    put(&mut line, b" ");
    put_number(&mut line, number as u64);
    put(&mut line, b"\n");
    Ok(notes.extend_from_slice(line.as_slice())?)
}
