//! The faults of a pqact.conf.
ghost use Rattle.std.specs.Prelude.{◌≡◌, ◌+◌, ◌-◌, ◌++◌, ◌<◌, ◌≤◌, length, Ok, Err, IfOk, MatchResult, OnOk};
ghost use Rattle.ldm_outside.specs.Store.{StoreRecord};
ghost use Rattle.ldm_conf.specs.Lines.{without_return};
ghost use Rattle.ldm_pqact_conf.specs.Entries.{pqact_entries};
ghost use Rattle.ldm_text.specs.Lines.{length_left, lines_left, lines_of};
ghost use Rattle.ldm_check.specs.Files.{TellsPqact, pqact_line};
ghost use Rattle.ldm_check.specs.PqactFaults.{behind_entry, from_entry, goes_on, line_behind, lines_behind};
ghost use Rattle.ldm_check.specs.Walks.{scene_of};

use crate::conf_file::Search;
use crate::lines::put_fault;
use crate::source::without_return;
use ldm_command_files::words_of_pqact;
use ldm_pqact_conf::{Entries, PqactFault, PqactKind, read_pqact};
use ldm_text::{LONGEST_CONFIGURATION, begins_with, first_line, is_blank_text};
use ldm_types::OutOfMemory;
use std::alloc::{AllocError, Global};

impl Search {
    /// Tells what is wrong with the bytes of a pqact.conf.
    pub(crate) fn look_at_entries(
        &mut self,
        alloc: Global,
        path: &str,
        bytes: &[u8],
    ) -> Result<(), OutOfMemory>
        requires { length bytes.now ≤ LONGEST_CONFIGURATION }
        ensures { (store : StoreRecord) → OnOk result
            (TellsPqact path.now bytes.now (scene_of store self.old) (scene_of store self.new)) }
    {
        let mut rest = Some(bytes);
        let mut passed = 0;
        while let Some(text) = rest {
            match read_entries(alloc, text)? {
                Ok(entries) => {
                    self.warnings
                        .look_at_entries(alloc, path, passed, text, &entries)?;
                    return Ok(());
                }
                Err(fault) => {
                    let front = front_of(text, fault.line);
                    self.warnings.look_at_front(alloc, path, passed, front)?;
                    let cut = cut_behind(text, fault.line);
                    self.tell_entry(path, passed + u64::from(fault.line), cut.line, fault.kind)?;
                    passed += cut.passed;
                    rest = cut.rest;
                }
            }
        }
        Ok(())
    }

    // Tells what is wrong with the entry that begins in a line.
    fn tell_entry(
        &mut self,
        path: &str,
        number: u64,
        line: &[u8],
        kind: PqactKind,
    ) -> Result<(), AllocError>
        ensures { OnOk result (self.new.faults.items ≡ self.old.faults.items
            ++ pqact_line path.now (record { number = number; text = line.now; kind = kind })) }
    {
        put_fault(
            &mut self.faults,
            path.as_bytes(),
            number,
            words_of_pqact(kind),
            without_return(line),
        )
    }
}

// The entries that a text means, or what is wrong with the first that is faulty.
fn read_entries(alloc: Global, text: &[u8]) -> Result<Result<Entries, PqactFault>, OutOfMemory>
    requires { length text.now ≤ LONGEST_CONFIGURATION }
    ensures { IfOk result (λ read. MatchResult read (λ entries. pqact_entries text.now ≡ Ok entries)
        (λ fault. pqact_entries text.now ≡ Err fault)) }
{
    match read_pqact(alloc, text) {
        Ok(entries) => Ok(Ok(entries)),
        Err(fault) => match fault.kind {
            PqactKind::OutOfMemory => Err(OutOfMemory),
            _ => Ok(Err(fault)),
        },
    }
}

// The lines of a text before that of some number.
fn front_of(text: &[u8], number: u32) -> &[u8]
    ensures { length result.now ≤ length text.entry.now }
{
    let mut rest = Some(text);
    let mut len: usize = 0;
    for _ in 1..number {
        let Some(left) = rest else {
            return text;
        };
        let (line, behind) = first_line(left);
        len = len.saturating_add(line.len()).saturating_add(1);
        rest = behind;
    }
    &text[..len.min(text.len())]
}

// A line of a text, and what stands from some entry behind it on.
#[derive(Clone, Copy)]
struct Cut<'a> {
    line: &'a [u8],
    // What is left of the text, if anything is.
    rest: Option<&'a [u8]>,
    // How many lines the text has before that.
    passed: u64,
}

// The line of that number, from 1, and what stands from the next entry behind it on.
fn cut_behind(text: &[u8], number: u32) -> Cut<'_>
    requires { length text.now ≤ LONGEST_CONFIGURATION }
    ensures line { result.line.now ≡ line_behind (number - 1) (lines_of text.entry.now) }
    ensures rest { lines_left result.rest ≡ behind_entry number (lines_of text.entry.now) }
    ensures passed { result.passed + length (lines_left result.rest) ≡ length (lines_of text.entry.now) }
    ensures shorter { result.passed + length_left result.rest ≤ length text.entry.now + 1 }
    ensures some { 0 < result.passed }
{
    to_entry(cut_at(text, number))
}

// The line of that number, and what stands behind it.
fn cut_at(text: &[u8], number: u32) -> Cut<'_>
    requires { length text.now ≤ LONGEST_CONFIGURATION }
    ensures line { result.line.now ≡ line_behind (number - 1) (lines_of text.entry.now) }
    ensures rest { lines_left result.rest ≡ lines_behind (number - 1) (lines_of text.entry.now) }
    ensures passed { result.passed + length (lines_left result.rest) ≡ length (lines_of text.entry.now) }
    ensures shorter { result.passed + length_left result.rest ≤ length text.entry.now + 1 }
    ensures some { 0 < result.passed }
{
    let (mut line, mut rest) = first_line(text);
    let mut passed = 1;
    while passed < u64::from(number) {
        let Some(left) = rest else {
            return Cut {
                line: b"".as_slice(),
                rest: None,
                passed,
            };
        };
        let (next, behind) = first_line(left);
        line = next;
        rest = behind;
        passed += 1;
    }
    Cut { line, rest, passed }
}

// Passes over lines up to the next in which an entry begins.
fn to_entry(mut cut: Cut<'_>) -> Cut<'_>
    requires { cut.passed + length_left cut.rest ≤ LONGEST_CONFIGURATION + 1 }
    ensures line { result.line ≡ cut.entry.line }
    ensures rest { lines_left result.rest ≡ from_entry (lines_left cut.entry.rest) }
    ensures passed { result.passed + length (lines_left result.rest)
        ≡ cut.entry.passed + length (lines_left cut.entry.rest) }
    ensures shorter { result.passed + length_left result.rest ≤ cut.entry.passed + length_left cut.entry.rest }
    ensures some { cut.entry.passed ≤ result.passed }
{
    while let Some(left) = cut.rest {
        let (line, rest) = first_line(left);
        if !goes_on(line) {
            return cut;
        }
        cut.rest = rest;
        cut.passed += 1;
    }
    cut
}

// Whether no entry begins in a line.
fn goes_on(line: &[u8]) -> bool
    ensures { result ≡ goes_on line.now }
{
    begins_with(b'#', line) || is_blank_text(line) || begins_with(b'\t', line)
}
