//! Reading line by line.
ghost use Rattle.std.specs.Prelude.{◌≡◌, ◌+◌, ◌-◌, ◌^◌, ◌<◌, ◌≤◌, List, ℕ, []};
ghost use Rattle.std.specs.Prelude.{◌∷◌, None, Ok, length, IfOk, MatchResult};
ghost use Rattle.ldm_pqact_conf.specs.Causes.{IsFaultOf};
ghost use Rattle.ldm_pqact_conf.specs.Entries.{pqact_entries};
ghost use Rattle.ldm_pqact_conf.specs.Kept.{Reading, meaning, GoesOn, IsStray, Ends, IsEndFault, begun, kept};

use crate::entries::Entries;
use crate::entry::Entry;
use crate::fault::{PqactFault, PqactKind};
use crate::lines::is_skipped;
use crate::parse::read_entry;
use ldm_text::{LONGEST_CONFIGURATION, begins_with, first_line};
use std::alloc::Global;
use std::marker::Model;

/// The entries of a pqact.conf, or its first fault: that of the first entry that is wrong, or `Fields` at the first
/// line that begins with a tab, is not blank, and has no entry before it.
///
/// `OutOfMemory` may come at any entry. Each other fault is that of the text.
pub fn read_pqact(alloc: Global, bytes: &[u8]) -> Result<Entries, PqactFault>
    requires { length bytes.now ≤ LONGEST_CONFIGURATION }
    ensures { MatchResult result (λ entries. pqact_entries bytes.now ≡ Ok entries)
        (IsFaultOf (pqact_entries bytes.now)) }
{
    let mut reader = Reader::new(alloc);
    let mut rest = Some(bytes);
    while let Some(text) = rest {
        let (line, behind) = first_line(text);
        reader.take_line(alloc, line)?;
        rest = behind;
    }
    reader.finish(alloc)
}

// What was read so far.
#[derive(Drop)]
struct Reader {
    // Those that ended.
    entries: Vec<Entry>,
    // The number of the next line.
    next: u32,
    // The first line of the entry that has not ended yet.
    first: Option<u32>,
    // Its lines, joined.
    text: Vec<u8>,
}

impl Model for Reader {
    ghost use Rattle.ldm_pqact_conf.specs.Kept.{Reading};

    ghost Value = { Reading };

    ghost use Rattle.ldm_pqact_conf.specs.EntryParts.{reading_of};

    ghost view = { reading_of };
}

impl Reader {
    fn new(alloc: Global) -> Reader
        ensures { result ≡ record { entries = []; next = 1; open_entry = None } }
    {
        Reader {
            entries: Vec::new(alloc),
            next: 1,
            first: None,
            text: Vec::new(alloc),
        }
    }

    // The next line. A fault is that of the whole text.
    fn take_line(&mut self, alloc: Global, line: &[u8]) -> Result<(), PqactFault>
        requires { self.old.next < 2 ^ 32 - 1 }
        ensures next { IfOk result (λ _. self.new.next ≡ self.old.next + 1) }
        ensures means { (lines : List (List ℕ)) → MatchResult result
            (λ _. meaning self.new lines ≡ meaning self.old (line.now ∷ lines))
            (IsFaultOf (meaning self.old (line.now ∷ lines))) }
    {
        if is_skipped(line) {
            self.next += 1;
            return Ok(());
        }
        if begins_with(b'\t', line) {
            return self.go_on(line);
        }
        self.end_entry(alloc)?;
        self.begin(line)
    }

    // A line that goes on with the entry that has not ended yet. Without one it is the fault.
    fn go_on(&mut self, line: &[u8]) -> Result<(), PqactFault>
        requires { self.old.next < 2 ^ 32 - 1 }
        ensures { MatchResult result (λ _. GoesOn self.old line.now self.new) (IsStray self.old) }
    {
        let Some(first) = self.first else {
            return Err(PqactFault {
                line: self.next,
                kind: PqactKind::Fields,
            });
        };
        match self.text.extend_from_slice(line) {
            Ok(()) => {
                self.next += 1;
                Ok(())
            }
            Err(_) => Err(no_memory(first)),
        }
    }

    // The first line of the next entry. The one before it has ended.
    fn begin(&mut self, line: &[u8]) -> Result<(), PqactFault>
        requires { self.old.next < 2 ^ 32 - 1 }
        ensures { MatchResult result (λ _. self.new ≡ begun self.old line.now)
            (λ fault. fault.kind ≡ PqactKind.OutOfMemory) }
    {
        self.text.clear();
        match self.text.extend_from_slice(line) {
            Ok(()) => {
                self.first = Some(self.next);
                self.next += 1;
                Ok(())
            }
            Err(_) => Err(no_memory(self.next)),
        }
    }

    // Ends the entry that has not ended yet, if there is one.
    fn end_entry(&mut self, alloc: Global) -> Result<(), PqactFault>
        ensures { MatchResult result (λ _. Ends self.old self.new) (IsEndFault self.old) }
    {
        let Some(line) = self.first else {
            return Ok(());
        };
        match read_entry(alloc, line, self.text.as_slice()) {
            Ok(entry) => self.keep(entry),
            Err(kind) => Err(PqactFault { line, kind }),
        }
    }

    // Keeps what the entry means that has not ended yet.
    fn keep(&mut self, entry: Entry) -> Result<(), PqactFault>
        ensures { MatchResult result (λ _. self.new ≡ kept self.old entry)
            (λ fault. fault.kind ≡ PqactKind.OutOfMemory) }
    {
        let line = entry.line;
        match self.entries.push(entry) {
            Ok(()) => {
                self.first = None;
                Ok(())
            }
            Err(_) => Err(no_memory(line)),
        }
    }

    // The entries, where no line is left.
    fn finish(mut self, alloc: Global) -> Result<Entries, PqactFault>
        ensures { MatchResult result (λ entries. meaning self [] ≡ Ok entries) (IsFaultOf (meaning self [])) }
    {
        self.end_entry(alloc)?;
        Ok(Entries {
            entries: self.entries,
        })
    }
}

fn no_memory(line: u32) -> PqactFault
    ensures { result ≡ record { line = line; kind = PqactKind.OutOfMemory } }
{
    PqactFault {
        line,
        kind: PqactKind::OutOfMemory,
    }
}
