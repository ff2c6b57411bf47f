//! Reading file by file, and line by line.
ghost use Rattle.std.specs.Prelude.{◌≡◌, ◌<◌, ◌≤◌, ◌^◌, [], true, Ok, Err, length};
ghost use Rattle.std.specs.Prelude.{IfOk, IfSome, MatchResult, MatchOption};
ghost use Rattle.ldm_conf.specs.declared.fault.ConfKind.TheVariants as kind;
ghost use Rattle.ldm_conf.specs.Alone.{MeansAlone};
ghost use Rattle.ldm_conf.specs.Causes.{HasCause, IsIn, ReadsConf, first_too_long};
ghost use Rattle.ldm_conf.specs.Confs.{conf_view};
ghost use Rattle.ldm_text.specs.Lines.{length_left};
ghost use Rattle.ldm_conf.specs.LineFaults.{IsKindOf};
ghost use Rattle.ldm_conf.specs.LineViews.{left_of, line_view, room_of};
ghost use Rattle.ldm_conf.specs.Reading.{may_include, wanting};
ghost use Rattle.ldm_conf.specs.States.{AddsLine, EndsIn, FailsIn, GoesOn, GoesTo, Passes, state_of};
ghost use Rattle.ldm_conf.specs.Statements as statements;
ghost use Rattle.ldm_conf.specs.Statements.{meaning_of};

use crate::conf::Conf;
use crate::directive::Statement;
use crate::fault::{ConfFault, ConfKind};
use crate::limits::{DEEPEST_INCLUDE, MOST_FILES};
use crate::lines::{Line, Lines};
use crate::parse::read_statement;
use ldm_outside::{FileRead, Store};
use ldm_text::LONGEST_CONFIGURATION;
use std::alloc::Global;

/// The configuration that an ldmd.conf of these bytes means, with the files of the store that it includes; or its first
/// fault, in the order in which lines are read. The lines of a file that is included stand where its INCLUDE line
/// stands.
///
/// Files are numbered in the order in which they are read, and this one has the number 0. `Depth`, `Store` and `Long`
/// stand at the INCLUDE line, and `Long` of this file stands at file 0, line 0. `OutOfMemory` may come at any line, and
/// nothing is said of its place.
pub fn read_conf<F: Store>(alloc: Global, bytes: &[u8], store: &mut F) -> Result<Conf, ConfFault>
    ensures too_long { LONGEST_CONFIGURATION < length bytes.now → (result ≡ Err first_too_long)
        × (F.tells store.new ≡ F.tells store.old) }
    ensures reads { length bytes.now ≤ LONGEST_CONFIGURATION
        → ReadsConf result bytes.now (F.tells store.old) (F.tells store.new) }
{
    if bytes.len() > LONGEST_CONFIGURATION {
        return Err(nowhere(ConfKind::Long));
    }
    let Ok(conf) = Conf::create(alloc) else {
        return Err(nowhere(ConfKind::OutOfMemory));
    };
    let mut reader = Reader { conf, files: 1 };
    reader.read_file(alloc, store, Lines::of(0, 0, bytes))?;
    Ok(reader.conf)
}

/// What a line means that stands alone.
#[derive(Drop)]
pub enum ConfLine<'a> {
    /// The configuration of this line; of a blank line or a comment the empty one.
    Conf(Conf),
    /// The path of the file whose lines stand here.
    Includes(&'a str),
}

/// What a line of an ldmd.conf means by itself. No file is read. The fault is that of the line, or want of memory.
pub fn read_conf_line<'a>(alloc: Global, line: &'a [u8]) -> Result<ConfLine<'a>, ConfKind>
    ensures { MatchResult result (MeansAlone line.now) (IsKindOf (meaning_of line.now)) }
{
    let Ok(conf) = Conf::create(alloc) else {
        return Err(ConfKind::OutOfMemory);
    };
    let mut reader = Reader { conf, files: 1 };
    match reader.read_line(alloc, line) {
        Ok(None) => Ok(ConfLine::Conf(reader.conf)),
        Ok(Some(path)) => Ok(ConfLine::Includes(path)),
        Err(kind) => Err(kind),
    }
}

// A fault that stands at no line.
fn nowhere(kind: ConfKind) -> ConfFault
    ensures { result ≡ record { file = 0; line = 0; kind = kind } }
{
    ConfFault {
        file: 0,
        line: 0,
        kind,
    }
}

// What was read so far.
#[derive(Drop)]
struct Reader {
    conf: Conf,
    // How many files.
    files: u32,
}

impl Reader {
    // Reads the lines of a file, and those of the files that it includes.
    fn read_file<F: Store>(
        &mut self,
        alloc: Global,
        store: &mut F,
        mut lines: Lines<'_>,
    ) -> Result<(), ConfFault>
        requires { room_of lines < 2 ^ 32 }
        ensures { MatchResult result
            (λ _. Passes (F.tells store.old) (state_of self.old) (left_of lines.entry) (state_of self.new) []
            × (F.tells store.new ≡ F.tells store.old))
            (λ fault. HasCause (EndsIn (F.tells store.old) (state_of self.old) (left_of lines.entry)) fault.kind fault
            (F.tells store.old) (F.tells store.new)) }
    {
        while let Some((line, path)) = self.read_to_include(alloc, &mut lines)? {
            let bytes = self.include(alloc, store, line, path)?;
            let file = self.files;
            self.files += 1;
            let included = Lines::of(file, line.depth + 1, bytes.as_slice());
            self.read_file(alloc, store, included)?;
        }
        Ok(())
    }

    // Reads lines up to the next INCLUDE line, and answers that line and its path, if there is one.
    fn read_to_include<'a>(
        &mut self,
        alloc: Global,
        lines: &mut Lines<'a>,
    ) -> Result<Option<(Line<'a>, &'a str)>, ConfFault>
        requires { room_of lines.old < 2 ^ 32 }
        ensures read { MatchResult result
            (λ found. MatchOption found
            (GoesOn (state_of self.old) (left_of lines.old) (state_of self.new) [])
            (λ include. GoesTo (state_of self.old) (left_of lines.old) (state_of self.new)
            (line_view include.0) include.1.now (left_of lines.new)))
            (FailsIn (state_of self.old) (left_of lines.old)) }
        ensures place { IfOk result (λ found. IfSome found (λ include. include.0.depth ≡ lines.old.depth)) }
        ensures depth { lines.new.depth ≡ lines.old.depth }
        ensures room { room_of lines.new ≤ room_of lines.old }
        ensures shorter { IfOk result
            (λ found. IfSome found (λ _. length_left lines.new.rest < length_left lines.old.rest)) }
    {
        while let Some(line) = lines.take() {
            match self.read_line(alloc, line.text) {
                Ok(None) => {}
                Ok(Some(path)) => return Ok(Some((line, path))),
                Err(kind) => return Err(line.fault(kind)),
            }
        }
        Ok(None)
    }

    // Reads a line, and answers the path of the file that it includes, if it includes one.
    fn read_line<'a>(&mut self, alloc: Global, line: &'a [u8]) -> Result<Option<&'a str>, ConfKind>
        ensures read { MatchResult result
            (λ found. MatchOption found
            (AddsLine line.now (conf_view self.old.conf) (conf_view self.new.conf))
            (λ path. (meaning_of line.now ≡ Ok (statements.Includes path.now)) × (self.new ≡ self.old)))
            (IsKindOf (meaning_of line.now)) }
        ensures files { self.new.files ≡ self.old.files }
    {
        match read_statement(line)? {
            Statement::Blank => Ok(None),
            Statement::Adds(directive) => {
                self.conf.add(alloc, directive)?;
                Ok(None)
            }
            Statement::Includes(path) => Ok(Some(path)),
        }
    }

    // The bytes of the file that a line includes.
    fn include<F: Store>(
        &self,
        alloc: Global,
        store: &mut F,
        line: Line<'_>,
        path: &str,
    ) -> Result<Vec<u8>, ConfFault>
        ensures { MatchResult result
            (λ bytes. (may_include self.now.files (line_view line.entry) ≡ true)
            × IsIn (F.tells store.old) (record { path = path.now; bytes = bytes.items })
            × (F.tells store.new ≡ F.tells store.old))
            (λ fault. HasCause (λ end. wanting self.now.files (line_view line.entry) path.now ≡ end) fault.kind fault
            (F.tells store.old) (F.tells store.new)) }
    {
        if line.depth >= DEEPEST_INCLUDE || self.files >= MOST_FILES {
            return Err(line.fault(ConfKind::Depth));
        }
        match store.read_file(alloc, path, LONGEST_CONFIGURATION as u64) {
            FileRead::Bytes(bytes) => Ok(bytes),
            FileRead::TooLong => Err(line.fault(ConfKind::Long)),
            FileRead::Failed => Err(line.fault(ConfKind::Store)),
            FileRead::OutOfMemory => Err(line.fault(ConfKind::OutOfMemory)),
        }
    }
}
