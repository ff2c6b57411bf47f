//! The faults of an ldmd.conf, and of the files that it includes.
ghost use Rattle.std.specs.Prelude.{◌≡◌, ◌++◌, ◌<◌, ◌≤◌, [], ℕ, length, OnOk, IfOk, IfSome, MatchOption};
ghost use Rattle.ldm_conf.specs.Lines.{without_return};
ghost use Rattle.ldm_text.specs.Lines.{length_left};
ghost use Rattle.ldm_check.specs.Files.{TellsConf, conf_line};
ghost use Rattle.ldm_check.specs.Sources.{Fits, left_of, line_in};
ghost use Rattle.ldm_check.specs.Walks.{GoesOn, GoesTo, Passes, scene_of, state_of};

use crate::lines::put_fault;
use crate::said::{Said, look_at};
use crate::source::{Line, Lines, without_return};
use crate::warnings::Warnings;
use ldm_command_files::words_of_conf;
use ldm_conf::{ConfKind, DEEPEST_INCLUDE, MOST_FILES};
use ldm_outside::{FileRead, Store};
use ldm_text::LONGEST_CONFIGURATION;
use ldm_types::OutOfMemory;
use std::alloc::{AllocError, Global};

/// What was found so far.
#[derive(Drop)]
pub(crate) struct Search {
    /// What is told of faults.
    pub faults: Vec<u8>,
    pub warnings: Warnings,
    /// How many files of an ldmd.conf came, itself among them.
    pub files: u32,
}

impl Search {
    /// Tells what is wrong with the bytes of an ldmd.conf, and with the files that it includes.
    pub(crate) fn look_at_text<F: Store>(
        &mut self,
        alloc: Global,
        store: &mut F,
        path: &str,
        bytes: &[u8],
    ) -> Result<(), OutOfMemory>
        requires { length bytes.now ≤ LONGEST_CONFIGURATION }
        ensures told { OnOk result (TellsConf path.now bytes.now
            (scene_of (F.tells store.old) self.old) (scene_of (F.tells store.new) self.new)) }
        ensures faults_kept { (F.tells store.old).faults ≤ (F.tells store.new).faults }
    {
        self.files = 1;
        self.warnings.begin();
        self.look_through(alloc, store, path, Lines::of(0, bytes))?;
        self.warnings.end(alloc, path)?;
        Ok(())
    }

    // Tells what is wrong with the lines of a file that are left, and with the files that they include.
    fn look_through<F: Store>(
        &mut self,
        alloc: Global,
        store: &mut F,
        path: &str,
        mut lines: Lines<'_>,
    ) -> Result<(), OutOfMemory>
        requires { Fits lines }
        ensures passes { OnOk result (Passes (F.tells store.old) (F.tells store.new)
            (state_of self.old) (left_of path.now lines.entry) (state_of self.new) []) }
        ensures faults_kept { (F.tells store.old).faults ≤ (F.tells store.new).faults }
    {
        while let Some((line, included)) = self.look_to_include(alloc, path, &mut lines)? {
            match store.read_file(alloc, included, LONGEST_CONFIGURATION as u64) {
                FileRead::Bytes(bytes) => {
                    self.files += 1;
                    let inner = Lines::of(lines.depth + 1, bytes.as_slice());
                    self.look_through(alloc, store, included, inner)?;
                }
                FileRead::TooLong => self.tell(path, &line, ConfKind::Long)?,
                FileRead::Failed => self.tell(path, &line, ConfKind::Store)?,
                FileRead::OutOfMemory => return Err(OutOfMemory),
            }
        }
        Ok(())
    }

    // Tells what is wrong with lines up to the next INCLUDE line whose file may be included, and answers that line with
    // the path, if there is one.
    fn look_to_include<'a>(
        &mut self,
        alloc: Global,
        path: &str,
        lines: &mut Lines<'a>,
    ) -> Result<Option<(Line<'a>, &'a str)>, OutOfMemory>
        requires { Fits lines.old }
        ensures read { IfOk result (λ found. MatchOption found
            (GoesOn (state_of self.old) (left_of path.now lines.old) (state_of self.new) [])
            (λ include. GoesTo (state_of self.old) (left_of path.now lines.old) (state_of self.new)
            (line_in path.now lines.old.depth include.0) include.1.now (left_of path.now lines.new))) }
        ensures may { IfOk result (λ found. IfSome found (λ _. (lines.old.depth < DEEPEST_INCLUDE)
            × (self.new.files < MOST_FILES))) }
        ensures depth { lines.new.depth ≡ lines.old.depth }
        ensures fits { Fits lines.new }
        ensures shorter { IfOk result
            (λ found. IfSome found (λ _. length_left lines.new.rest < length_left lines.old.rest)) }
    {
        while let Some(line) = lines.take() {
            match look_at(alloc, line.text)? {
                Said::Fine(conf) => self.warnings.look_at(alloc, path, &line, &conf)?,
                Said::Faulty(kind) => self.tell(path, &line, kind)?,
                Said::Includes(included) => {
                    if lines.depth < DEEPEST_INCLUDE && self.files < MOST_FILES {
                        return Ok(Some((line, included)));
                    }
                    self.tell(path, &line, ConfKind::Depth)?;
                }
            }
        }
        Ok(None)
    }

    // Tells what is wrong with a line of the file under the path.
    fn tell(&mut self, path: &str, line: &Line<'_>, kind: ConfKind) -> Result<(), AllocError>
        ensures told { (depth : ℕ) → OnOk result (self.new.faults.items
            ≡ self.old.faults.items ++ conf_line (record { line = line_in path.now depth line.now; kind = kind })) }
        ensures files { self.new.files ≡ self.old.files }
    {
        put_fault(
            &mut self.faults,
            path.as_bytes(),
            u64::from(line.number),
            words_of_conf(kind),
            without_return(line.text),
        )
    }
}
