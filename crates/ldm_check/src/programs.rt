//! The programs that lines and entries start.
ghost use Rattle.std.specs.Prelude.{◌≡◌, ◌≤◌, IfOk, OnOk, string_bytes};
ghost use Rattle.ldm_check.specs.Programs.{LooksFor};
ghost use Rattle.ldm_check.specs.Warnings.{Missing, warning_view};

use crate::warning::Warning;
use ldm_outside::{FileRead, Reasons, Store};
use ldm_types::OutOfMemory;
use std::alloc::{AllocError, Global};

// A program, and where the line stands that starts it.
#[derive(Drop)]
struct Started {
    file: String,
    line: u64,
    program: String,
}

impl Started {
    // The warning that the program is not there, for that reason.
    fn missing(&self, alloc: Global, reason: &[u8]) -> Result<Warning, AllocError>
        ensures { IfOk result (λ warning. warning_view warning
            ≡ Missing (string_bytes self.now.file) self.now.line (string_bytes self.now.program) reason.now) }
    {
        let mut copy = Vec::new(alloc);
        copy.extend_from_slice(reason)?;
        Ok(Warning::Missing(
            String::from_str(alloc, self.file.as_str())?,
            self.line,
            String::from_str(alloc, self.program.as_str())?,
            copy,
        ))
    }
}

/// The programs that the lines seen so far start, and that are looked for once all files were read.
#[derive(Drop)]
pub(crate) struct Programs {
    started: Vec<Started>,
}

impl Programs {
    /// No program.
    pub(crate) fn new(alloc: Global) -> Programs {
        Programs {
            started: Vec::new(alloc),
        }
    }

    /// Notes the program that a line of the file under the path starts, if the name is one of a file: it has a slash,
    /// and no part that a product decides.
    pub(crate) fn note(
        &mut self,
        alloc: Global,
        path: &str,
        line: u64,
        program: &[u8],
    ) -> Result<(), AllocError> {
        if !is_of_file(program) {
            return Ok(());
        }
        let Ok(program) = str::from_utf8(program) else {
            return Ok(());
        };
        let started = Started {
            file: String::from_str(alloc, path)?,
            line,
            program: String::from_str(alloc, program)?,
        };
        self.started.push(started)?;
        Ok(())
    }

    /// Asks the store for each program, and warns of those that it does not have. No byte of a program is read.
    pub(crate) fn look_for<F: Store + Reasons>(
        &self,
        alloc: Global,
        store: &mut F,
        warnings: &mut Vec<Warning>,
    ) -> Result<(), OutOfMemory>
        ensures asked { OnOk result (LooksFor (F.tells store.old) (F.tells store.new)) }
        ensures faults_kept { (F.tells store.old).faults ≤ (F.tells store.new).faults }
    {
        for one in &self.started {
            match store.read_file(alloc, one.program.as_str(), 0) {
                FileRead::Failed => warnings.push(one.missing(alloc, store.reason())?)?,
                FileRead::OutOfMemory => return Err(OutOfMemory),
                FileRead::Bytes(_) | FileRead::TooLong => {}
            }
        }
        Ok(())
    }
}

// Whether the name of a program is that of a file: the system looks for others in its own folders, and where a form
// stands in it a product decides.
fn is_of_file(program: &[u8]) -> bool {
    let mut has_slash = false;
    for byte in program {
        match byte {
            b'\\' | b'(' | b'%' => return false,
            b'/' => has_slash = true,
            _ => {}
        }
    }
    has_slash
}
