//! `ldm check`: what is wrong with configuration files.
ghost use Rattle.std.specs.Prelude.{◌≡◌, ◌≤◌, ◌++◌, IfOk};
ghost use Rattle.ldm_check.specs.Runs.{CheckRuns, Finds, code_by, check_tells, texts_of};
ghost use Rattle.ldm_check.specs.Warnings.{warning_views, warnings_text};

use crate::conf_file::Search;
use crate::looking::Form;
use crate::warning::put_warnings;
use crate::warnings::Warnings;
use ldm_outside::{Reasons, Sink, SinkFailed, Store, write_all};
use ldm_status::Status;
use ldm_types::OutOfMemory;
use std::alloc::{AllocError, Global};

/// The number that the program ends with where a fault was told.
pub const FAULTY: u8 = 65;

/// The files to look at, by their paths.
#[derive(Clone, Copy)]
pub struct CheckAsked<'a> {
    /// Those that are each an ldmd.conf.
    pub confs: &'a [&'a str],
    /// Those that are each a pqact.conf.
    pub pqacts: &'a [&'a str],
}

/// Writes every fault of each ldmd.conf, with the files that it includes, and then of each pqact.conf, a line each:
/// `FILE:LINE: what is wrong: TEXT`. Warnings come behind. Answers the number that the program ends with: 0 where there
/// is no fault, [`FAULTY`] where there is one. A status of another end has its line in the log.
///
/// The clause `ends` says what is written: see `CheckRuns`.
pub fn check<F: Store + Reasons, K: Sink, E: Sink>(
    alloc: Global,
    asked: CheckAsked<'_>,
    store: &mut F,
    sink: &mut K,
    log: &mut E,
) -> u8
    ensures ends { CheckRuns result (texts_of asked.entry.confs.now) (texts_of asked.entry.pqacts.now)
        (check_tells (F.tells store.old) (K.tells sink.old) (E.tells log.old))
        (check_tells (F.tells store.new) (K.tells sink.new) (E.tells log.new)) }
    ensures store_faults_kept { (F.tells store.old).faults ≤ (F.tells store.new).faults }
    ensures sink_faults_kept { (K.tells sink.old).faults ≤ (K.tells sink.new).faults }
    ensures log_faults_kept { (E.tells log.old).faults ≤ (E.tells log.new).faults }
{
    let Ok(search) = find_all(alloc, asked, store) else {
        return Status::NoMemory.report(log);
    };
    let code = code_by(search.faults.as_slice());
    let Ok(text) = joined(search) else {
        return Status::NoMemory.report(log);
    };
    match write_all(sink, text.as_slice()) {
        Ok(()) => code,
        Err(SinkFailed) => Status::SinkFault.report(log),
    }
}

// Looks at all files.
fn find_all<F: Store + Reasons>(
    alloc: Global,
    asked: CheckAsked<'_>,
    store: &mut F,
) -> Result<Search, OutOfMemory>
    ensures found { IfOk result (λ search. Finds (texts_of asked.entry.confs.now) (texts_of asked.entry.pqacts.now)
        search.faults.items (F.tells store.old) (F.tells store.new)) }
    ensures faults_kept { (F.tells store.old).faults ≤ (F.tells store.new).faults }
{
    let mut search = Search {
        faults: Vec::new(alloc),
        warnings: Warnings::new(alloc),
        files: 0,
    };
    search.look_at_files(alloc, store, asked.confs, Form::Conf)?;
    search.look_at_files(alloc, store, asked.pqacts, Form::Pqact)?;
    search.warnings.look_for_programs(alloc, store)?;
    Ok(search)
}

// What is told of faults, and behind it the lines of the warnings.
fn joined(search: Search) -> Result<Vec<u8>, AllocError>
    ensures { IfOk result
        (λ text. text.items
        ≡ search.faults.items ++ warnings_text (warning_views search.warnings.list.items)) }
{
    let Search {
        faults: mut text,
        warnings,
        ..
    } = search;
    put_warnings(&mut text, warnings.list.as_slice())?;
    Ok(text)
}

// The number where all was written, by what was told of faults.
fn code_by(faults: &[u8]) -> u8
    ensures { result ≡ code_by faults.now }
{
    if faults.is_empty() { 0 } else { FAULTY }
}
