//! Words that are no form of a command.
ghost use Rattle.std.specs.Prelude.{◌≡◌, ◌≤◌, map, string_bytes};
ghost use Rattle.ldm_commands.specs.Command.{has_file, has_options};
ghost use Rattle.ldm_commands.specs.Run.{ReportsUsage, ReportsUsageIf};

use ldm_outside::Sink;
use ldm_status::Status;
use ldm_words::why_usage;
use std::alloc::Global;

/// Reports that the words are no form of a command, and what is wrong with them, if their first one is that of a
/// command with options or of one about files.
pub(crate) fn report_usage<E: Sink>(alloc: Global, words: &[String], log: &mut E) -> u8
    ensures reports { ReportsUsage (map string_bytes words.now) result (E.tells log.old) (E.tells log.new) }
    ensures faults_kept { (E.tells log.old).faults ≤ (E.tells log.new).faults }
{
    match words {
        [first, others @ ..] => report_words(alloc, first.as_bytes(), others, log),
        [] => Status::Usage.report(log),
    }
}

// The same, by the first word and those behind it.
fn report_words<E: Sink>(alloc: Global, first: &[u8], others: &[String], log: &mut E) -> u8
    ensures reports { ReportsUsageIf (has_options first.now) result (E.tells log.old) (E.tells log.new) }
    ensures faults_kept { (E.tells log.old).faults ≤ (E.tells log.new).faults }
{
    if has_options(first) {
        let why = why_usage(alloc, first, others);
        Status::Usage.report_because(why.as_slice(), log)
    } else {
        Status::Usage.report(log)
    }
}

// Whether a first word is that of a command with options, or of one about files.
fn has_options(word: &[u8]) -> bool
    ensures { result ≡ has_options word.now }
{
    if word == b"node".as_slice() {
        true
    } else if word == b"pqact".as_slice() {
        true
    } else if word == b"pqinsert".as_slice() {
        true
    } else if word == b"pqcat".as_slice() {
        true
    } else if word == b"notifyme".as_slice() {
        true
    } else if word == b"pqmon".as_slice() {
        true
    } else if word == b"wmo".as_slice() {
        true
    } else if word == b"pqstats".as_slice() {
        true
    } else {
        has_file(word)
    }
}

// Whether a first word is that of a command about files.
fn has_file(word: &[u8]) -> bool
    ensures { result ≡ has_file word.now }
{
    if word == b"save".as_slice() {
        true
    } else if word == b"resume".as_slice() {
        true
    } else if word == b"pqcheck".as_slice() {
        true
    } else {
        word == b"check".as_slice()
    }
}
