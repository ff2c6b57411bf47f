//! What is wrong with a line of a configuration file, in words.
ghost use Rattle.std.specs.Prelude.{◌≡◌};
ghost use Rattle.ldm_command_files.specs.Words.{conf_words, pqact_words};

use crate::included::IncludedFiles;
use ldm_conf::{ConfFault, ConfKind};
use ldm_outside::Reason;
use ldm_pqact_conf::{PqactFault, PqactKind};
use ldm_text::first_line;

// The most bytes of a path in a reason, so that there is room for what is wrong and for a part of the line.
const LONGEST_PATH: usize = 60;

// The most bytes of a line in a reason.
const LONGEST_SHOWN: usize = 100;

/// Makes the reason `PATH:LINE: WORDS: TEXT` of a fault of an ldmd.conf that has these bytes, or of a file that it
/// includes. Where that is not among the files, its number is told, and no text.
pub(crate) fn tell_conf(
    why: &mut Reason,
    path: &str,
    bytes: &[u8],
    included: &IncludedFiles,
    fault: &ConfFault,
) {
    let words = words_of_conf(fault.kind);
    if fault.file == 0 {
        tell_line(why, path, bytes, fault.line, words);
        return;
    }
    if let Some(file) = included.find(fault.file) {
        tell_line(why, file.path(), file.text(), fault.line, words);
        return;
    }
    why.clear();
    put_path(why, path);
    why.put(b" includes a faulty file: file ");
    why.put_number(u64::from(fault.file));
    why.put(b", line ");
    why.put_number(u64::from(fault.line));
    why.put(b": ");
    why.put(words);
}

/// The same of a fault of a pqact.conf that has these bytes: the text is that of the entry's first line.
pub(crate) fn tell_pqact(why: &mut Reason, path: &str, bytes: &[u8], fault: &PqactFault) {
    tell_line(why, path, bytes, fault.line, words_of_pqact(fault.kind));
}

/// Makes the reason of a file that has too many bytes.
pub(crate) fn tell_long(why: &mut Reason, path: &str) {
    why.clear();
    put_path(why, path);
    why.put(b": ");
    why.put(words_of_conf(ConfKind::Long));
}

fn tell_line(why: &mut Reason, path: &str, bytes: &[u8], line: u32, words: &[u8]) {
    why.clear();
    put_path(why, path);
    why.put(b":");
    why.put_number(u64::from(line));
    why.put(b": ");
    why.put(words);
    let text = line_at(bytes, line);
    if !text.is_empty() {
        why.put(b": ");
        why.put(&text[..text.len().min(LONGEST_SHOWN)]);
    }
}

fn put_path(why: &mut Reason, path: &str) {
    let path = path.as_bytes();
    why.put(&path[..path.len().min(LONGEST_PATH)]);
}

// The line of that number, from 1, without the carriage return that it ends in. It is empty where there is none.
fn line_at(bytes: &[u8], number: u32) -> &[u8] {
    let mut left = bytes;
    for _ in 1..number {
        let (_, behind) = first_line(left);
        match behind {
            Some(behind) => left = behind,
            None => return b"".as_slice(),
        }
    }
    let (line, _) = first_line(left);
    match line {
        [front @ .., b'\r'] => front,
        _ => line,
    }
}

/// What is wrong with a line of an ldmd.conf, or with a file of it.
pub fn words_of_conf(kind: ConfKind) -> &'static [u8]
    ensures { result.now ≡ conf_words kind }
{
    match kind {
        ConfKind::Keyword => b"no such keyword",
        ConfKind::Fields => b"too few words, too many, or one of a wrong form",
        ConfKind::Feed => b"no such feedtype",
        ConfKind::Pattern => b"a pattern that does not read",
        ConfKind::Depth => b"a file too deep, or one too many",
        ConfKind::Store => b"the file cannot be read",
        ConfKind::Long => b"the file is too long",
        ConfKind::OutOfMemory => b"no memory",
    }
}

/// What is wrong with an entry of a pqact.conf.
pub fn words_of_pqact(kind: PqactKind) -> &'static [u8]
    ensures { result.now ≡ pqact_words kind }
{
    match kind {
        PqactKind::Fields => b"too few fields, too many, or one of a wrong form",
        PqactKind::Feed => b"no such feedtype",
        PqactKind::Pattern => b"a pattern that does not read",
        PqactKind::Action => b"no such action",
        PqactKind::Option => b"no such option of the action",
        PqactKind::OutOfMemory => b"no memory",
    }
}
