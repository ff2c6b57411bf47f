//! Cases in, answers out.

use crate::trial::Trial;
use std::io::{BufRead, BufReader};
use std::rt::Files;
use std::{fs, io};

/// Reads cases from standard input, has `answer` tell the answer of each, and prints it. A case that is refused, or of
/// which words are left, is answered by `bad case` and the reason.
pub fn drive<R: Input + Print + Files + AllocGlobal, F: FnMut(&mut Trial)>(
    rt: &R,
    mut answer: F,
) -> io::Result<()>
    requires { F.IsAlwaysCallable answer }
{
    let alloc = rt.alloc();
    for line in BufReader::new(alloc, rt.reader())?.lines(alloc) {
        let line = with_files(rt, &line?)?;
        let (file, case) = parted(&line);
        let mut trial = Trial::of(alloc, case);
        if trial.is_case() {
            answer(&mut trial);
            trial.end();
        } else {
            trial.copy_line();
        }
        print_answer(rt, file, trial.answer())?;
    }
    Ok(())
}

// Prints an answer, or the name of the file that has it.
fn print_answer<R: Print + Files + AllocGlobal>(rt: &R, file: &str, told: &str) -> io::Result<()> {
    if !file.is_empty() && is_in_file(rt, file, told)? {
        println!(rt; "as {file}")
    } else {
        println!(rt; "{told}")
    }
}

// Whether a file has that answer, whose words may name files too.
fn is_in_file<R: Files + AllocGlobal>(rt: &R, file: &str, told: &str) -> io::Result<bool> {
    let text = text_of(rt, file)?;
    Ok(with_files(rt, &text)?.as_str() == told)
}

// The file that has the answer to a case, where it is not printed, and the case.
fn parted(line: &str) -> (&str, &str) {
    match line.strip_prefix("as ") {
        Some(rest) => rest.split_once(' ').unwrap_or(("", line)),
        None => ("", line),
    }
}

// A line that is no comment, in which the end `@NAME` of a word stands for the lines of that file, one behind
// another.
fn with_files<R: Files + AllocGlobal>(rt: &R, line: &str) -> io::Result<String> {
    let alloc = rt.alloc();
    if line.starts_with('#') || !line.contains('@') {
        return Ok(String::from_str(alloc, line)?);
    }
    let mut whole = String::new(alloc);
    for (place, word) in line.split(' ').enumerate() {
        if place > 0 {
            whole.push(' ')?;
        }
        let (front, name) = word.split_once('@').unwrap_or((word, ""));
        whole.push_str(front)?;
        if !name.is_empty() {
            whole.push_str(text_of(rt, name)?.as_str())?;
        }
    }
    Ok(whole)
}

// The lines of a file, one behind another.
fn text_of<R: Files + AllocGlobal>(rt: &R, name: &str) -> io::Result<String> {
    let mut text = String::new(rt.alloc());
    for line in fs::read_to_string(rt, name)?.lines() {
        text.push_str(line)?;
    }
    Ok(text)
}
