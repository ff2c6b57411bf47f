//! Streams over a reader and a writer whose calls move less than they could, fail, or are interrupted.
ghost use Rattle.std.specs.Prelude.{◌≤◌, IfOk};

use ldm_adapters::{RealSink, RealSource};
use ldm_drive::{Trial, push, reads, tell_bytes, tell_count, tell_word, writes};
use ldm_outside::{Sink, write_all};
use std::io::{self, ErrorKind, Read, Write};
use std::slice;

#[derive(Clone, Copy)]
enum Answer {
    Moves(usize),
    Fails(ErrorKind),
}

// The answer of a part of a word: a number of bytes, `i` for a call that is interrupted or `b` for one that fails.
fn answer_of(trial: &mut Trial, part: &str) -> Answer {
    match part {
        "i" => Answer::Fails(ErrorKind::Interrupted),
        "b" => Answer::Fails(ErrorKind::BrokenPipe),
        digits => match digits.parse::<u32>() {
            Ok(count) => Answer::Moves(count as usize),
            Err(_) => {
                trial.refuse("a word is no list of answers");
                Answer::Moves(0)
            }
        },
    }
}

// The answers of the next word, with a comma between two.
fn answers(trial: &mut Trial) -> Vec<Answer> {
    let mut answers = Vec::new(trial.alloc());
    for part in trial.word().split(',') {
        let answer = answer_of(trial, part);
        push(trial, &mut answers, answer);
    }
    answers
}

// A reader and a writer whose calls have these answers, one after another, and then move nothing.
#[derive(Drop)]
struct Scripted<'a> {
    answers: slice::Iter<'a, Answer>,
}

impl Scripted<'_> {
    fn next(&mut self, most: usize) -> io::Result<usize>
        ensures { IfOk result (λ n. n ≤ most) }
    {
        match self.answers.next() {
            Some(Answer::Moves(n)) => Ok((*n).min(most)),
            Some(Answer::Fails(kind)) => Err(io::Error::from(*kind)),
            None => Ok(0),
        }
    }
}

impl Read for Scripted<'_> {
    fn read(&mut self, buf: &mut [u8]) -> io::Result<usize> {
        let n = self.next(buf.len())?;
        for byte in buf.iter_mut() {
            *byte = b'x';
        }
        Ok(n)
    }
}

impl Write for Scripted<'_> {
    fn write(&mut self, buf: &[u8]) -> io::Result<usize> {
        self.next(buf.len())
    }

    fn flush(&mut self) -> io::Result<()> {
        Ok(())
    }
}

/// `source bytes BYTES COUNT`, `source script ANSWERS COUNT`: so many reads of two bytes.
pub fn source(trial: &mut Trial) {
    if trial.word() == "bytes" {
        let bytes = trial.word().as_bytes();
        return read_of(trial, bytes);
    }
    let answers = answers(trial);
    read_of(
        trial,
        Scripted {
            answers: answers.iter(),
        },
    );
}

fn read_of<R: Read + Drop>(trial: &mut Trial, reader: R) {
    let mut source = RealSource::new(reader);
    let count = trial.number();
    reads(trial, &mut source, count);
    tell_count(trial, "faults", source.faults());
    tell_count(trial, "ends", source.ends());
}

/// `sink bytes WHOLE PIECE ..`, `sink script ANSWERS WHOLE PIECE ..`: one call for each piece, and then WHOLE is
/// written whole. `gathered` in place of `sink`: the sink gathers first, and is flushed twice in the end.
pub fn sink(trial: &mut Trial, gathers: bool) {
    if trial.word() == "bytes" {
        let mut sink = RealSink::new(trial.alloc(), Vec::new(trial.alloc()));
        write_of(trial, &mut sink, gathers);
        return tell_bytes(trial, sink.into_writer().as_slice());
    }
    let answers = answers(trial);
    let mut sink = RealSink::new(
        trial.alloc(),
        Scripted {
            answers: answers.iter(),
        },
    );
    write_of(trial, &mut sink, gathers);
}

fn write_of<W: Write>(trial: &mut Trial, sink: &mut RealSink<W>, gathers: bool) {
    if gathers {
        sink.gather();
    }
    let whole = trial.word();
    writes(trial, sink);
    tell_done(trial, write_all(sink, whole.as_bytes()).is_ok());
    if gathers {
        tell_done(trial, sink.flush().is_ok());
        tell_done(trial, sink.flush().is_ok());
    }
    tell_count(trial, "faults", sink.faults());
}

fn tell_done(trial: &mut Trial, is_done: bool) {
    tell_word(trial, if is_done { "ok" } else { "failed" });
}
