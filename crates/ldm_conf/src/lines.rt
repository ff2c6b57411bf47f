//! The lines of a file.
ghost use Rattle.std.specs.Prelude.{◌≡◌, ◌+◌, ◌<◌, ◌≤◌, ◌^◌, ◌∷◌, [], length, IfSome, MatchOption, OnSome};
ghost use Rattle.ldm_conf.specs.Lines.{without_return};
ghost use Rattle.ldm_conf.specs.Reading.{lines_in};
ghost use Rattle.ldm_text.specs.Lines.{length_left};
ghost use Rattle.ldm_conf.specs.LineViews.{left_of, line_view, room_of};

use crate::fault::{ConfFault, ConfKind};
use ldm_text::first_line;

/// A line, and where it stands.
#[derive(Clone, Copy)]
pub struct Line<'a> {
    /// The number of its file, in the order in which files are read.
    pub file: u32,
    /// How many INCLUDE lines lead to that file.
    pub depth: u32,
    /// Its number in that file, from 1.
    pub number: u32,
    pub text: &'a [u8],
}

impl Line<'_> {
    /// A fault of that kind at this line.
    pub fn fault(&self, kind: ConfKind) -> ConfFault
        ensures { result ≡ record { file = self.now.file; line = self.now.number; kind = kind } }
    {
        ConfFault {
            file: self.file,
            line: self.number,
            kind,
        }
    }
}

/// The lines of a file that are left to be read.
#[derive(Drop)]
pub struct Lines<'a> {
    pub file: u32,
    pub depth: u32,
    /// The number of the next line.
    pub next: u32,
    pub rest: Option<&'a [u8]>,
}

impl<'a> Lines<'a> {
    /// All lines of a file.
    pub fn of(file: u32, depth: u32, bytes: &'a [u8]) -> Lines<'a>
        ensures lines { left_of result ≡ lines_in file depth bytes.now }
        ensures depth { result.depth ≡ depth }
        ensures room { room_of result ≡ length bytes.now + 2 }
    {
        Lines {
            file,
            depth,
            next: 1,
            rest: Some(bytes),
        }
    }

    /// Takes the next line.
    pub fn take(&mut self) -> Option<Line<'a>>
        requires { room_of self.old < 2 ^ 32 }
        ensures taken { MatchOption result (left_of self.old ≡ [])
            (λ line. left_of self.old ≡ line_view line ∷ left_of self.new) }
        ensures place { IfSome result (λ line. line.depth ≡ self.old.depth) }
        ensures depth { self.new.depth ≡ self.old.depth }
        ensures room { room_of self.new ≤ room_of self.old }
        ensures shorter { OnSome result (length_left self.new.rest < length_left self.old.rest) }
    {
        let (text, behind) = first_line(self.rest?);
        let line = Line {
            file: self.file,
            depth: self.depth,
            number: self.next,
            text,
        };
        self.next += 1;
        self.rest = behind;
        Some(line)
    }
}

/// A line without the carriage return that it ends in, if it ends in one.
pub fn without_return(line: &[u8]) -> &[u8]
    ensures { result.now ≡ without_return line.now }
{
    match line.last() {
        Some(b'\r') => &line[..line.len() - 1],
        _ => line,
    }
}
