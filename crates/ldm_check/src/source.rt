//! The lines of a file that is looked at.
ghost use Rattle.std.specs.Prelude.{◌≡◌, ◌<◌, ◌≤◌, ◌∷◌, [], ℕ, List, length, IfSome, MatchOption, OnSome};
ghost use Rattle.ldm_conf.specs.Lines.{without_return};
ghost use Rattle.ldm_text.specs.Lines.{length_left, lines_of};
ghost use Rattle.ldm_text.specs.declared.limits.TheConstants.{LONGEST_CONFIGURATION};
ghost use Rattle.ldm_check.specs.ConfFaults.{lines_in};
ghost use Rattle.ldm_check.specs.Sources.{Fits, left_of, line_in};

use ldm_text::first_line;

/// A line of a file.
#[derive(Clone, Copy)]
pub(crate) struct Line<'a> {
    /// Its number, from 1.
    pub number: u32,
    pub text: &'a [u8],
}

/// The lines of a file that are left.
#[derive(Drop)]
pub(crate) struct Lines<'a> {
    /// How many INCLUDE lines lead to the file.
    pub depth: u32,
    /// The number of the next line.
    pub next: u32,
    pub rest: Option<&'a [u8]>,
}

impl<'a> Lines<'a> {
    /// All lines of a file.
    pub(crate) fn of(depth: u32, bytes: &'a [u8]) -> Lines<'a>
        requires { length bytes.now ≤ LONGEST_CONFIGURATION }
        ensures lines { (path : List ℕ) → left_of path result ≡ lines_in path depth bytes.now }
        ensures depth { result.depth ≡ depth }
        ensures fits { Fits result }
    {
        Lines {
            depth,
            next: 1,
            rest: Some(bytes),
        }
    }

    /// Takes the next line.
    pub(crate) fn take(&mut self) -> Option<Line<'a>>
        requires { Fits self.old }
        ensures taken { (path : List ℕ) → MatchOption result (left_of path self.old ≡ [])
            (λ line. left_of path self.old ≡ line_in path self.old.depth line ∷ left_of path self.new) }
        ensures alone { IfSome result (λ line. lines_of line.text.now ≡ line.text.now ∷ []) }
        ensures short { IfSome result (λ line. length line.text.now ≤ LONGEST_CONFIGURATION) }
        ensures depth { self.new.depth ≡ self.old.depth }
        ensures fits { Fits self.new }
        ensures shorter { OnSome result (length_left self.new.rest < length_left self.old.rest) }
    {
        let (text, behind) = first_line(self.rest?);
        let line = Line {
            number: self.next,
            text,
        };
        self.next += 1;
        self.rest = behind;
        Some(line)
    }
}

/// A line without the carriage return that it ends in, if it ends in one.
pub(crate) fn without_return(line: &[u8]) -> &[u8]
    ensures { result.now ≡ without_return line.now }
{
    match line.last() {
        Some(b'\r') => &line[..line.len() - 1],
        _ => line,
    }
}
