//! Actions.
ghost use Rattle.std.specs.Prelude.{◌≡◌, length};
ghost use Rattle.std.specs.Str.{str_eq_ignore_ascii_case};
ghost use Rattle.ldm_pqact_conf.specs.Actions.{action_name, action_of, is_option, takes};

use crate::options::{CLOSE, FLUSH, OVERWRITE, STRIP, WAIT};
use crate::words::Word;

/// What is done with a product.
#[derive(Clone, Copy, Debug, PartialEq, Eq)]
pub enum ActionKind {
    /// The body is appended to a file, or takes the place of what the file has (`-overwrite`).
    File,
    /// The same as [`ActionKind::File`]: LDM writes such a file through a buffer of the C library, and this project's
    /// files have none.
    StdioFile,
    /// The body is written to the standard input of a program, which may go on for the next product.
    Pipe,
    /// A program is started.
    Exec,
    /// Nothing is done. The entry counts as one that matched.
    Noop,
}

impl ActionKind {
    const ALL: [ActionKind; 5] = [
        ActionKind::File,
        ActionKind::StdioFile,
        ActionKind::Pipe,
        ActionKind::Exec,
        ActionKind::Noop,
    ];

    /// Its name, in upper case.
    pub fn name(self) -> &'static [u8]
        ensures { result.now ≡ action_name self }
    {
        match self {
            ActionKind::File => b"FILE",
            ActionKind::StdioFile => b"STDIOFILE",
            ActionKind::Pipe => b"PIPE",
            ActionKind::Exec => b"EXEC",
            ActionKind::Noop => b"NOOP",
        }
    }

    /// The action of that name, in letters of either case.
    #[tactic(auto, unfolding(crate::specs::Actions::action_of))]
    pub fn of_name(field: &[u8]) -> Option<ActionKind>
        ensures { result ≡ action_of field.now }
    {
        ActionKind::ALL
            .iter()
            .copied()
            .find(|action| is_name(action.name(), field))
    }

    // Whether it has that option.
    #[tactic(auto, unfolding(crate::specs::Actions::is_option))]
    pub(crate) fn has_option(self, word: &[u8]) -> bool
        ensures { result ≡ is_option self word.now }
    {
        match self {
            ActionKind::File | ActionKind::StdioFile => {
                word == OVERWRITE || word == CLOSE || word == FLUSH || word == STRIP
            }
            ActionKind::Pipe => word == CLOSE || word == FLUSH || word == STRIP,
            ActionKind::Exec => word == WAIT,
            ActionKind::Noop => false,
        }
    }

    // Whether it takes so many words behind its options.
    pub(crate) fn takes(self, words: &[Word]) -> bool
        ensures { result ≡ takes self (length words.now) }
    {
        match self {
            ActionKind::File | ActionKind::StdioFile => words.len() == 1,
            ActionKind::Pipe | ActionKind::Exec => words.len() >= 1,
            ActionKind::Noop => words.is_empty(),
        }
    }
}

fn is_name(name: &[u8], field: &[u8]) -> bool
    ensures { result ≡ str_eq_ignore_ascii_case name.now field.now }
{
    name.eq_ignore_ascii_case(field)
}
