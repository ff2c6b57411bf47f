//! What a line of an ldmd.conf says.
ghost use Rattle.std.specs.Prelude.{◌≡◌, IfOk};
ghost use Rattle.ldm_conf.specs.Statements.{meaning_of};
ghost use Rattle.ldm_check.specs.Says.{IsFirstWord, said_view, says};

use ldm_conf::{Conf, ConfKind, ConfLine, read_conf_line};
use ldm_text::{Comments, first_word, to_word};
use ldm_types::OutOfMemory;
use std::alloc::Global;

/// What a line says to who looks for faults.
#[derive(Drop)]
pub(crate) enum Said<'a> {
    /// Nothing is wrong with it. This is the configuration that it alone means.
    Fine(Conf),
    /// That is wrong with it.
    Faulty(ConfKind),
    /// The lines of the file under that path stand here.
    Includes(&'a str),
}

/// Looks at a line, by what it means by itself.
pub(crate) fn look_at(alloc: Global, line: &[u8]) -> Result<Said<'_>, OutOfMemory>
    ensures { IfOk result (λ said. said_view said ≡ says (meaning_of line.entry.now)) }
{
    match read_conf_line(alloc, line) {
        Ok(ConfLine::Conf(conf)) => Ok(Said::Fine(conf)),
        Ok(ConfLine::Includes(path)) => Ok(Said::Includes(path)),
        Err(ConfKind::OutOfMemory) => Err(OutOfMemory),
        Err(kind) => Ok(Said::Faulty(kind)),
    }
}

/// The first word of a text without its quotes, and what stands behind it. None comes where there is no word, or where
/// a quote of it is wrong.
pub(crate) fn take_word(text: &[u8]) -> Option<(&[u8], &[u8])>
    ensures { IsFirstWord result text.entry.now }
{
    let rest = to_word(Comments::Hash, text);
    if rest.is_empty() {
        return None;
    }
    first_word(Comments::Hash, rest)
}
