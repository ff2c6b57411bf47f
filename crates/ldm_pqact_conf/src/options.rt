//! Options of actions.
ghost use Rattle.std.specs.Prelude.{◌≡◌, bytes_eq};
ghost use Rattle.std.specs.List.{list_any};
ghost use Rattle.ldm_pqact_conf.specs.Actions.{options_in};

use crate::words::Word;

pub(crate) const OVERWRITE: &[u8] = b"-overwrite";

pub(crate) const CLOSE: &[u8] = b"-close";

pub(crate) const FLUSH: &[u8] = b"-flush";

pub(crate) const STRIP: &[u8] = b"-strip";

pub(crate) const WAIT: &[u8] = b"-wait";

/// The options that an entry names. Those that its action does not have are never set.
#[derive(Clone, Copy, Debug, Default, PartialEq, Eq)]
pub struct Options {
    /// The file is emptied before the body is written.
    pub overwrite: bool,
    /// The output is shut after the body.
    pub close: bool,
    /// The output is flushed after the body.
    pub flush: bool,
    /// Control characters, but for newlines, and bytes above 126 are dropped from the body.
    pub strip: bool,
    /// The program is waited for.
    pub wait: bool,
}

impl Options {
    // Those that are among the words.
    pub(crate) fn named_in(words: &[Word]) -> Options
        ensures { result ≡ options_in words.now }
    {
        Options {
            overwrite: is_among(words, OVERWRITE),
            close: is_among(words, CLOSE),
            flush: is_among(words, FLUSH),
            strip: is_among(words, STRIP),
            wait: is_among(words, WAIT),
        }
    }
}

fn is_among(words: &[Word], option: &[u8]) -> bool
    ensures { result ≡ list_any (bytes_eq option.now) words.now }
{
    words.iter().any(|word| option == word.bytes())
}
