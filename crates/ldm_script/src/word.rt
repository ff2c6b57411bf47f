//! The words of script lines.
ghost use Rattle.std.specs.Prelude.{◌≡◌, ◌≤◌, length};
ghost use Rattle.ldm_script.specs.Grammar.{word_text, word_of_text, start_word_text, start_word_of_text};

/// The second field of a script line: what the line asks for.
#[derive(Clone, Copy, Debug, PartialEq, Eq)]
pub enum LineWord {
    Insert,
    Open,
    Step,
    Read,
    Release,
    Close,
    Look,
    Expire,
    Tally,
    Stat,
    Reserve,
    Fill,
    Commit,
    Discard,
}

impl LineWord {
    const ALL: [LineWord; 14] = [
        LineWord::Insert,
        LineWord::Open,
        LineWord::Step,
        LineWord::Read,
        LineWord::Release,
        LineWord::Close,
        LineWord::Look,
        LineWord::Expire,
        LineWord::Tally,
        LineWord::Stat,
        LineWord::Reserve,
        LineWord::Fill,
        LineWord::Commit,
        LineWord::Discard,
    ];

    /// How the word is spelled.
    pub fn text(self) -> &'static [u8]
        ensures text { result.now ≡ word_text self }
        ensures short { length result.now ≤ 10 }
    {
        match self {
            LineWord::Insert => b"insert",
            LineWord::Open => b"open",
            LineWord::Step => b"step",
            LineWord::Read => b"read",
            LineWord::Release => b"release",
            LineWord::Close => b"close",
            LineWord::Look => b"look",
            LineWord::Expire => b"expire",
            LineWord::Tally => b"tally",
            LineWord::Stat => b"stat",
            LineWord::Reserve => b"reserve",
            LineWord::Fill => b"fill",
            LineWord::Commit => b"commit",
            LineWord::Discard => b"discard",
        }
    }

    /// The word that is spelled so.
    #[tactic(auto, unfolding(crate::specs::Grammar::word_of_text))]
    pub fn of_text(text: &[u8]) -> Option<LineWord>
        ensures { result ≡ word_of_text text.now }
    {
        LineWord::ALL
            .iter()
            .copied()
            .find(|word| word.text() == text)
    }
}

/// Where a cursor is asked to begin.
#[derive(Clone, Copy, Debug, PartialEq, Eq)]
pub enum StartWord {
    Oldest,
    Next,
    After,
    Sig,
}

impl StartWord {
    const ALL: [StartWord; 4] = [
        StartWord::Oldest,
        StartWord::Next,
        StartWord::After,
        StartWord::Sig,
    ];

    /// How the word is spelled.
    pub fn text(self) -> &'static [u8]
        ensures text { result.now ≡ start_word_text self }
        ensures short { length result.now ≤ 10 }
    {
        match self {
            StartWord::Oldest => b"oldest",
            StartWord::Next => b"next",
            StartWord::After => b"after",
            StartWord::Sig => b"sig",
        }
    }

    /// The word that is spelled so.
    #[tactic(auto, unfolding(crate::specs::Grammar::start_word_of_text))]
    pub fn of_text(text: &[u8]) -> Option<StartWord>
        ensures { result ≡ start_word_of_text text.now }
    {
        StartWord::ALL
            .iter()
            .copied()
            .find(|word| word.text() == text)
    }
}
