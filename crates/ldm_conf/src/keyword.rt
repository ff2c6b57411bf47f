//! Keywords.
ghost use Rattle.std.specs.Prelude.{◌≡◌};
ghost use Rattle.std.specs.Str.{str_eq_ignore_ascii_case};
ghost use Rattle.ldm_conf.specs.Keywords.{keyword_name, keyword_of};

/// What a line begins with.
#[derive(Clone, Copy, Debug, PartialEq, Eq)]
pub enum Keyword {
    Allow,
    Accept,
    Request,
    Exec,
    Include,
}

impl Keyword {
    const ALL: [Keyword; 5] = [
        Keyword::Allow,
        Keyword::Accept,
        Keyword::Request,
        Keyword::Exec,
        Keyword::Include,
    ];

    /// Its name, in upper case.
    pub fn name(self) -> &'static [u8]
        ensures { result.now ≡ keyword_name self }
    {
        match self {
            Keyword::Allow => b"ALLOW",
            Keyword::Accept => b"ACCEPT",
            Keyword::Request => b"REQUEST",
            Keyword::Exec => b"EXEC",
            Keyword::Include => b"INCLUDE",
        }
    }

    /// The keyword of that name, in letters of either case.
    #[tactic(auto, unfolding(crate::specs::Keywords::keyword_of))]
    pub fn of_name(word: &[u8]) -> Option<Keyword>
        ensures { result ≡ keyword_of word.now }
    {
        Keyword::ALL
            .iter()
            .copied()
            .find(|keyword| is_name(keyword.name(), word))
    }
}

/// Whether a word is that name, in letters of either case.
pub fn is_name(name: &[u8], word: &[u8]) -> bool
    ensures { result ≡ str_eq_ignore_ascii_case name.now word.now }
{
    name.eq_ignore_ascii_case(word)
}
