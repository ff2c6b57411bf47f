//! Why a text is no pqact.conf.
ghost use Rattle.std.specs.Prelude.{◌≡◌};
ghost use Rattle.ldm_pqact_conf.specs.Causes.{kind_number};

use std::alloc::{AllocError, AllocFailed};
use thiserror::Error;

/// What is wrong with an entry. An entry that is wrong in several ways has the first of these kinds, but that a wrong
/// number of words is found last.
#[derive(Clone, Copy, Debug, PartialEq, Eq, Error)]
pub enum PqactKind {
    /// A field is missing, a quote is left open, a quoted word is followed by anything but a blank, a tab or the end,
    /// the action takes another number of words, or a line begins with a tab and no entry is before it.
    #[error("its fields do not read")]
    Fields,
    /// The feedtype is no feed expression.
    #[error("its feedtype does not read")]
    Feed,
    /// The pattern is not UTF-8, the grammar of `regex` reads no pattern in it, or it nests too deep.
    #[error("its pattern is no pattern")]
    Pattern,
    /// There is no such action.
    #[error("there is no such action")]
    Action,
    /// The action has no such option.
    #[error("its action has no such option")]
    Option,
    /// There is too little memory, or a pattern would take more than `regex` allows one.
    #[error("no memory")]
    OutOfMemory,
}

impl PqactKind {
    /// The number of the kind, from 1, as log lines tell it.
    pub fn number(self) -> u8
        ensures { result ≡ kind_number self }
    {
        match self {
            PqactKind::Fields => 1,
            PqactKind::Feed => 2,
            PqactKind::Pattern => 3,
            PqactKind::Action => 4,
            PqactKind::Option => 5,
            PqactKind::OutOfMemory => 6,
        }
    }
}

impl From<AllocError> for PqactKind {
    ghost use Rattle.std.specs.Prelude.{◌≡◌};
    ghost use Rattle.ldm_pqact_conf.specs.declared.fault.PqactKind.TheVariants.{OutOfMemory};

    ghost from_gives = { λ _ kind. kind ≡ OutOfMemory };

    fn from(_error: AllocError) -> PqactKind {
        PqactKind::OutOfMemory
    }
}

impl<T: Drop> From<AllocFailed<T>> for PqactKind {
    ghost use Rattle.std.specs.Prelude.{◌≡◌};
    ghost use Rattle.ldm_pqact_conf.specs.declared.fault.PqactKind.TheVariants.{OutOfMemory};

    ghost from_gives = { λ _ kind. kind ≡ OutOfMemory };

    fn from(_error: AllocFailed<T>) -> PqactKind {
        PqactKind::OutOfMemory
    }
}

/// The first faulty entry.
#[derive(Clone, Copy, Debug, PartialEq, Eq, Error)]
#[error("line {line}: {kind}")]
pub struct PqactFault {
    /// The first line of the entry, or the line that begins with a tab and has no entry before it. The first line is 1.
    pub line: u32,
    pub kind: PqactKind,
}
