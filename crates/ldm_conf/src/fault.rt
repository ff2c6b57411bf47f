//! Why files are no configuration.
ghost use Rattle.std.specs.Prelude.{◌≡◌};
ghost use Rattle.ldm_conf.specs.Causes.{kind_number};

use ldm_class::{ClassFault, PolicyFault};
use std::alloc::{AllocError, AllocFailed};
use thiserror::Error;

/// What is wrong with a line. A line that is wrong in several ways has the first of these kinds, but that the path of
/// an INCLUDE line is looked at before `Depth`.
#[derive(Clone, Copy, Debug, PartialEq, Eq, Error)]
pub enum ConfKind {
    /// The first word is no keyword.
    #[error("its first word is no keyword")]
    Keyword,
    /// There are too few or too many words, a quote is left open, a quoted word is followed by anything but a blank, a
    /// tab or the line's end, or a word has not the form that it needs: a pattern of REQUEST of at most 255 bytes, a
    /// host of 1 to 255 bytes, a port from 1 to 65,535, PRIMARY or ALTERNATE, a command that is UTF-8 and has a part, a
    /// path that is UTF-8.
    #[error("its words do not read")]
    Fields,
    /// The feedtype is no feed expression.
    #[error("its feedtype does not read")]
    Feed,
    /// A pattern is not UTF-8, the grammar of `regex` reads no pattern in it, or it nests too deep.
    #[error("a pattern is no pattern")]
    Pattern,
    /// The file to include would be one too deep, or one too many.
    #[error("too deep or too many files")]
    Depth,
    /// The file to include could not be read.
    #[error("the file cannot be read")]
    Store,
    /// The file has more than [`LONGEST_CONFIGURATION`](ldm_text::LONGEST_CONFIGURATION) bytes.
    #[error("the file is too long")]
    Long,
    /// There is too little memory, or a pattern would take more than `regex` allows one.
    #[error("no memory")]
    OutOfMemory,
}

impl ConfKind {
    /// The number of the kind, from 1, as log lines tell it.
    pub fn number(self) -> u8
        ensures { result ≡ kind_number self }
    {
        match self {
            ConfKind::Keyword => 1,
            ConfKind::Fields => 2,
            ConfKind::Feed => 3,
            ConfKind::Pattern => 4,
            ConfKind::Depth => 5,
            ConfKind::Store => 6,
            ConfKind::Long => 7,
            ConfKind::OutOfMemory => 8,
        }
    }
}

impl From<AllocError> for ConfKind {
    ghost use Rattle.std.specs.Prelude.{◌≡◌};
    ghost use Rattle.ldm_conf.specs.declared.fault.ConfKind.TheVariants.{OutOfMemory};

    ghost from_gives = { λ _ kind. kind ≡ OutOfMemory };

    fn from(_error: AllocError) -> ConfKind {
        ConfKind::OutOfMemory
    }
}

impl<T: Drop> From<AllocFailed<T>> for ConfKind {
    ghost use Rattle.std.specs.Prelude.{◌≡◌};
    ghost use Rattle.ldm_conf.specs.declared.fault.ConfKind.TheVariants.{OutOfMemory};

    ghost from_gives = { λ _ kind. kind ≡ OutOfMemory };

    fn from(_error: AllocFailed<T>) -> ConfKind {
        ConfKind::OutOfMemory
    }
}

impl From<PolicyFault> for ConfKind {
    ghost use Rattle.std.specs.Prelude.{◌≡◌};
    ghost use Rattle.ldm_conf.specs.Origins.{kind_of_policy};

    ghost from_gives = { λ fault kind. kind ≡ kind_of_policy fault };

    fn from(fault: PolicyFault) -> ConfKind {
        match fault {
            PolicyFault::BadPattern { .. } => ConfKind::Pattern,
            PolicyFault::OutOfMemory => ConfKind::OutOfMemory,
        }
    }
}

impl From<ClassFault> for ConfKind {
    ghost use Rattle.std.specs.Prelude.{◌≡◌};
    ghost use Rattle.ldm_conf.specs.Origins.{kind_of_class};

    ghost from_gives = { λ fault kind. kind ≡ kind_of_class fault };

    fn from(fault: ClassFault) -> ConfKind {
        match fault {
            ClassFault::BadPattern { .. } => ConfKind::Pattern,
            ClassFault::OutOfMemory => ConfKind::OutOfMemory,
        }
    }
}

/// The first faulty line, in the order in which lines are read.
#[derive(Clone, Copy, Debug, PartialEq, Eq, Error)]
#[error("file {file}, line {line}: {kind}")]
pub struct ConfFault {
    /// The number of the file in the order in which files are read. The first file is 0.
    pub file: u32,
    /// The number of the line in its file, from 1. It is 0 where the first file is too long, or there is no memory to
    /// begin.
    pub line: u32,
    pub kind: ConfKind,
}
