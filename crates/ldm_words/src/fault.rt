//! Why words are not read.

use clap::error::ErrorKind;
use ldm_class::ClassFault;
use std::alloc::{AllocError, AllocFailed};
use thiserror::Error;

/// Why words are not read.
#[derive(Clone, Copy, Debug, PartialEq, Eq, Error)]
pub enum WordsFault {
    /// The words are no form of the command: `clap` refuses them, or a value is outside its bounds or does not read.
    #[error("the words are no form of the command")]
    Usage,
    /// There is too little memory, or a pattern would take more than `regex` allows one.
    #[error("no memory")]
    OutOfMemory,
}

impl From<AllocError> for WordsFault {
    ghost use Rattle.std.specs.Prelude.{◌≡◌};
    ghost use Rattle.ldm_words.specs.declared.fault.WordsFault.TheVariants.{OutOfMemory};

    ghost from_gives = { λ _ fault. fault ≡ OutOfMemory };

    fn from(_error: AllocError) -> WordsFault {
        WordsFault::OutOfMemory
    }
}

impl<T: Drop> From<AllocFailed<T>> for WordsFault {
    ghost use Rattle.std.specs.Prelude.{◌≡◌};
    ghost use Rattle.ldm_words.specs.declared.fault.WordsFault.TheVariants.{OutOfMemory};

    ghost from_gives = { λ _ fault. fault ≡ OutOfMemory };

    fn from(_error: AllocFailed<T>) -> WordsFault {
        WordsFault::OutOfMemory
    }
}

impl From<ErrorKind> for WordsFault {
    ghost use Rattle.std.specs.Prelude.{◌≡◌};
    ghost use Rattle.ldm_words.specs.Faults.{fault_of_kind};

    ghost from_gives = { λ kind fault. fault ≡ fault_of_kind kind };

    fn from(kind: ErrorKind) -> WordsFault {
        match kind {
            ErrorKind::OutOfMemory => WordsFault::OutOfMemory,
            _ => WordsFault::Usage,
        }
    }
}

impl From<ClassFault> for WordsFault {
    ghost use Rattle.std.specs.Prelude.{◌≡◌};
    ghost use Rattle.ldm_words.specs.Faults.{fault_of_class};

    ghost from_gives = { λ error fault. fault ≡ fault_of_class error };

    fn from(fault: ClassFault) -> WordsFault {
        match fault {
            ClassFault::BadPattern { .. } => WordsFault::Usage,
            ClassFault::OutOfMemory => WordsFault::OutOfMemory,
        }
    }
}
