//! Why a journal could not be opened or read.

use std::alloc::AllocError;

/// Why a journal could not be opened or read. A file that is refused stays as it is.
#[derive(Clone, Copy, Debug, PartialEq, Eq)]
pub enum JournalFault {
    /// The file does not begin as a journal does.
    NotAJournal,
    /// The journal has a ring of another size.
    OtherRing,
    /// The file has another length than a journal with that ring: perhaps it was not made whole.
    OtherLength,
    /// The head that counts is out of order.
    BadHead,
    /// A record cannot be read, its sum does not hold, or its number does not rise.
    BadRecord,
    /// The disk failed, and its count of faults rose.
    DiskFault,
    /// There is too little memory.
    OutOfMemory,
}

impl From<AllocError> for JournalFault {
    ghost use Rattle.std.specs.Prelude.{◌≡◌};
    ghost use Rattle.ldm_journal.specs.declared.fault.JournalFault.TheVariants as fault;

    ghost from_gives = { λ _ made. made ≡ fault.OutOfMemory };

    fn from(_error: AllocError) -> JournalFault {
        JournalFault::OutOfMemory
    }
}
