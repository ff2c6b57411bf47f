//! Why no queue was made.

use ldm_types::OutOfMemory;
use std::alloc::AllocError;

/// Why no queue was made. The faults are tested in this order.
#[derive(Clone, Copy, Debug, PartialEq, Eq)]
pub enum CreateFault {
    /// The arena is not a multiple of 8, below 64 bytes, or above 1,073,741,824 bytes.
    BadArena { arena: u64 },
    /// There are 0 slots, or more than 1,048,576.
    BadSlots { slots: u32 },
    /// There is no memory for the tables.
    OutOfMemory,
}

impl From<OutOfMemory> for CreateFault {
    ghost use Rattle.std.specs.Prelude.{◌≡◌};
    ghost use Rattle.ldm_book.specs.declared.fault.CreateFault.TheVariants as fault;

    ghost from_gives = { λ _ made. made ≡ fault.OutOfMemory };

    fn from(_error: OutOfMemory) -> CreateFault {
        CreateFault::OutOfMemory
    }
}

impl From<AllocError> for CreateFault {
    ghost use Rattle.std.specs.Prelude.{◌≡◌};
    ghost use Rattle.ldm_book.specs.declared.fault.CreateFault.TheVariants as fault;

    ghost from_gives = { λ _ made. made ≡ fault.OutOfMemory };

    fn from(_error: AllocError) -> CreateFault {
        CreateFault::OutOfMemory
    }
}

/// What keeps a row from being restored: the first of these that it has.
#[derive(Clone, Copy, Debug, PartialEq, Eq)]
pub enum RowFault {
    /// There are as many rows before it as there are slots.
    Surplus,
    /// Its number is not below the number of admitted products, or not above that of the row before it.
    Number,
    /// Its time is above the last, or not above that of the row before it, or not the last although the product was
    /// admitted last.
    Time,
    /// Its place is not a multiple of 8, or no metadata are spelled there, or the body behind them ends outside the
    /// arena, or an earlier row has a part of its region, or its signature.
    Place,
}

/// Why no queue was restored. The faults are tested in this order.
#[derive(Clone, Copy, Debug, PartialEq, Eq)]
pub enum RestoreFault {
    /// The arena is not a multiple of 8, below 64 bytes, or above 1,073,741,824 bytes.
    BadArena { arena: u64 },
    /// There are 0 slots, or more than 1,048,576.
    BadSlots { slots: u32 },
    /// There is no last insertion time although products were admitted; or there is one, and no product was admitted,
    /// or more than the last insertion time plus one.
    BadCount,
    /// The first row that no queue has behind those before it, by its index.
    BadRow { i: u32, fault: RowFault },
    /// There is no memory for the tables.
    OutOfMemory,
}

impl From<CreateFault> for RestoreFault {
    ghost use Rattle.std.specs.Prelude.{◌≡◌};
    ghost use Rattle.ldm_book.specs.Faults.{restore_fault};

    ghost from_gives = { λ error made. made ≡ restore_fault error };

    fn from(error: CreateFault) -> RestoreFault {
        match error {
            CreateFault::BadArena { arena } => RestoreFault::BadArena { arena },
            CreateFault::BadSlots { slots } => RestoreFault::BadSlots { slots },
            CreateFault::OutOfMemory => RestoreFault::OutOfMemory,
        }
    }
}

impl From<OutOfMemory> for RestoreFault {
    ghost use Rattle.std.specs.Prelude.{◌≡◌};
    ghost use Rattle.ldm_book.specs.declared.fault.RestoreFault.TheVariants as fault;

    ghost from_gives = { λ _ made. made ≡ fault.OutOfMemory };

    fn from(_error: OutOfMemory) -> RestoreFault {
        RestoreFault::OutOfMemory
    }
}
