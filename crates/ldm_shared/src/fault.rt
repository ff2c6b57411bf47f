//! Why no shared queue was made.
ghost use Rattle.std.specs.Prelude.{◌≡◌};

use std::alloc::AllocError;

/// Why no shared queue was made. The faults are tested in this order.
#[derive(Clone, Copy, Debug, PartialEq, Eq)]
pub enum CreateFault {
    /// The arena is not a multiple of 8, below 64 bytes, or above 1,073,741,824 bytes.
    BadArena { arena: u64 },
    /// There are 0 slots, or more than 1,048,576.
    BadSlots { slots: u32 },
    /// There are 0 passes, or more than 64.
    BadPasses { passes: u32 },
    /// There is no memory for the queue.
    OutOfMemory,
}

impl From<AllocError> for CreateFault {
    ghost use Rattle.std.specs.Prelude.{◌≡◌};
    ghost use Rattle.ldm_shared.specs.declared.fault.CreateFault.TheVariants as fault;

    ghost from_gives = { λ _ made. made ≡ fault.OutOfMemory };

    fn from(_error: AllocError) -> CreateFault {
        CreateFault::OutOfMemory
    }
}
