//! Why a chain stops.
ghost use Rattle.std.specs.Prelude.{◌≡◌};

use crate::node::ChainEnd;
use crate::playing::PlayFault;
use ldm_command_files::ConfNotTaken;
use ldm_outside::SinkFailed;
use ldm_status::ScriptFault;
use ldm_types::OutOfMemory;

/// Why a chain stopped before all its text was written.
#[derive(Drop)]
pub enum ChainFault {
    /// No queue of a chain has an arena of so many bytes.
    BadArena { arena: u64 },
    /// No queue has so many slots.
    BadSlots { slots: u32 },
    /// The configuration was not taken.
    ConfNotTaken(ConfNotTaken),
    /// The script was not taken whole.
    ScriptFault(ScriptFault),
    /// The first line that is outside the grammar: its number, from 1, and the column of its first fault.
    BadLine { line: u64, column: u32 },
    /// Not each node was fed.
    NotFed(ChainEnd),
    /// The sink failed.
    SinkFault,
    /// There is no memory.
    OutOfMemory,
}

impl From<OutOfMemory> for ChainFault {
    ghost use Rattle.ldm_chain.specs.declared.fault.ChainFault.TheVariants as stop;

    ghost from_gives = { λ _ made. made ≡ stop.OutOfMemory };

    fn from(_error: OutOfMemory) -> ChainFault {
        ChainFault::OutOfMemory
    }
}

impl From<ScriptFault> for ChainFault {
    ghost use Rattle.ldm_chain.specs.declared.fault.ChainFault.TheVariants as stop;

    ghost from_gives = { λ why made. made ≡ stop.ScriptFault why };

    fn from(why: ScriptFault) -> ChainFault {
        ChainFault::ScriptFault(why)
    }
}

impl From<PlayFault> for ChainFault {
    ghost use Rattle.ldm_chain.specs.Faults.{unplayed};

    ghost from_gives = { λ why made. made ≡ unplayed why };

    fn from(why: PlayFault) -> ChainFault {
        match why {
            PlayFault::BadLine { line, column } => ChainFault::BadLine { line, column },
            PlayFault::OutOfMemory => ChainFault::OutOfMemory,
        }
    }
}

impl From<SinkFailed> for ChainFault {
    ghost use Rattle.ldm_chain.specs.declared.fault.ChainFault.TheVariants as stop;

    ghost from_gives = { λ _ made. made ≡ stop.SinkFault };

    fn from(_failed: SinkFailed) -> ChainFault {
        ChainFault::SinkFault
    }
}
