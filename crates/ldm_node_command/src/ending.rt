//! How a node ends.

use crate::commands::StartFault;
use crate::listening::ListenFault;
use crate::restoring::RestoreFault;
use ldm_command_files::ConfNotTaken;
use ldm_node::NodeStop;
use ldm_outside::{Failed, SinkFailed};
use ldm_recorder::RecordEnd;
use ldm_shared::CreateFault;

/// Why a node was not run.
#[derive(Clone, Copy, Debug, PartialEq, Eq)]
pub enum NodeFault {
    /// No configuration was taken.
    NotTaken(ConfNotTaken),
    /// No queue was made.
    NotMade(CreateFault),
    /// What the journal of the queue kept was not put back.
    NotRestored(RestoreFault),
    /// The net gave no stations.
    NotListening(ListenFault),
    /// The commands were not all started.
    NotStarted(StartFault),
}

/// What came of a node that was run.
#[derive(Clone, Copy, Debug, PartialEq, Eq)]
pub struct Ran {
    /// Why it stopped.
    pub stop: NodeStop,
    /// How recording ended, where it kept a journal.
    pub recorded: Option<RecordEnd>,
    /// Whether each command was waited for.
    pub waited: Result<(), Failed>,
    /// Whether the line of the queue was written whole.
    pub written: Result<(), SinkFailed>,
}

impl From<ConfNotTaken> for NodeFault {
    ghost use Rattle.std.specs.Prelude.{◌≡◌};
    ghost use Rattle.ldm_node_command.specs.declared.ending.NodeFault.TheVariants as fault;

    ghost from_gives = { λ why made. made ≡ fault.NotTaken why };

    fn from(why: ConfNotTaken) -> NodeFault {
        NodeFault::NotTaken(why)
    }
}

impl From<CreateFault> for NodeFault {
    ghost use Rattle.std.specs.Prelude.{◌≡◌};
    ghost use Rattle.ldm_node_command.specs.declared.ending.NodeFault.TheVariants as fault;

    ghost from_gives = { λ why made. made ≡ fault.NotMade why };

    fn from(why: CreateFault) -> NodeFault {
        NodeFault::NotMade(why)
    }
}

impl From<RestoreFault> for NodeFault {
    ghost use Rattle.std.specs.Prelude.{◌≡◌};
    ghost use Rattle.ldm_node_command.specs.declared.ending.NodeFault.TheVariants as fault;

    ghost from_gives = { λ why made. made ≡ fault.NotRestored why };

    fn from(why: RestoreFault) -> NodeFault {
        NodeFault::NotRestored(why)
    }
}

impl From<ListenFault> for NodeFault {
    ghost use Rattle.std.specs.Prelude.{◌≡◌};
    ghost use Rattle.ldm_node_command.specs.declared.ending.NodeFault.TheVariants as fault;

    ghost from_gives = { λ why made. made ≡ fault.NotListening why };

    fn from(why: ListenFault) -> NodeFault {
        NodeFault::NotListening(why)
    }
}
