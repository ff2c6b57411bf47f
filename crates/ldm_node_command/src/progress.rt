//! The steps of a node, and how far it has come.
ghost use Rattle.std.specs.Prelude.{◌≡◌, ◌≤◌, Some, None};
ghost use Rattle.ldm_outside.specs.Reason.{IsReason};
ghost use Rattle.ldm_command_files.specs.ConfFiles.{CompletesConf, TakesConf};
ghost use Rattle.ldm_node_command.specs.Steps.{before};

use ldm_command_files::{ConfNotTaken, take_conf_because};
use ldm_conf::Conf;
use ldm_outside::{Reason, Store};
use std::alloc::Global;
use std::marker::Model;

/// A step of a node, in the order in which they are made.
#[derive(Clone, Copy, Debug, PartialEq, Eq)]
pub enum Step {
    /// The configuration is taken.
    Configuration,
    /// The queue is made.
    Queue,
    /// What the journal of the queue kept is put back, where there is one.
    Restoring,
    /// The net is asked for a station for each worker, whose doors listen.
    Listening,
    /// The programs of the configuration are started.
    Programs,
    /// The workers work until all have stopped.
    Workers,
    /// The net keeps the stations, and the desk of the journal.
    Keeping,
    /// The programs are waited for.
    Waiting,
    /// The line of the queue is written.
    Line,
}

/// How far a node has come, and what was wrong with its configuration: contracts see the last step that it made. All
/// before that were made, in their order, since a step is noted only behind the one before it.
#[derive(Debug, Drop)]
pub struct Steps {
    reached: Option<Step>,
    why: Reason,
}

impl Model for Steps {
    ghost use Rattle.std.specs.Prelude.{Option};
    ghost use Rattle.ldm_node_command.specs.declared.progress.Step.{Step};

    ghost Value = { Option Step };

    ghost view = { λ s. s.reached };
}

impl Steps {
    /// No step was made yet.
    pub fn new() -> Steps
        ensures { result ≡ None }
    {
        Steps {
            reached: None,
            why: Reason::new(),
        }
    }

    /// What was wrong with the configuration, as far as it is known.
    pub(crate) fn reason(&self) -> &[u8]
        ensures { IsReason result.now }
    {
        self.why.as_slice()
    }

    /// Takes the configuration under the path, before the first step.
    pub(crate) fn take_conf<F: Store>(
        &mut self,
        alloc: Global,
        store: &mut F,
        path: &str,
    ) -> Result<Conf, ConfNotTaken>
        ensures takes { TakesConf result path.now (F.tells store.old) (F.tells store.new) }
        ensures completes { CompletesConf result path.now (F.tells store.old) (F.tells store.new) }
        ensures faults_kept { (F.tells store.old).faults ≤ (F.tells store.new).faults }
        ensures long_kept { (F.tells store.old).long ≤ (F.tells store.new).long }
        ensures same { self.new ≡ self.old }
    {
        take_conf_because(alloc, store, path, &mut self.why)
    }

    /// Notes that a step is made, behind the one before it.
    pub(crate) fn make(&mut self, step: Step)
        requires { self.old ≡ before step }
        ensures { self.new ≡ Some step }
    {
        self.reached = Some(step);
    }
}
