//! The commands of a configuration: they are started, and waited for.
ghost use Rattle.std.specs.Prelude.{◌≡◌, ◌≤◌, map, Some, IfOk, IfErr, OnOk};
ghost use Rattle.ldm_conf.specs.Confs.{command_view};
ghost use Rattle.ldm_node_command.specs.declared.progress.Step.TheVariants as step;
ghost use Rattle.ldm_node_command.specs.Commands.{AllRun, StopsStarting, WaitsForAll, numbers_from, with_commands};

use crate::progress::{Step, Steps};
use ldm_conf::Command;
use ldm_outside::{ChildNo, Failed, Launcher};
use std::alloc::{AllocError, Global};

/// Why the commands were not all started.
#[derive(Clone, Copy, Debug, PartialEq, Eq)]
pub enum StartFault {
    /// One could not be started.
    Failed,
    /// There is no memory to keep their numbers, and none was started.
    OutOfMemory,
}

impl From<Failed> for StartFault {
    ghost use Rattle.std.specs.Prelude.{◌≡◌};
    ghost use Rattle.ldm_node_command.specs.declared.commands.StartFault.TheVariants as start;

    ghost from_gives = { λ _ made. made ≡ start.Failed };

    fn from(_failed: Failed) -> StartFault {
        StartFault::Failed
    }
}

impl From<AllocError> for StartFault {
    ghost use Rattle.std.specs.Prelude.{◌≡◌};
    ghost use Rattle.ldm_node_command.specs.declared.commands.StartFault.TheVariants as start;

    ghost from_gives = { λ _ made. made ≡ start.OutOfMemory };

    fn from(_error: AllocError) -> StartFault {
        StartFault::OutOfMemory
    }
}

/// Starts commands in order, without a pipe, and answers their numbers. At the first that fails it stops: those before
/// it run on. The net listens by then.
pub(crate) fn start_commands<L: Launcher>(
    alloc: Global,
    launcher: &mut L,
    commands: &[Command],
    steps: &mut Steps,
) -> Result<Vec<ChildNo>, StartFault>
    requires before { steps.old ≡ Some step.Listening }
    ensures numbers { IfOk result
        (λ children. children.items ≡ numbers_from (L.tells launcher.old).next (map command_view commands.now)) }
    ensures started { IfOk result
        (λ _. L.tells launcher.new ≡ with_commands (map command_view commands.now) (L.tells launcher.old)) }
    ensures running { IfOk result (λ children. AllRun children.items (L.tells launcher.new)) }
    ensures noted { OnOk result (steps.new ≡ Some step.Programs) }
    ensures stopped { IfErr result
        (λ why. StopsStarting why (map command_view commands.now) (L.tells launcher.old) (L.tells launcher.new)) }
    ensures faults_kept { (L.tells launcher.old).faults ≤ (L.tells launcher.new).faults }
{
    let mut children = Vec::with_capacity(alloc, commands.len())?;
    for command in commands {
        children.push_reserved(launcher.start(command.words.as_slice(), false)?);
    }
    steps.make(Step::Programs);
    Ok(children)
}

/// Waits for children in order, until all have ended or the first wait fails. All workers have stopped by then, and the
/// net keeps their stations.
pub(crate) fn wait_for_commands<L: Launcher>(
    launcher: &mut L,
    children: &[ChildNo],
    steps: &mut Steps,
) -> Result<(), Failed>
    requires before { steps.old ≡ Some step.Keeping }
    requires running { AllRun children.now (L.tells launcher.old) }
    ensures waits { WaitsForAll result children.now (L.tells launcher.old) (L.tells launcher.new) }
    ensures noted { steps.new ≡ Some step.Waiting }
    ensures faults_kept { (L.tells launcher.old).faults ≤ (L.tells launcher.new).faults }
{
    steps.make(Step::Waiting);
    for child in children {
        launcher.wait(*child)?;
    }
    Ok(())
}
