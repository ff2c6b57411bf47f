//! Programs that are started, fed and waited for.
ghost use Rattle.std.specs.Prelude.{◌≡◌, ◌≤◌, ◌<◌, length};
ghost use Rattle.ldm_outside.specs.Launcher.{LauncherRecord};

use crate::fault::Failed;
use crate::io::Put;

/// A child that a launcher started: how many it had started before. No number comes twice.
#[derive(Clone, Copy, Debug, PartialEq, Eq)]
pub struct ChildNo(pub usize);

/// Starts programs, its children.
///
/// A call that answers `Failed` changed nothing but the count of faults: no child was started, a write took nothing, an
/// input that was not to be shut is not shut, a child was not waited for, and the caller may try again.
pub trait Launcher {
    ghost use Rattle.ldm_outside.specs.Launcher.{StartsChild, IsTaking, FeedsChild, ShutsInput};
    ghost use Rattle.ldm_outside.specs.Launcher.{IsNotWaitedFor, WaitsForChild, DetachesChild};

    /// What it tells: the children that were neither waited for nor detached, with their numbers, and the number that
    /// comes next; how often it failed; and all children that it ever started, each with the bytes that it was given,
    /// if it tells these. The count stands still at the end of `u64`.
    ghost tells: { Self → LauncherRecord };

    /// Starts the program that the first word names, with the words behind it. Only a child that is piped can be
    /// written to.
    fn start(&mut self, words: &[String], piped: bool) -> Result<ChildNo, Failed>
        requires { 0 < length words.now }
        ensures started { StartsChild result words.now piped (tells self.old) (tells self.new) }
        ensures faults_kept { (tells self.old).faults ≤ (tells self.new).faults };

    /// Writes some bytes from the front of the piece to the child's input: what is left of it is the caller's to write.
    fn write(&mut self, child: ChildNo, piece: &[u8]) -> Put
        requires { IsTaking child (tells self.old) }
        ensures fed { FeedsChild result child piece.now (tells self.old) (tells self.new) }
        ensures faults_kept { (tells self.old).faults ≤ (tells self.new).faults }
        ensures running_kept { (tells self.new).running ≡ (tells self.old).running };

    /// Shuts the child's input.
    fn shut(&mut self, child: ChildNo) -> Result<(), Failed>
        requires { IsTaking child (tells self.old) }
        ensures shut { ShutsInput result child (tells self.old) (tells self.new) }
        ensures faults_kept { (tells self.old).faults ≤ (tells self.new).faults };

    /// Waits until the child ends, and answers its status.
    fn wait(&mut self, child: ChildNo) -> Result<u32, Failed>
        requires { IsNotWaitedFor child (tells self.old) }
        ensures waited { WaitsForChild result child (tells self.old) (tells self.new) }
        ensures faults_kept { (tells self.old).faults ≤ (tells self.new).faults };

    /// Lets the child run on alone: it cannot be written to or waited for any more, and nothing is kept of it. Its
    /// input is closed, as by `wait`.
    fn detach(&mut self, child: ChildNo)
        requires { IsNotWaitedFor child (tells self.old) }
        ensures detached { DetachesChild child (tells self.old) (tells self.new) };
}
