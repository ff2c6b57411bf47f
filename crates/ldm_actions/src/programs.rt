//! Programs that run under PIPE.
ghost use Rattle.std.specs.Prelude.{◌≡◌, IfSome, None};
ghost use Rattle.ldm_outside.specs.Launcher.{IsTaking};
ghost use Rattle.ldm_actions.specs.Effects.{Child, closed, finished_by, with_first_over};
ghost use Rattle.ldm_actions.specs.Kept.{number_under};
ghost use Rattle.ldm_actions.specs.Parts.{finish_parts_by};
ghost use Rattle.ldm_actions.specs.Programs.{BeginsProgram, ChangesOr, EndsChild, EndsGone, KeepsPrograms, StartsAfter};
ghost use Rattle.ldm_actions.specs.Programs.{closing_parts, first_parts, last_parts, program_side, with_last_over};
ghost use Rattle.ldm_actions.specs.World.{child_no, command_of};

use crate::answers::Begun;
use crate::program::Program;
use crate::recent::Recent;
use ldm_outside::{ChildNo, Failed, Launcher};

// Shuts the input of a child, and waits for it.
fn end<L: Launcher>(launcher: &mut L, child: ChildNo) -> Result<(), Failed>
    requires { IsTaking child (L.tells launcher.old) }
    ensures { EndsChild result child (L.tells launcher.old) (L.tells launcher.new) }
{
    launcher.shut(child)?;
    launcher.wait(child)?;
    Ok(())
}

// Ends the program that was written longest ago, if there is one.
fn end_oldest<L: Launcher>(programs: &mut Recent, launcher: &mut L) -> Result<(), Failed>
    requires { KeepsPrograms (program_side programs.old (L.tells launcher.old)) }
    ensures { ChangesOr result with_last_over last_parts
        (program_side programs.old (L.tells launcher.old))
        (program_side programs.new (L.tells launcher.new)) }
{
    match programs.take_oldest() {
        Some(number) => end(launcher, ChildNo(number)),
        None => Ok(()),
    }
}

// Ends the program that was written last, if there is one.
fn end_newest<L: Launcher>(programs: &mut Recent, launcher: &mut L) -> Result<(), Failed>
    requires { KeepsPrograms (program_side programs.old (L.tells launcher.old)) }
    ensures { ChangesOr result with_first_over first_parts
        (program_side programs.old (L.tells launcher.old))
        (program_side programs.new (L.tells launcher.new)) }
{
    match programs.take_newest() {
        Some(number) => end(launcher, ChildNo(number)),
        None => Ok(()),
    }
}

// Ends the program of that number, if there is one.
fn end_gone<L: Launcher>(launcher: &mut L, gone: Option<usize>) -> Result<(), Failed>
    requires { IfSome gone (λ number. IsTaking (child_no number) (L.tells launcher.old)) }
    ensures { EndsGone gone result (L.tells launcher.old) (L.tells launcher.new) }
{
    match gone {
        Some(number) => end(launcher, ChildNo(number)),
        None => Ok(()),
    }
}

// Starts a program, after the program of that number was ended, if there is one.
fn start<L: Launcher>(
    launcher: &mut L,
    gone: Option<usize>,
    program: &Program,
) -> Result<ChildNo, Failed>
    requires { IfSome gone (λ number. IsTaking (child_no number) (L.tells launcher.old)) }
    ensures { StartsAfter result gone program.now (L.tells launcher.old) (L.tells launcher.new) }
{
    end_gone(launcher, gone)?;
    program.start(launcher, true)
}

// Starts a program under a command that is not kept. Its entry is there before the first call, so want of memory starts
// no program and ends none.
fn use_new<L: Launcher>(
    programs: &mut Recent,
    launcher: &mut L,
    program: &Program,
    command: &str,
) -> Begun
    requires keeps { KeepsPrograms (program_side programs.old (L.tells launcher.old)) }
    requires its_own { command.now ≡ command_of program.now }
    requires unknown { number_under command.now programs.old ≡ None }
    ensures { BeginsProgram result program.now
        (program_side programs.old (L.tells launcher.old))
        (program_side programs.new (L.tells launcher.new)) }
{
    let Ok(gone) = programs.reserve(command) else {
        return Begun::OutOfMemory;
    };
    match start(launcher, gone, program) {
        Ok(child) => {
            programs.set_number(command, child.0);
            Begun::Ready
        }
        Err(Failed) => Begun::LaunchFault,
    }
}

// Has a program run under its command, as the one that was written last.
fn use_program<L: Launcher>(
    programs: &mut Recent,
    launcher: &mut L,
    program: &Program,
    command: &str,
) -> Begun
    requires keeps { KeepsPrograms (program_side programs.old (L.tells launcher.old)) }
    requires its_own { command.now ≡ command_of program.now }
    ensures { BeginsProgram result program.now
        (program_side programs.old (L.tells launcher.old))
        (program_side programs.new (L.tells launcher.new)) }
{
    if programs.raise(command) {
        return Begun::Ready;
    }
    use_new(programs, launcher, program, command)
}

/// Has a program run, as the one that was written last.
pub(crate) fn begin<L: Launcher>(
    programs: &mut Recent,
    launcher: &mut L,
    program: &Program,
) -> Begun
    requires { KeepsPrograms (program_side programs.old (L.tells launcher.old)) }
    ensures { BeginsProgram result program.now
        (program_side programs.old (L.tells launcher.old))
        (program_side programs.new (L.tells launcher.new)) }
{
    let Ok(command) = program.command(programs.alloc()) else {
        return Begun::OutOfMemory;
    };
    use_program(programs, launcher, program, command.as_str())
}

/// Ends the writing to the program that was written last.
pub(crate) fn finish<L: Launcher>(
    programs: &mut Recent,
    launcher: &mut L,
    close: bool,
) -> Result<(), Failed>
    requires { KeepsPrograms (program_side programs.old (L.tells launcher.old)) }
    ensures { ChangesOr result (finished_by Child close) (finish_parts_by Child close)
        (program_side programs.old (L.tells launcher.old))
        (program_side programs.new (L.tells launcher.new)) }
{
    if close {
        return end_newest(programs, launcher);
    }
    Ok(())
}

/// Ends all, from the one that was written longest ago to the one that was written last.
pub(crate) fn close_all<L: Launcher>(programs: &mut Recent, launcher: &mut L) -> Result<(), Failed>
    requires { KeepsPrograms (program_side programs.old (L.tells launcher.old)) }
    ensures { ChangesOr result closed closing_parts
        (program_side programs.old (L.tells launcher.old))
        (program_side programs.new (L.tells launcher.new)) }
{
    while programs.len() > 0 {
        end_oldest(programs, launcher)?;
    }
    Ok(())
}
