//! Laws of the effects: what follows from the definitions for all actions.
ghost use Rattle.std.specs.Prelude.{◌≡◌, ◌++◌, ◌≤◌, ℕ, List, [], length};
ghost use Rattle.ldm_outside.specs.Launcher.{LauncherRecord};
ghost use Rattle.ldm_outside.specs.Store.{StoreRecord};
ghost use Rattle.ldm_actions.specs.declared.answers.Begun.{Begun};
ghost use Rattle.ldm_actions.specs.declared.answers.Done.{Done};
ghost use Rattle.ldm_actions.specs.declared.answers.Done.TheVariants as done;
ghost use Rattle.ldm_actions.specs.declared.options.PipeOptions.{PipeOptions};
ghost use Rattle.ldm_actions.specs.World.{World, command_of};
ghost use Rattle.ldm_actions.specs.Effects.{Action, InHand, ToProgram, begun, finished, given};
ghost use Rattle.ldm_actions.specs.Outputs.{Begins, Closes, Finishes, Gives, OpensFew, Standing, no_outputs, standing};

use crate::limits::MOST_PIPED;

/// It makes no difference in which pieces a body is given.
pub fn pieces_join()
    ensures { (hand : InHand) (first second : List ℕ) (world : World)
        → given hand (first ++ second) world ≡ given hand second (given hand first world) }
{}

/// Words that join alike are one command: the second of two such actions starts and ends no child.
pub fn one_child_for_one_command()
    ensures { (words others : List (List ℕ)) (options : PipeOptions) (world : World)
        → command_of others ≡ command_of words →
        (begun (ToProgram others options) (begun (ToProgram words options) world)).outside
        ≡ (begun (ToProgram words options) world).outside }
{}

/// At most 32 programs run under PIPE.
pub fn few_run_under_pipe()
    ensures begun { (action : Action) (world : World) → length world.piped ≤ MOST_PIPED
        → length (begun action world).piped ≤ MOST_PIPED }
    ensures given { (hand : InHand) (bytes : List ℕ) (world : World)
        → length (given hand bytes world).piped ≡ length world.piped }
    ensures finished { (hand : InHand) (world : World) → length (finished hand world).piped ≤ length world.piped }
{}

/// Where no file is open in the store at first, at most 32 are after each call, also after one that fails. They are
/// those that are kept, and none is open once all was closed.
pub fn few_files_are_open()
    ensures at_first { (store : StoreRecord) (launcher : LauncherRecord) → store.paths ≡ []
        → OpensFew (standing no_outputs store launcher) }
    ensures begun { (result : Begun) (action : Action) (old new : Standing) → Begins result action old new
        → OpensFew old → OpensFew new }
    ensures given { (result : Done) (bytes : List ℕ) (old new : Standing) → Gives result bytes old new
        → OpensFew old → OpensFew new }
    ensures finished { (result : Done) (old new : Standing) → Finishes result old new → OpensFew old → OpensFew new }
    ensures closed { (result : Done) (old new : Standing) → Closes result old new → OpensFew old → OpensFew new }
    ensures none_at_last { (old new : Standing) → Closes done.Ok old new → OpensFew old → new.store.paths ≡ [] }
{}
