//! What each call on outputs does to the files and programs that are kept.
ghost use Rattle.std.specs.Prelude.{◌≡◌};
ghost use Rattle.ldm_actions.specs.Hands.{action_of, seen_with};
ghost use Rattle.ldm_actions.specs.Outputs.{BeginsKept, ClosesKept, FinishesKept, GivesKept, IsOfKept, Keeps, kept_in};

use crate::action::Action;
use crate::answers::{Begun, Done};
use crate::hand::{Hand, Place};
use crate::recent::Recent;
use crate::stripping::{append_kept, feed_kept};
use crate::{open_files, programs};
use ldm_outside::{ChildNo, Failed, FileNo, Launcher, Store};

/// Begins an action: its file is open, or its program runs.
pub(crate) fn begin<F: Store, L: Launcher>(
    files: &mut Recent,
    piped: &mut Recent,
    store: &mut F,
    launcher: &mut L,
    action: &Action,
) -> Begun
    requires { Keeps (kept_in files.old piped.old (F.tells store.old) (L.tells launcher.old)) }
    ensures { BeginsKept result (action_of action.now)
        (kept_in files.old piped.old (F.tells store.old) (L.tells launcher.old))
        (kept_in files.new piped.new (F.tells store.new) (L.tells launcher.new)) }
{
    match action {
        Action::ToFile { path, options } => {
            open_files::begin(files, store, path.as_str(), *options)
        }
        Action::ToProgram { program, .. } => programs::begin(piped, launcher, program),
        Action::Start { program, wait } => match program.execute(launcher, *wait) {
            Ok(()) => Begun::Ready,
            Err(Failed) => Begun::LaunchFault,
        },
        Action::Nothing => Begun::Ready,
    }
}

/// Writes a piece to where the action in hand writes.
pub(crate) fn give<F: Store, L: Launcher>(
    files: &Recent,
    piped: &Recent,
    store: &mut F,
    launcher: &mut L,
    hand: Hand,
    bytes: &[u8],
) -> Done
    requires keeps { Keeps (kept_in files.now piped.now (F.tells store.old) (L.tells launcher.old)) }
    requires hand { IsOfKept (seen_with files.now hand).target files.now piped.now }
    ensures { GivesKept result (seen_with files.now hand) bytes.now
        (kept_in files.now piped.now (F.tells store.old) (L.tells launcher.old))
        (kept_in files.now piped.now (F.tells store.new) (L.tells launcher.new)) }
{
    match hand.place {
        Place::Nowhere => Done::Ok,
        Place::File => match append_kept(store, FileNo(files.newest()), hand.strip, bytes) {
            Ok(()) => Done::Ok,
            Err(Failed) => Done::StoreFault,
        },
        Place::Child => match feed_kept(launcher, ChildNo(piped.newest()), hand.strip, bytes) {
            Ok(()) => Done::Ok,
            Err(Failed) => Done::LaunchFault,
        },
    }
}

/// Finishes the action in hand.
pub(crate) fn finish<F: Store, L: Launcher>(
    files: &mut Recent,
    piped: &mut Recent,
    store: &mut F,
    launcher: &mut L,
    hand: Hand,
) -> Done
    requires keeps { Keeps (kept_in files.old piped.old (F.tells store.old) (L.tells launcher.old)) }
    requires hand { IsOfKept (seen_with files.old hand).target files.old piped.old }
    ensures { FinishesKept result (seen_with files.old hand)
        (kept_in files.old piped.old (F.tells store.old) (L.tells launcher.old))
        (kept_in files.new piped.new (F.tells store.new) (L.tells launcher.new)) }
{
    match hand.place {
        Place::Nowhere => Done::Ok,
        Place::File => match open_files::finish(files, store, hand.flush, hand.close) {
            Ok(()) => Done::Ok,
            Err(Failed) => Done::StoreFault,
        },
        Place::Child => match programs::finish(piped, launcher, hand.close) {
            Ok(()) => Done::Ok,
            Err(Failed) => Done::LaunchFault,
        },
    }
}

/// Shuts all files, and then ends all programs.
pub(crate) fn close<F: Store, L: Launcher>(
    files: &mut Recent,
    piped: &mut Recent,
    store: &mut F,
    launcher: &mut L,
) -> Done
    requires { Keeps (kept_in files.old piped.old (F.tells store.old) (L.tells launcher.old)) }
    ensures { ClosesKept result
        (kept_in files.old piped.old (F.tells store.old) (L.tells launcher.old))
        (kept_in files.new piped.new (F.tells store.new) (L.tells launcher.new)) }
{
    if let Err(Failed) = open_files::close_all(files, store) {
        return Done::StoreFault;
    }
    match programs::close_all(piped, launcher) {
        Ok(()) => Done::Ok,
        Err(Failed) => Done::LaunchFault,
    }
}
