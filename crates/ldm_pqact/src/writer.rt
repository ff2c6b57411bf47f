//! What the outputs are given bodies by.
ghost use Rattle.std.specs.Prelude.{◌∷◌, []};
ghost use Rattle.ldm_actions.specs.Hands.{action_of};
ghost use Rattle.ldm_actions.specs.Outputs.{KeepsUnlessSpent, standing};
ghost use Rattle.ldm_pqact.specs.Carried.{DoesBy};
ghost use Rattle.ldm_pqact.specs.Handling.{ActsWith};

use crate::end::{ActEnd, begun, done};
use ldm_actions::{Action, Outputs};
use ldm_outside::{Launcher, Store};

// Outputs, and room for a piece of a body, as it is read for them.
#[derive(Drop)]
pub(crate) struct Writer {
    pub(crate) outputs: Outputs,
    pub(crate) buffer: Vec<u8>,
}

/// Carries out an action on these bytes by outputs, and answers [`ActEnd::Stopped`] where that is done.
pub fn act_with<F: Store, L: Launcher>(
    outputs: &mut Outputs,
    store: &mut F,
    launcher: &mut L,
    action: &Action,
    bytes: &[u8],
) -> ActEnd
    requires { KeepsUnlessSpent (standing outputs.old (F.tells store.old) (L.tells launcher.old)) }
    ensures keeps { KeepsUnlessSpent (standing outputs.new (F.tells store.new) (L.tells launcher.new)) }
    ensures does { DoesBy result ((action_of action.now, bytes.now) ∷ [])
        (standing outputs.old (F.tells store.old) (L.tells launcher.old))
        (standing outputs.new (F.tells store.new) (L.tells launcher.new)) }
{
    match try_with(outputs, store, launcher, action, bytes) {
        Ok(()) => ActEnd::Stopped,
        Err(end) => end,
    }
}

fn try_with<F: Store, L: Launcher>(
    outputs: &mut Outputs,
    store: &mut F,
    launcher: &mut L,
    action: &Action,
    bytes: &[u8],
) -> Result<(), ActEnd>
    requires { KeepsUnlessSpent (standing outputs.old (F.tells store.old) (L.tells launcher.old)) }
    ensures keeps { KeepsUnlessSpent (standing outputs.new (F.tells store.new) (L.tells launcher.new)) }
    ensures does { ActsWith result (action_of action.now) bytes.now
        (standing outputs.old (F.tells store.old) (L.tells launcher.old))
        (standing outputs.new (F.tells store.new) (L.tells launcher.new)) }
{
    begun(outputs.begin(store, launcher, action))?;
    done(outputs.piece(store, launcher, bytes))?;
    done(outputs.finish(store, launcher))
}
