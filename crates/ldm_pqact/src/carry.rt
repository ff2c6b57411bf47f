//! Actions on the body of a product that is held.
ghost use Rattle.std.specs.Prelude.{◌≡◌, ◌≤◌, ℕ, List, [], ◌∷◌};
ghost use Rattle.std.specs.Vec.{vec_capacity};
ghost use Rattle.ldm_shared.specs.Passes.{IsPassOf, IsSamePass};
ghost use Rattle.ldm_actions.specs.Hands.{action_of};
ghost use Rattle.ldm_actions.specs.Outputs.{KeepsUnlessSpent, standing};
ghost use Rattle.ldm_pqact.specs.declared.limits.TheConstants.{LARGEST_PIECE};
ghost use Rattle.ldm_pqact.specs.Handling.{DoesAll, IsHeld, bodied, lent, takes_body};
ghost use Rattle.ldm_pqact.specs.Turns.{deed_by, deeds_by};

use crate::effect::output_of;
use crate::end::{ActEnd, begun, done};
use crate::holding::Holding;
use crate::writer::Writer;
use ldm_actions::Action;
use ldm_outside::{Launcher, Store};
use ldm_pqact_match::{Chosen, Decision};
use ldm_shared::{Pass, Shared};
use std::sync::Wait;

// Whether an action writes a body.
fn takes_body(action: &Action) -> bool
    ensures { result ≡ takes_body (action_of action.now) }
{
    match action {
        Action::ToFile { .. } | Action::ToProgram { .. } => true,
        Action::Start { .. } | Action::Nothing => false,
    }
}

impl Writer {
    // Carries an action out on the product that is held. The body is read only where the action takes one.
    fn carry_out<H: Wait, F: Store, L: Launcher>(
        &mut self,
        rt: &H,
        shared: &Shared,
        pass: &mut Pass,
        holding: &Holding,
        action: &Action,
        store: &mut F,
        launcher: &mut L,
    ) -> Result<(), ActEnd>
        requires of { IsPassOf shared.now pass.old }
        requires holds { (body : List ℕ) × IsHeld pass.old holding.now body }
        requires room { LARGEST_PIECE ≤ vec_capacity self.old.buffer }
        requires keeps { KeepsUnlessSpent (standing self.old.outputs (F.tells store.old) (L.tells launcher.old)) }
        ensures kept { IsSamePass pass.old pass.new }
        ensures room { LARGEST_PIECE ≤ vec_capacity self.new.buffer }
        ensures keeps { KeepsUnlessSpent (standing self.new.outputs (F.tells store.new) (L.tells launcher.new)) }
        ensures does { (body : List ℕ) → IsHeld pass.old holding.now body
            → DoesAll result (bodied holding.now body) ((action_of action.now, body) ∷ [])
            (lent pass.old (standing self.old.outputs (F.tells store.old) (L.tells launcher.old)))
            (lent pass.new (standing self.new.outputs (F.tells store.new) (L.tells launcher.new))) }
    {
        begun(self.outputs.begin(store, launcher, action))?;
        if takes_body(action) {
            self.give_body(rt, shared, pass, holding, store, launcher)?;
        }
        done(self.outputs.finish(store, launcher))
    }

    // Does what an entry decided for the product that is held.
    fn carry<H: Wait, F: Store, L: Launcher>(
        &mut self,
        rt: &H,
        shared: &Shared,
        pass: &mut Pass,
        holding: &Holding,
        decision: Decision,
        store: &mut F,
        launcher: &mut L,
    ) -> Result<(), ActEnd>
        requires of { IsPassOf shared.now pass.old }
        requires holds { (body : List ℕ) × IsHeld pass.old holding.now body }
        requires room { LARGEST_PIECE ≤ vec_capacity self.old.buffer }
        requires keeps { KeepsUnlessSpent (standing self.old.outputs (F.tells store.old) (L.tells launcher.old)) }
        ensures kept { IsSamePass pass.old pass.new }
        ensures room { LARGEST_PIECE ≤ vec_capacity self.new.buffer }
        ensures keeps { KeepsUnlessSpent (standing self.new.outputs (F.tells store.new) (L.tells launcher.new)) }
        ensures does { (body : List ℕ) → IsHeld pass.old holding.now body
            → DoesAll result (bodied holding.now body) (deed_by body decision)
            (lent pass.old (standing self.old.outputs (F.tells store.old) (L.tells launcher.old)))
            (lent pass.new (standing self.new.outputs (F.tells store.new) (L.tells launcher.new))) }
    {
        match decision {
            Decision::Act(action) => {
                let action = output_of(action);
                self.carry_out(rt, shared, pass, holding, &action, store, launcher)
            }
            Decision::NoDate { .. } => Ok(()),
            Decision::NotText { .. } => Ok(()),
        }
    }

    // Does what was chosen for the product that is held, in order.
    pub(crate) fn carry_all<H: Wait, F: Store, L: Launcher>(
        &mut self,
        rt: &H,
        shared: &Shared,
        pass: &mut Pass,
        holding: &Holding,
        chosen: Vec<Chosen>,
        store: &mut F,
        launcher: &mut L,
    ) -> Result<(), ActEnd>
        requires of { IsPassOf shared.now pass.old }
        requires holds { (body : List ℕ) × IsHeld pass.old holding.now body }
        requires room { LARGEST_PIECE ≤ vec_capacity self.old.buffer }
        requires keeps { KeepsUnlessSpent (standing self.old.outputs (F.tells store.old) (L.tells launcher.old)) }
        ensures kept { IsSamePass pass.old pass.new }
        ensures room { LARGEST_PIECE ≤ vec_capacity self.new.buffer }
        ensures keeps { KeepsUnlessSpent (standing self.new.outputs (F.tells store.new) (L.tells launcher.new)) }
        ensures does { (body : List ℕ) → IsHeld pass.old holding.now body
            → DoesAll result (bodied holding.now body) (deeds_by body chosen.items)
            (lent pass.old (standing self.old.outputs (F.tells store.old) (L.tells launcher.old)))
            (lent pass.new (standing self.new.outputs (F.tells store.new) (L.tells launcher.new))) }
    {
        for it in chosen {
            self.carry(rt, shared, pass, holding, it.decision, store, launcher)?;
        }
        Ok(())
    }
}
