//! A product that the cursor gave.
ghost use Rattle.std.specs.Prelude.{◌≡◌, ◌≤◌, ℕ, IfErr, IfOk, List};
ghost use Rattle.std.specs.Vec.{vec_capacity};
ghost use Rattle.ldm_shared.specs.Passes.{IsPassOf, IsSamePass};
ghost use Rattle.ldm_actions.specs.Outputs.{KeepsUnlessSpent, standing};
ghost use Rattle.ldm_pqact.specs.declared.limits.TheConstants.{LARGEST_PIECE};
ghost use Rattle.ldm_pqact.specs.Acting.{HandlesBy, sight_of};
ghost use Rattle.ldm_pqact.specs.Handling.{IsHeld, Noted, NotedInPart, work_for};

use crate::carrier::Carrier;
use crate::end::ActEnd;
use crate::holding::Holding;
use crate::notes::notes;
use ldm_outside::{Launcher, Sink, Store, write_all};
use ldm_pqact_match::{Chosen, choose};
use ldm_shared::{Pass, Shared, Turn};
use std::sync::Wait;

impl Carrier {
    // What the entries choose for a product that is held. The log has a line for each entry that acts and does nothing.
    fn decide<E: Sink>(&self, log: &mut E, holding: &Holding) -> Result<Vec<Chosen>, ActEnd>
        ensures notes { IfOk result
            (λ chosen. Noted self.now.entries holding.now.held chosen.items (E.tells log.old) (E.tells log.new)) }
        ensures in_part { IfErr result
            (λ why. NotedInPart why self.now.entries holding.now.held (E.tells log.old) (E.tells log.new)) }
    {
        let held = &holding.held;
        let chosen = choose(self.alloc, &self.entries, &held.info, held.time)?;
        let notes = notes(self.alloc, &held.info, chosen.as_slice())?;
        write_all(log, notes.as_slice())?;
        Ok(chosen)
    }

    // A product that is held: the log has a line for each entry that acts and does nothing, what the others do is done,
    // and it is let go.
    pub(crate) fn handle<H: Wait, F: Store, L: Launcher, E: Sink>(
        &mut self,
        rt: &H,
        shared: &Shared,
        pass: &mut Pass,
        log: &mut E,
        holding: Holding,
        store: &mut F,
        launcher: &mut L,
    ) -> Result<(), ActEnd>
        requires of { IsPassOf shared.now pass.old }
        requires holds { (body : List ℕ) × IsHeld pass.old holding body }
        requires room { LARGEST_PIECE ≤ vec_capacity self.old.writer.buffer }
        requires keeps { KeepsUnlessSpent
            (standing self.old.writer.outputs (F.tells store.old) (L.tells launcher.old)) }
        ensures kept { IsSamePass pass.old pass.new }
        ensures entries { self.new.entries ≡ self.old.entries }
        ensures left { self.new.left ≡ self.old.left }
        ensures last { self.new.last ≡ self.old.last }
        ensures room { LARGEST_PIECE ≤ vec_capacity self.new.writer.buffer }
        ensures keeps { KeepsUnlessSpent
            (standing self.new.writer.outputs (F.tells store.new) (L.tells launcher.new)) }
        ensures handles { (body : List ℕ) → IsHeld pass.old holding body
            → HandlesBy result holding.reader.k (work_for self.old.entries holding.held body)
            (sight_of pass.old (standing self.old.writer.outputs (F.tells store.old) (L.tells launcher.old))
            (E.tells log.old))
            (sight_of pass.new (standing self.new.writer.outputs (F.tells store.new) (L.tells launcher.new))
            (E.tells log.new)) }
    {
        let chosen = self.decide(log, &holding)?;
        self.writer
            .carry_all(rt, shared, pass, &holding, chosen, store, launcher)?;
        let Holding { reader, held } = holding;
        match reader.release(shared, rt, pass, held) {
            Turn::Done(()) => Ok(()),
            Turn::Worn { .. } => Err(ActEnd::Worn),
        }
    }
}
