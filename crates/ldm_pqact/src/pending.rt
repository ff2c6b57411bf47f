//! The turns of a cursor, up to the end of the queue.
ghost use Rattle.std.specs.Prelude.{◌≡◌, ◌≤◌, None};
ghost use Rattle.std.specs.Vec.{vec_capacity};
ghost use Rattle.ldm_shared.specs.Passes.{IsPassOf, IsSamePass};
ghost use Rattle.ldm_shared.specs.Reader.{HasCursor};
ghost use Rattle.ldm_actions.specs.Outputs.{KeepsUnlessSpent, standing};
ghost use Rattle.ldm_pqact.specs.declared.limits.TheConstants.{LARGEST_PIECE};
ghost use Rattle.ldm_pqact.specs.Acting.{ActsOn, sight_of};
ghost use Rattle.ldm_pqact.specs.Lasting.{LastGiven};
ghost use Rattle.ldm_pqact.specs.Parts.{signature_of};
ghost use Rattle.ldm_shared.specs.Counting.{CountsGiven};

use crate::carrier::Carrier;
use crate::end::ActEnd;
use ldm_outside::{Launcher, Sink, Store};
use ldm_shared::{Pass, Reader, Shared, products_stay};
use std::sync::Wait;

impl Carrier {
    // Turns, until one ends them. A fault of the store or of the launcher leaves the front of the ident of the product
    // in hand, and the end of the queue leaves none.
    pub(crate) fn turns<H: Wait, F: Store, L: Launcher, E: Sink>(
        &mut self,
        rt: &H,
        shared: &Shared,
        pass: &mut Pass,
        log: &mut E,
        reader: &Reader,
        store: &mut F,
        launcher: &mut L,
    ) -> ActEnd
        requires of { IsPassOf shared.now pass.old }
        requires cursor { HasCursor pass.old reader.now.k None }
        requires room { LARGEST_PIECE ≤ vec_capacity self.old.writer.buffer }
        requires keeps { KeepsUnlessSpent
            (standing self.old.writer.outputs (F.tells store.old) (L.tells launcher.old)) }
        ensures kept { IsSamePass pass.old pass.new }
        ensures entries { self.new.entries ≡ self.old.entries }
        ensures room { LARGEST_PIECE ≤ vec_capacity self.new.writer.buffer }
        ensures keeps { KeepsUnlessSpent
            (standing self.new.writer.outputs (F.tells store.new) (L.tells launcher.new)) }
        ensures counts { CountsGiven pass.old pass.new self.old.left self.new.left }
        ensures last { LastGiven pass.old pass.new (signature_of self.old.last) (signature_of self.new.last) }
        ensures acts { ActsOn result self.old.entries reader.now.k
            (sight_of pass.old (standing self.old.writer.outputs (F.tells store.old) (L.tells launcher.old))
            (E.tells log.old))
            (sight_of pass.new (standing self.new.writer.outputs (F.tells store.new) (L.tells launcher.new))
            (E.tells log.new)) }
    {
        products_stay();
        for _ in rt.forever() {
            match self.turn(rt, shared, pass, log, reader, store, launcher) {
                Ok(()) => {}
                Err(end) => return end,
            }
        }
        unreachable!()
    }
}
