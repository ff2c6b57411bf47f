//! One step of the cursor, and what follows it.
ghost use Rattle.std.specs.Prelude.{◌≡◌, ◌≤◌, None};
ghost use Rattle.std.specs.Vec.{vec_capacity};
ghost use Rattle.ldm_shared.specs.Passes.{IsPassOf, IsSamePass};
ghost use Rattle.ldm_shared.specs.Reader.{HasCursor};
ghost use Rattle.ldm_actions.specs.Outputs.{KeepsUnlessSpent, standing};
ghost use Rattle.ldm_pqact.specs.declared.limits.TheConstants.{LARGEST_PIECE};
ghost use Rattle.ldm_pqact.specs.Acting.{TurnsBy, sight_of};
ghost use Rattle.ldm_pqact.specs.Lasting.{LastGiven};
ghost use Rattle.ldm_pqact.specs.Parts.{signature_of};
ghost use Rattle.ldm_shared.specs.Counting.{CountsGiven};

use crate::carrier::Carrier;
use crate::end::ActEnd;
use crate::holding::Holding;
use crate::limits::LONGEST_SHOWN;
use ldm_outside::{Launcher, Reason, Sink, Store};
use ldm_session::write_gap;
use ldm_shared::{Came, Pass, Reader, Shared, Turn, count_off, products_stay};
use std::sync::Wait;

impl Carrier {
    // One step of the cursor, and what follows it. A fault of the store or of the launcher leaves the front of the
    // ident of the product in hand.
    pub(crate) fn turn<H: Wait, F: Store, L: Launcher, E: Sink>(
        &mut self,
        rt: &H,
        shared: &Shared,
        pass: &mut Pass,
        log: &mut E,
        reader: &Reader,
        store: &mut F,
        launcher: &mut L,
    ) -> Result<(), ActEnd>
        requires of { IsPassOf shared.now pass.old }
        requires cursor { HasCursor pass.old reader.now.k None }
        requires room { LARGEST_PIECE ≤ vec_capacity self.old.writer.buffer }
        requires keeps { KeepsUnlessSpent
            (standing self.old.writer.outputs (F.tells store.old) (L.tells launcher.old)) }
        ensures kept { IsSamePass pass.old pass.new }
        ensures entries { self.new.entries ≡ self.old.entries }
        ensures room { LARGEST_PIECE ≤ vec_capacity self.new.writer.buffer }
        ensures keeps { KeepsUnlessSpent
            (standing self.new.writer.outputs (F.tells store.new) (L.tells launcher.new)) }
        ensures counts { CountsGiven pass.old pass.new self.old.left self.new.left }
        ensures last { LastGiven pass.old pass.new (signature_of self.old.last) (signature_of self.new.last) }
        ensures turns { TurnsBy result self.old.entries reader.now.k
            (sight_of pass.old (standing self.old.writer.outputs (F.tells store.old) (L.tells launcher.old))
            (E.tells log.old))
            (sight_of pass.new (standing self.new.writer.outputs (F.tells store.new) (L.tells launcher.new))
            (E.tells log.new)) }
    {
        products_stay();
        match reader.step(shared, rt, pass) {
            Turn::Done(Came::Gap { count, first, last }) => {
                write_gap(log, b"pqact", count, first, last)?;
                Ok(())
            }
            Turn::Done(Came::Product(held)) => {
                count_off(&mut self.left);
                self.last = Some(held.info.signature());
                put_front(&mut self.in_hand, held.info.ident());
                let holding = Holding {
                    reader: *reader,
                    held,
                };
                self.handle(rt, shared, pass, log, holding, store, launcher)
            }
            Turn::Done(Came::End { .. }) => {
                self.in_hand.clear();
                Err(ActEnd::Stopped)
            }
            Turn::Worn { .. } => Err(ActEnd::Worn),
        }
    }
}

// Notes the front of an ident, in place of what was noted before.
fn put_front(in_hand: &mut Reason, ident: &[u8]) {
    in_hand.clear();
    in_hand.put(&ident[..ident.len().min(LONGEST_SHOWN)]);
}
