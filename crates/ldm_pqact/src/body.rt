//! The body of a product, which is read from the queue and handed on as it is read.
ghost use Rattle.std.specs.Prelude.{◌+◌, ◌<◌, ◌≤◌, ℕ, IfOk, List, Some};
ghost use Rattle.std.specs.Vec.{vec_capacity};
ghost use Rattle.ldm_shared.specs.Passes.{IsPassOf, IsSamePass};
ghost use Rattle.ldm_actions.specs.Effects.{InHand};
ghost use Rattle.ldm_actions.specs.Outputs.{HasInHand, KeepsUnlessSpent, standing};
ghost use Rattle.ldm_pqact.specs.declared.limits.TheConstants.{LARGEST_PIECE};
ghost use Rattle.ldm_pqact.specs.Handling.{IsHeld, Reads, ReadsPiece, giving_of, lent};

use crate::end::{ActEnd, done};
use crate::holding::Holding;
use crate::limits::LARGEST_PIECE;
use crate::writer::Writer;
use ldm_outside::{Launcher, Store};
use ldm_shared::{Pass, Shared, Turn};
use std::sync::Wait;

impl Writer {
    // Reads a piece of the body from that offset on, and gives it to the action in hand. Answers how many bytes it has.
    fn give_piece<H: Wait, F: Store, L: Launcher>(
        &mut self,
        rt: &H,
        shared: &Shared,
        pass: &mut Pass,
        holding: &Holding,
        offset: usize,
        store: &mut F,
        launcher: &mut L,
    ) -> Result<usize, ActEnd>
        requires of { IsPassOf shared.now pass.old }
        requires holds { (body : List ℕ) × IsHeld pass.old holding.now body }
        requires room { LARGEST_PIECE ≤ vec_capacity self.old.buffer }
        requires within { offset < holding.now.held.info.size }
        requires keeps { KeepsUnlessSpent (standing self.old.outputs (F.tells store.old) (L.tells launcher.old)) }
        requires in_hand { (hand : InHand)
            × HasInHand (Some hand) (standing self.old.outputs (F.tells store.old) (L.tells launcher.old)) }
        ensures kept { IsSamePass pass.old pass.new }
        ensures room { LARGEST_PIECE ≤ vec_capacity self.new.buffer }
        ensures keeps { KeepsUnlessSpent (standing self.new.outputs (F.tells store.new) (L.tells launcher.new)) }
        ensures some { IfOk result (λ len. 0 < len) }
        ensures within { IfOk result (λ len. offset + len ≤ holding.now.held.info.size) }
        ensures reads { (hand : InHand) (body : List ℕ) → IsHeld pass.old holding.now body
            → HasInHand (Some hand) (standing self.old.outputs (F.tells store.old) (L.tells launcher.old))
            → ReadsPiece result (giving_of holding.now body hand) offset
            (lent pass.old (standing self.old.outputs (F.tells store.old) (L.tells launcher.old)))
            (lent pass.new (standing self.new.outputs (F.tells store.new) (L.tells launcher.new))) }
    {
        let size = holding.held.info.size() as usize;
        let len = (size - offset).min(LARGEST_PIECE);
        self.buffer.clear();
        if let Turn::Worn { .. } = holding.reader.read_onto(
            shared,
            rt,
            pass,
            &holding.held,
            offset as u32,
            len as u32,
            &mut self.buffer,
        ) {
            return Err(ActEnd::Worn);
        }
        done(self.outputs.piece(store, launcher, self.buffer.as_slice()))?;
        Ok(len)
    }

    // Gives the whole body to the action in hand, piece by piece.
    pub(crate) fn give_body<H: Wait, F: Store, L: Launcher>(
        &mut self,
        rt: &H,
        shared: &Shared,
        pass: &mut Pass,
        holding: &Holding,
        store: &mut F,
        launcher: &mut L,
    ) -> Result<(), ActEnd>
        requires of { IsPassOf shared.now pass.old }
        requires holds { (body : List ℕ) × IsHeld pass.old holding.now body }
        requires room { LARGEST_PIECE ≤ vec_capacity self.old.buffer }
        requires keeps { KeepsUnlessSpent (standing self.old.outputs (F.tells store.old) (L.tells launcher.old)) }
        requires in_hand { (hand : InHand)
            × HasInHand (Some hand) (standing self.old.outputs (F.tells store.old) (L.tells launcher.old)) }
        ensures kept { IsSamePass pass.old pass.new }
        ensures room { LARGEST_PIECE ≤ vec_capacity self.new.buffer }
        ensures keeps { KeepsUnlessSpent (standing self.new.outputs (F.tells store.new) (L.tells launcher.new)) }
        ensures reads { (hand : InHand) (body : List ℕ) → IsHeld pass.old holding.now body
            → HasInHand (Some hand) (standing self.old.outputs (F.tells store.old) (L.tells launcher.old))
            → Reads result (giving_of holding.now body hand) body
            (lent pass.old (standing self.old.outputs (F.tells store.old) (L.tells launcher.old)))
            (lent pass.new (standing self.new.outputs (F.tells store.new) (L.tells launcher.new))) }
    {
        let size = holding.held.info.size() as usize;
        let mut offset = 0;
        while offset < size {
            let len = self.give_piece(rt, shared, pass, holding, offset, store, launcher)?;
            offset += len;
        }
        Ok(())
    }
}
