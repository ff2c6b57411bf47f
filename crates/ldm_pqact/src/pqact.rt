//! Entries of a pqact.conf, and the outputs that they write to.
ghost use Rattle.std.specs.Prelude.{◌≡◌, ◌∷◌, [], IfOk, None};
ghost use Rattle.ldm_outside.specs.Reason.{IsReason};
ghost use Rattle.ldm_shared.specs.Passes.{IsPassOf, IsSamePass};
ghost use Rattle.ldm_shared.specs.Reader.{HasCursor};
ghost use Rattle.ldm_actions.specs.Outputs.{Closes, KeepsOfAny, KeepsUnlessSpent, no_outputs, standing};
ghost use Rattle.ldm_actions.specs.Hands.{action_of};
ghost use Rattle.ldm_pqact.specs.Acting.{ActsOn, sight_of};
ghost use Rattle.ldm_pqact.specs.Carried.{DoesBy};
ghost use Rattle.ldm_pqact.specs.Complete.{Completes};
ghost use Rattle.ldm_pqact.specs.Lasting.{LastGiven};
ghost use Rattle.ldm_pqact.specs.Parts.{signature_of};
ghost use Rattle.ldm_shared.specs.Counting.{CountsGiven};

use crate::carrier::Carrier;
use crate::end::ActEnd;
use crate::limits::LARGEST_PIECE;
use crate::writer::{Writer, act_with};
use ldm_actions::{Action, Done, Outputs};
use ldm_outside::{Launcher, Reason, Sink, Store};
use ldm_pqact_conf::Entries;
use ldm_shared::{Pass, Reader, Shared};
use ldm_types::{OutOfMemory, Signature};
use std::alloc::Global;
use std::marker::Model;
use std::sync::Wait;

/// Acts on products by the entries of a pqact.conf. Its outputs stay open and running from one call to the next.
///
/// Each call has to be lent the store and the launcher that all calls before were lent, and nobody else may shut what
/// is kept there. After a fault of the store or the launcher the outputs are spent: they touch nothing more, and the
/// first action that comes to them answers that fault again.
#[derive(Drop)]
pub struct Pqact {
    carrier: Carrier,
}

impl Model for Pqact {
    ghost use Rattle.ldm_pqact.specs.Parts.{HasRoom, PqactView, pqact_view};

    ghost Value = { PqactView };

    ghost view = { pqact_view };

    ghost invariant = { HasRoom };
}

impl Pqact {
    /// Acts by these entries. Nothing is open or running yet, and there is no count.
    pub fn create(alloc: Global, entries: Entries) -> Result<Pqact, OutOfMemory>
        ensures entries { IfOk result (λ made. made.entries ≡ entries) }
        ensures outputs { IfOk result (λ made. made.outputs ≡ no_outputs) }
        ensures uncounted { IfOk result (λ made. made.left ≡ None) }
        ensures none_given { IfOk result (λ made. made.last ≡ None) }
        ensures keeps { IfOk result (λ made. KeepsOfAny made.outputs) }
    {
        let buffer = Vec::with_capacity(alloc, LARGEST_PIECE)?;
        let writer = Writer {
            outputs: Outputs::create(alloc)?,
            buffer,
        };
        let carrier = Carrier {
            alloc,
            entries,
            writer,
            left: None,
            last: None,
            in_hand: Reason::new(),
        };
        Ok(Pqact { carrier })
    }

    /// The same, which counts off how many products are left to be given, where there is a count.
    pub fn counting(self, count: Option<u64>) -> Pqact
        ensures { result ≡ record self { left = count } }
    {
        let mut carrier = self.carrier;
        carrier.left = count;
        Pqact { carrier }
    }

    /// How many products are left to be given, where there is a count: 0 once the cursors gave as many, or more.
    pub fn left(&self) -> Option<u64>
        ensures { result ≡ self.now.left }
    {
        self.carrier.left
    }

    /// The signature of the last product that [`pending`](Pqact::pending) was given when it was called last, if it was
    /// given one.
    pub fn last(&self) -> Option<Signature>
        ensures { signature_of result ≡ self.now.last }
    {
        self.carrier.last
    }

    /// Acts on every product of the cursor up to the end of the queue, and then answers [`ActEnd::Stopped`]. The cursor
    /// holds nothing.
    ///
    /// An entry that acts and does nothing is a line of the log: `nodate IDENT GROUP` where it asks for the date of a
    /// group that is no day, `nottext IDENT WORD` where a word is no UTF-8. A loss is the line `gap pqact COUNT FIRST
    /// LAST`.
    pub fn pending<H: Wait, F: Store, L: Launcher, E: Sink>(
        &mut self,
        shared: &Shared,
        rt: &H,
        pass: &mut Pass,
        reader: &Reader,
        store: &mut F,
        launcher: &mut L,
        log: &mut E,
    ) -> ActEnd
        requires of { IsPassOf shared.now pass.old }
        requires cursor { HasCursor pass.old reader.now.k None }
        requires keeps { KeepsUnlessSpent (standing self.old.outputs (F.tells store.old) (L.tells launcher.old)) }
        ensures kept { IsSamePass pass.old pass.new }
        ensures entries { self.new.entries ≡ self.old.entries }
        ensures keeps { KeepsUnlessSpent (standing self.new.outputs (F.tells store.new) (L.tells launcher.new)) }
        // Each product that the cursor gave was counted off.
        ensures counts { CountsGiven pass.old pass.new self.old.left self.new.left }
        // The last product is that of this call.
        ensures last { LastGiven pass.old pass.new None self.new.last }
        ensures acts { ActsOn result self.old.entries reader.now.k
            (sight_of pass.old (standing self.old.outputs (F.tells store.old) (L.tells launcher.old)) (E.tells log.old))
            (sight_of pass.new (standing self.new.outputs (F.tells store.new) (L.tells launcher.new))
            (E.tells log.new)) }
        // Where nothing hinders, it comes to the end of the queue and all is done; but memory may be wanting.
        ensures completes { Completes result self.old.entries reader.now.k
            (sight_of pass.old (standing self.old.outputs (F.tells store.old) (L.tells launcher.old)) (E.tells log.old))
            (sight_of pass.new (standing self.new.outputs (F.tells store.new) (L.tells launcher.new))
            (E.tells log.new)) }
    {
        self.carrier.last = None;
        self.carrier
            .turns(rt, shared, pass, log, reader, store, launcher)
    }

    /// Carries out an action on these bytes, in place of the body of a product, and answers [`ActEnd::Stopped`] where
    /// that is done.
    pub fn act_with<F: Store, L: Launcher>(
        &mut self,
        store: &mut F,
        launcher: &mut L,
        action: &Action,
        bytes: &[u8],
    ) -> ActEnd
        requires { KeepsUnlessSpent (standing self.old.outputs (F.tells store.old) (L.tells launcher.old)) }
        ensures others { self.new ≡ record self.old { outputs = self.new.outputs } }
        ensures keeps { KeepsUnlessSpent (standing self.new.outputs (F.tells store.new) (L.tells launcher.new)) }
        ensures does { DoesBy result ((action_of action.now, bytes.now) ∷ [])
            (standing self.old.outputs (F.tells store.old) (L.tells launcher.old))
            (standing self.new.outputs (F.tells store.new) (L.tells launcher.new)) }
    {
        act_with(
            &mut self.carrier.writer.outputs,
            store,
            launcher,
            action,
            bytes,
        )
    }

    /// The product in hand where [`pending`](Pqact::pending) last ended by a fault of the store or of the launcher: the
    /// first 60 bytes of its ident, as a log line can have them. None was in hand at the end of the queue.
    pub fn in_hand(&self) -> &[u8]
        ensures { IsReason result.now }
    {
        self.carrier.in_hand.as_slice()
    }

    /// Shuts all files, and then shuts the input of each program and waits for it: the longest unused first.
    pub fn close<F: Store, L: Launcher>(&mut self, store: &mut F, launcher: &mut L) -> Done
        requires { KeepsUnlessSpent (standing self.old.outputs (F.tells store.old) (L.tells launcher.old)) }
        ensures entries { self.new.entries ≡ self.old.entries }
        ensures left { self.new.left ≡ self.old.left }
        ensures last { self.new.last ≡ self.old.last }
        ensures closed { Closes result
            (standing self.old.outputs (F.tells store.old) (L.tells launcher.old))
            (standing self.new.outputs (F.tells store.new) (L.tells launcher.new)) }
        ensures keeps { KeepsUnlessSpent (standing self.new.outputs (F.tells store.new) (L.tells launcher.new)) }
    {
        self.carrier.writer.outputs.close_all(store, launcher)
    }
}
