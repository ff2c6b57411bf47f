//! The handler that acts on products.
ghost use Rattle.std.specs.Prelude.{◌≡◌, ◌≢◌, None};
ghost use Rattle.ldm_outside.specs.Reason.{IsReason};

use crate::state::{StateFiles, keep_with, write_state};
use crate::stop::{ActStop, stop_of};
use ldm_actions::{Done, Outputs};
use ldm_gather::{Handled, Handler};
use ldm_outside::{Launcher, Sink, Store};
use ldm_pqact::{ActEnd, Pqact};
use ldm_shared::{Pass, Reader, Shared};
use std::marker::Model;
use std::sync::Wait;

/// Does with each product of a cursor what the entries of a pqact.conf choose. Where it has a count, it has enough once
/// the cursor was given so many products: it acts on all that is queued, and then looks at what is left of the count.
/// Where it keeps a state, it writes that once all that is queued was acted on, if a product was.
///
/// It is lent the store and the launcher of its outputs: the same ones at each call, and nobody else may shut what is
/// kept there.
#[derive(Drop)]
pub struct Acter {
    reader: Reader,
    pqact: Pqact,
    // How the state is written, where one is kept.
    state: Option<StateFiles>,
    why: Option<ActStop>,
}

impl Model for Acter {
    ghost use Rattle.ldm_pqact_command.specs.ActerView.{ActerView, acter_view};

    ghost Value = { ActerView };

    ghost view = { acter_view };
}

impl Acter {
    ghost use Rattle.ldm_actions.specs.Outputs.{KeepsUnlessSpent, standing};
    ghost use Rattle.ldm_gather.specs.declared.end.GatherEnd.TheVariants as gather_end;
    ghost use Rattle.ldm_pqact.specs.declared.end.ActEnd.TheVariants as act_end;
    ghost use Rattle.ldm_pqact_command.specs.Closing.{ClosesOutputs};
    ghost use Rattle.ldm_pqact_command.specs.State.{KeepsLast, KeepsState, state_deeds};

    /// Acts on the products of this cursor, and writes the state into these files, where one is kept.
    pub fn create(
        reader: Reader,
        count: Option<u64>,
        pqact: Pqact,
        state: Option<StateFiles>,
    ) -> Acter
        ensures { result ≡ record {
          k = reader.k;
          left = count;
          entries = pqact.entries;
          outputs = pqact.outputs;
          state = state;
          last = pqact.last;
          why
              = None;
        } }
    {
        Acter {
            reader,
            pqact: pqact.counting(count),
            state,
            why: None,
        }
    }

    /// Why it stopped.
    pub fn why(&self) -> Option<ActStop>
        ensures { result ≡ self.now.why }
    {
        self.why
    }

    /// The product in hand where it stopped by a fault of the store or of the launcher: the first 60 bytes of its
    /// ident, as a log line can have them. None was in hand where it did not stop.
    pub fn in_hand(&self) -> &[u8]
        ensures { IsReason result.now }
    {
        self.pqact.in_hand()
    }

    /// Shuts all files, and then shuts the input of each program and waits for it. Outputs that are spent touch nothing
    /// more, and answer their fault again.
    pub fn close<F: Store, L: Launcher>(&mut self, store: &mut F, launcher: &mut L) -> Done
        requires { KeepsUnlessSpent (standing self.old.outputs (F.tells store.old) (L.tells launcher.old)) }
        ensures others { self.new ≡ record self.old { outputs = self.new.outputs } }
        ensures closed { ClosesOutputs result (standing self.old.outputs (F.tells store.old) (L.tells launcher.old))
            (F.tells store.new) (L.tells launcher.new) }
    {
        self.pqact.close(store, launcher)
    }

    // Writes the state of the last product, where one is kept and a product was given.
    fn keep_state<F: Store, L: Launcher>(&mut self, store: &mut F, launcher: &mut L) -> ActEnd
        requires { KeepsUnlessSpent (standing self.old.outputs (F.tells store.old) (L.tells launcher.old)) }
        ensures others { self.new ≡ record self.old { outputs = self.new.outputs } }
        ensures keeps { KeepsUnlessSpent (standing self.new.outputs (F.tells store.new) (L.tells launcher.new)) }
        ensures state { KeepsState act_end.Stopped result (state_deeds self.old.state self.old.last)
            (standing self.old.outputs (F.tells store.old) (L.tells launcher.old))
            (standing self.new.outputs (F.tells store.new) (L.tells launcher.new)) }
        ensures not_busy { result ≢ act_end.AllBusy }
    {
        let Some(files) = &self.state else {
            return ActEnd::Stopped;
        };
        let Some(last) = self.pqact.last() else {
            return ActEnd::Stopped;
        };
        keep_with(&mut self.pqact, store, launcher, files, &last)
    }

    /// Writes the state of the last product by outputs that are used for nothing else, where acting on products stopped,
    /// a state is kept and a product was given. What came of it is not looked at.
    pub(crate) fn keep_last<F: Store, L: Launcher>(
        &self,
        spare: Outputs,
        store: &mut F,
        launcher: &mut L,
    )
        requires { KeepsUnlessSpent (standing spare (F.tells store.old) (L.tells launcher.old)) }
        ensures { KeepsLast gather_end.Stopped (state_deeds self.now.state self.now.last)
            (standing spare (F.tells store.old) (L.tells launcher.old)) (F.tells store.new)
            (L.tells launcher.new) }
    {
        let Some(files) = &self.state else {
            return;
        };
        let Some(last) = self.pqact.last() else {
            return;
        };
        let mut spare = spare;
        let _ = write_state(&mut spare, store, launcher, files, &last);
    }
}

impl<F: Store, L: Launcher> Handler<F, L> for Acter {
    ghost use Rattle.ldm_pqact_command.specs.Handling.{ActBegins, ActHandles};

    ghost cursor = { λ acter. acter.k };

    ghost begins = { ActBegins F.tells L.tells };

    ghost handles = { ActHandles F.tells L.tells };

    fn handle<H: Wait, E: Sink>(
        &mut self,
        rt: &H,
        shared: &Shared,
        pass: &mut Pass,
        first: &mut F,
        second: &mut L,
        log: &mut E,
    ) -> Handled {
        let reader = self.reader;
        let ended = self
            .pqact
            .pending(shared, rt, pass, &reader, first, second, log);
        if let Some(why) = stop_of(ended) {
            self.why = Some(why);
            return Handled::Stopped;
        }
        if let Some(why) = stop_of(self.keep_state(first, second)) {
            self.why = Some(why);
            return Handled::Stopped;
        }
        match self.pqact.left() {
            Some(0) => Handled::Enough,
            Some(_) | None => Handled::On,
        }
    }
}
