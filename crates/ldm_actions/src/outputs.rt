//! Outputs: files that are kept open and programs that run on, from one action to the next.
ghost use Rattle.std.specs.Prelude.{◌≡◌, IfOk};
ghost use Rattle.ldm_actions.specs.Hands.{action_of};
ghost use Rattle.ldm_actions.specs.Outputs.{Begins, BeginsHand, Closes, Finishes, Gives, HasHand};
ghost use Rattle.ldm_actions.specs.Outputs.{KeepsOfAny, KeepsUnlessSpent, no_outputs, standing};

use crate::action::Action;
use crate::answers::{Begun, Done, Fault};
use crate::hand::Hand;
use crate::recent::Recent;
use crate::steps;
use ldm_outside::{Launcher, Store};
use ldm_types::OutOfMemory;
use std::alloc::Global;
use std::marker::Model;

/// Carries out actions over a store and a launcher. It keeps at most [`MOST_OPEN`](crate::MOST_OPEN) files open and
/// [`MOST_PIPED`](crate::MOST_PIPED) programs running from one action to the next, and remembers the action in hand.
///
/// An action is begun by [`begin`](Outputs::begin), is given the body by [`piece`](Outputs::piece), and is finished by
/// [`finish`](Outputs::finish). Each call has to be lent the store and the launcher that all calls before were lent,
/// and nobody else may shut what is kept there. After a fault it is spent: each call answers that fault again and
/// touches nothing.
#[derive(Drop)]
pub struct Outputs {
    files: Recent,
    piped: Recent,
    hand: Option<Hand>,
    spent: Option<Fault>,
}

impl Model for Outputs {
    ghost use Rattle.ldm_actions.specs.Outputs.{OutputsView, outputs_view};

    ghost Value = { OutputsView };

    ghost view = { λ s. outputs_view s.files s.piped s.hand s.spent };
}

impl Outputs {
    /// Outputs that keep nothing.
    pub fn create(alloc: Global) -> Result<Outputs, OutOfMemory>
        ensures empty { IfOk result (λ made. made ≡ no_outputs) }
        ensures keeps { IfOk result KeepsOfAny }
    {
        Ok(Outputs {
            files: Recent::new(alloc)?,
            piped: Recent::new(alloc)?,
            hand: None,
            spent: None,
        })
    }

    /// Begins an action. An action that is in hand is forgotten, and what it wrote stands.
    ///
    /// After `OutOfMemory` all is as it was.
    pub fn begin<F: Store, L: Launcher>(
        &mut self,
        store: &mut F,
        launcher: &mut L,
        action: &Action,
    ) -> Begun
        requires { KeepsUnlessSpent (standing self.old (F.tells store.old) (L.tells launcher.old)) }
        ensures begun { Begins result (action_of action.now)
            (standing self.old (F.tells store.old) (L.tells launcher.old))
            (standing self.new (F.tells store.new) (L.tells launcher.new)) }
        ensures keeps { KeepsUnlessSpent (standing self.new (F.tells store.new) (L.tells launcher.new)) }
        ensures in_hand { BeginsHand result self.new }
    {
        if let Some(fault) = self.spent {
            return fault.begun();
        }
        match steps::begin(&mut self.files, &mut self.piped, store, launcher, action) {
            Begun::Ready => {
                self.hand = Some(Hand::of(action));
                Begun::Ready
            }
            Begun::StoreFault => {
                self.spent = Some(Fault::Store);
                Begun::StoreFault
            }
            Begun::LaunchFault => {
                self.spent = Some(Fault::Launch);
                Begun::LaunchFault
            }
            Begun::OutOfMemory => Begun::OutOfMemory,
        }
    }

    /// Gives the action in hand a piece of the body.
    pub fn piece<F: Store, L: Launcher>(
        &mut self,
        store: &mut F,
        launcher: &mut L,
        bytes: &[u8],
    ) -> Done
        requires keeps { KeepsUnlessSpent (standing self.old (F.tells store.old) (L.tells launcher.old)) }
        requires in_hand { HasHand self.old }
        ensures given { Gives result bytes.now
            (standing self.old (F.tells store.old) (L.tells launcher.old))
            (standing self.new (F.tells store.new) (L.tells launcher.new)) }
        ensures keeps { KeepsUnlessSpent (standing self.new (F.tells store.new) (L.tells launcher.new)) }
        ensures in_hand { HasHand self.new }
    {
        if let Some(fault) = self.spent {
            return fault.done();
        }
        let hand = self.hand.unwrap();
        match steps::give(&self.files, &self.piped, store, launcher, hand, bytes) {
            Done::Ok => Done::Ok,
            Done::StoreFault => {
                self.spent = Some(Fault::Store);
                Done::StoreFault
            }
            Done::LaunchFault => {
                self.spent = Some(Fault::Launch);
                Done::LaunchFault
            }
        }
    }

    /// Finishes the action in hand: its file is flushed and then shut, or its program's input is shut and the program
    /// is waited for, where its options say so.
    pub fn finish<F: Store, L: Launcher>(&mut self, store: &mut F, launcher: &mut L) -> Done
        requires keeps { KeepsUnlessSpent (standing self.old (F.tells store.old) (L.tells launcher.old)) }
        requires in_hand { HasHand self.old }
        ensures finished { Finishes result
            (standing self.old (F.tells store.old) (L.tells launcher.old))
            (standing self.new (F.tells store.new) (L.tells launcher.new)) }
        ensures keeps { KeepsUnlessSpent (standing self.new (F.tells store.new) (L.tells launcher.new)) }
    {
        if let Some(fault) = self.spent {
            return fault.done();
        }
        let hand = self.hand.unwrap();
        match steps::finish(&mut self.files, &mut self.piped, store, launcher, hand) {
            Done::Ok => {
                self.hand = None;
                Done::Ok
            }
            Done::StoreFault => {
                self.spent = Some(Fault::Store);
                Done::StoreFault
            }
            Done::LaunchFault => {
                self.spent = Some(Fault::Launch);
                Done::LaunchFault
            }
        }
    }

    /// Shuts all files, and then shuts the input of each program and waits for it: the longest unused first. An action
    /// that is in hand is forgotten, and what it wrote stands.
    pub fn close_all<F: Store, L: Launcher>(&mut self, store: &mut F, launcher: &mut L) -> Done
        requires { KeepsUnlessSpent (standing self.old (F.tells store.old) (L.tells launcher.old)) }
        ensures closed { Closes result
            (standing self.old (F.tells store.old) (L.tells launcher.old))
            (standing self.new (F.tells store.new) (L.tells launcher.new)) }
        ensures keeps { KeepsUnlessSpent (standing self.new (F.tells store.new) (L.tells launcher.new)) }
    {
        if let Some(fault) = self.spent {
            return fault.done();
        }
        match steps::close(&mut self.files, &mut self.piped, store, launcher) {
            Done::Ok => {
                self.hand = None;
                Done::Ok
            }
            Done::StoreFault => {
                self.spent = Some(Fault::Store);
                Done::StoreFault
            }
            Done::LaunchFault => {
                self.spent = Some(Fault::Launch);
                Done::LaunchFault
            }
        }
    }
}
