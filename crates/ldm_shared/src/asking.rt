//! One call of the shared queue, whatever it asks of the book.
ghost use Rattle.std.specs.Prelude.{◌≡◌};
ghost use Rattle.ldm_model.specs.History.{IsPossible};
ghost use Rattle.ldm_model.specs.Next.{next};
ghost use Rattle.ldm_model.specs.State.{State};
ghost use Rattle.ldm_book.specs.Stands.{StandsFor};
ghost use Rattle.ldm_book.specs.Answers.{Follows};
ghost use Rattle.ldm_shared.specs.Passes.{IsPassOf, IsSamePass, Grows, FindsWorn};
ghost use Rattle.ldm_shared.specs.Turns.{IfDone, IfWorn};

use crate::pass::Pass;
use crate::shared::Shared;
use crate::turn::Turn;
use ldm_book::Book;
use ldm_types::Actor;
use std::marker::Brand;
use std::sync::Wait;

/// What a call asks for, and which reply of the queue its answer is, with what it left in its buffer.
pub(crate) trait Asks<R> {
    ghost use Rattle.std.specs.Prelude.{ℕ, List};
    ghost use Rattle.ldm_model.specs.declared.event.Event.{Event};
    ghost use Rattle.ldm_model.specs.declared.event.Reply.{Reply};

    ghost event: { Event };

    ghost reply: { R → List ℕ → Reply };
}

impl<R> Asks<R> for Brand {
    ghost use Rattle.ldm_model.specs.declared.event.Event.TheVariants as event;
    ghost use Rattle.ldm_model.specs.declared.event.Reply.TheVariants as reply;

    ghost event = { event.Expire };

    ghost reply = { λ answer into. reply.Nothing };
}

impl Shared {
    // Makes a call of a pass: takes the turn, asks the book, and gives the turn back. The buffer is that of a read, and
    // empty elsewhere; the event is for the proof alone.
    pub(crate) fn call<C: Asks<R>, H: Wait, E, R, F: FnOnce(&mut Book, Actor, &mut [u8]) -> R>(
        &self,
        rt: &H,
        pass: &mut Pass,
        event: &E,
        into: &mut [u8],
        ask: F,
    ) -> Turn<R>
        requires of { IsPassOf self.now pass.old }
        requires possible { IsPossible C.event }
        requires may { F.IsAlwaysCallable ask }
        requires answers { (b : _) (actor : _) (i : _) (answer : _) (b' : _) (i' : _)
            → F.post ask b actor i answer b' i' → i.now ≡ into.old
            → (s : State) → StandsFor b.now s → Follows (C.reply answer i'.now) b'.now (next s actor C.event) }
        ensures kept { IsSamePass pass.old pass.new }
        ensures done { IfDone result (λ answer. Grows pass.old pass.new C.event (C.reply answer into.new)) }
        ensures asked { IfDone result
            (λ answer. (b : _) × (actor : _) × (i : _) × (b' : _) × (i' : _) × F.post ask b actor i answer b' i'
            × (i.now ≡ into.old) × (i'.now ≡ into.new)) }
        ensures worn { IfWorn result (FindsWorn pass.old pass.new) }
        ensures unasked { IfWorn result (λ _. into.new ≡ into.old) }
    {
        let _ = event;
        match self.take(rt, &mut pass.seat) {
            Turn::Done(()) => {
                let answer = self.ask(&mut pass.seat, pass.actor, into, ask);
                self.give::<Brand, _>(&mut pass.seat, pass.actor, &answer, into);
                Turn::Done(answer)
            }
            Turn::Worn { turns } => Turn::Worn { turns },
        }
    }

    // The same, of a call that appends to a buffer, where each call of `ask` asks what holds of that buffer.
    pub(crate) fn call_onto<
        C: Asks<R>,
        H: Wait,
        E,
        R,
        F: FnOnce(&mut Book, Actor, &mut Vec<u8>) -> R,
    >(&self, rt: &H, pass: &mut Pass, event: &E, out: &mut Vec<u8>, ask: F) -> Turn<R>
        requires of { IsPassOf self.now pass.old }
        requires possible { IsPossible C.event }
        requires may { (b : _) (actor : _) (o : _) → o.now ≡ out.old → F.pre ask b actor o }
        requires answers { (b : _) (actor : _) (o : _) (answer : _) (b' : _) (o' : _)
            → F.post ask b actor o answer b' o' → o.now ≡ out.old
            → (s : State) → StandsFor b.now s → Follows (C.reply answer o'.now.items) b'.now (next s actor C.event) }
        ensures kept { IsSamePass pass.old pass.new }
        ensures done { IfDone result (λ answer. Grows pass.old pass.new C.event (C.reply answer out.new.items)) }
        ensures asked { IfDone result
            (λ answer. (b : _) × (actor : _) × (o : _) × (b' : _) × (o' : _) × F.post ask b actor o answer b' o'
            × (o.now ≡ out.old) × (o'.now ≡ out.new)) }
        ensures worn { IfWorn result (FindsWorn pass.old pass.new) }
        ensures unasked { IfWorn result (λ _. out.new ≡ out.old) }
    {
        let _ = event;
        match self.take(rt, &mut pass.seat) {
            Turn::Done(()) => {
                let answer = self.ask_onto(&mut pass.seat, pass.actor, out, ask);
                self.give::<Brand, _>(&mut pass.seat, pass.actor, &answer, out.as_slice());
                Turn::Done(answer)
            }
            Turn::Worn { turns } => Turn::Worn { turns },
        }
    }
}
