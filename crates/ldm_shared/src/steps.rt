//! Taking the turn, asking the book, and giving the turn back.
ghost use Rattle.std.specs.Prelude.{◌≡◌, ◌≢◌, ◌<◌, ◌≤◌, ◌==◌, ◌+◌, ◌%◌, ◌^◌, ◌++◌, ◌⊎◌};
ghost use Rattle.std.specs.Prelude.{[], ◌∷◌, ℕ, false, length, None, Some, MatchBool};
ghost use Rattle.ldm_model.specs.History.{after, next_entry, IsLegal, IsPossible};
ghost use Rattle.ldm_book.specs.Stands.{StandsFor};
ghost use Rattle.ldm_book.specs.View.{BookView};
ghost use Rattle.ldm_book.specs.Answers.{Follows};
ghost use Rattle.ldm_shared.specs.Rule.{AnswersForAll};
ghost use Rattle.ldm_shared.specs.Steps.{Sees, HasTaken};
ghost use Rattle.ldm_shared.specs.Seats.{IsReady, HasTheTurn, CanCall, IsWorn, IsSame, GoesOn, IsHistory};
ghost use Rattle.ldm_shared.specs.Turns.{IfDone, IfWorn};

use crate::rule::{Add, Called, Look, Say, Take};
use crate::shared::Shared;
use crate::turn::Turn;
use crate::view::View;
use atomic_table::Seat;
use ldm_book::Book;
use ldm_model::histories_append;
use ldm_types::Actor;
use std::hint::spin_loop;
use std::sync::Wait;

/// How many calls a shared queue can have.
pub const MOST_TURNS: u64 = 1 << 62;

// The word that counts calls, and one more while a turn is taken.
const TURNS: usize = 0;

// The word that is 1 where a caller may sleep, on which callers sleep.
const MAY_SLEEP: usize = 1;

/// How many words there are.
pub(crate) const WORDS: usize = 72;

// The first word where it counts so many calls, with no turn taken.
const WORN: u64 = 2 * MOST_TURNS;

// How often a caller looks at a turn that is taken before it sleeps. It looks as often where others sleep: else one
// that slept would have all that meet it sleep, and each be woken by a call of the system.
const LOOKS: u32 = 100;

impl Shared {
    // Sees the history as it is, and answers the word.
    pub(crate) fn see(&self, seat: &mut Seat<Option<Book>, View>) -> u64
        requires { IsReady self.now seat.old }
        ensures same { IsSame seat.old seat.new }
        ensures sees { Sees seat.old.me.0 result seat.new.me.0 }
        ensures idle { (seat.new.me.0.turn ≡ false) × (seat.new.me.1 ≡ []) }
    {
        self.table.shared.load::<Look>(seat, TURNS)
    }

    // Takes the turn, and the slot with the book, if the word is still the one that is given. Answers the word.
    pub(crate) fn try_take(&self, seat: &mut Seat<Option<Book>, View>, word: u64) -> u64
        requires ready { IsReady self.now seat.old }
        requires even { word % 2 ≡ 0 }
        requires room { word + 1 < 2 ^ 64 }
        requires may { (((actor : ℕ) × (seat.old.me.0.actors ≡ actor ∷ [])) × (word < WORN))
            ⊎ AnswersForAll seat.old.me.0 }
        ensures same { IsSame seat.old seat.new }
        ensures sees { Sees seat.old.me.0 result seat.new.me.0 }
        ensures taken { MatchBool (result == word) (HasTaken seat.new.me.0 seat.new.me.1)
            ((seat.new.me.0.turn ≡ false) × (seat.new.me.1 ≡ [])) }
    {
        self.table
            .shared
            .compare_exchange::<Take>(seat, TURNS, word, word + 1)
    }

    // Takes the book out of the slot, which the seat has with the turn.
    pub(crate) fn take_out(&self, seat: &mut Seat<Option<Book>, View>) -> Book
        requires queue { seat.old.table_id ≡ self.now.queue }
        requires taken { HasTaken seat.old.me.0 seat.old.me.1 }
        ensures same { IsSame seat.old seat.new }
        ensures empty { seat.new.me ≡ (seat.old.me.0, (0, None) ∷ []) }
        ensures stands { StandsFor result (after seat.old.me.0.arena seat.old.me.0.slots seat.old.me.0.seen) }
    {
        let Some(book) = self.table.shared.exchange(seat, 0, None) else {
            unreachable!()
        };
        book
    }

    // Whether a caller may sleep, or is about to.
    fn may_sleep(&self) -> bool {
        self.table.shared.peek(MAY_SLEEP) == 1
    }

    // Says that a caller may sleep.
    fn say(&self, seat: &mut Seat<Option<Book>, View>)
        requires queue { seat.old.table_id ≡ self.now.queue }
        ensures same { IsSame seat.old seat.new }
        ensures me { seat.new.me ≡ seat.old.me }
    {
        self.table.shared.store::<Say>(seat, MAY_SLEEP, 1);
    }

    // Whether a caller may sleep, which nobody says any more from then on. Who takes that over wakes one.
    fn take_over(&self, seat: &mut Seat<Option<Book>, View>) -> bool
        requires queue { seat.old.table_id ≡ self.now.queue }
        ensures same { IsSame seat.old seat.new }
        ensures me { seat.new.me ≡ seat.old.me }
    {
        self.may_sleep() && self.table.shared.swap::<Say>(seat, MAY_SLEEP, 0) == 1
    }

    // Says for others that they may sleep still, if this caller slept.
    fn speak(&self, seat: &mut Seat<Option<Book>, View>, slept: bool)
        requires queue { seat.old.table_id ≡ self.now.queue }
        ensures same { IsSame seat.old seat.new }
        ensures me { seat.new.me ≡ seat.old.me }
    {
        if slept {
            self.say(seat);
        }
    }

    // Sleeps, if the turn is still taken, until a wake. It may also return for no reason.
    fn sleep<H: Wait>(&self, rt: &H, seat: &mut Seat<Option<Book>, View>)
        requires queue { seat.old.table_id ≡ self.now.queue }
        ensures same { IsSame seat.old seat.new }
        ensures me { seat.new.me ≡ seat.old.me }
    {
        self.say(seat);
        if self.table.shared.peek(TURNS) % 2 == 1 {
            self.table.shared.park(rt, MAY_SLEEP, 1);
        }
    }

    // Waits for the turn, and takes it with the book.
    //
    // No caller sleeps on while the turn is free. One that goes to sleep first says so, and then sees that the turn is
    // taken; it sleeps only while that is still said. Who gives the turn back makes it unsaid, and wakes one. The
    // caller that is woken speaks for those that sleep still, when it has the turn or sleeps again; until then nobody
    // else is woken. The README has the whole argument.
    pub(crate) fn take<H: Wait>(&self, rt: &H, seat: &mut Seat<Option<Book>, View>) -> Turn<()>
        requires ready { IsReady self.now seat.old }
        requires one { (actor : ℕ) × (seat.old.me.0.actors ≡ actor ∷ []) }
        requires olds { seat.old.me.0.olds ≡ [] }
        ensures same { IsSame seat.old seat.new }
        ensures goes_on { GoesOn seat.old.me.0 seat.new.me.0 × IsHistory seat.new.me.0 }
        ensures taken { IfDone result (λ _. CanCall self.now seat.new) }
        ensures worn { IfWorn result (IsWorn self.now seat.new) }
    {
        let mut looks = 0;
        let mut slept = false;
        for _ in rt.forever() {
            let word = self.see(seat);
            if word >= WORN {
                self.take_over(seat);
                self.table.shared.wake_all(MAY_SLEEP);
                return Turn::Worn { turns: MOST_TURNS };
            }
            if word % 2 == 0 {
                if self.try_take(seat, word) == word {
                    self.speak(seat, slept);
                    return Turn::Done(());
                }
            } else if looks < LOOKS {
                looks += 1;
                spin_loop();
            } else {
                looks = 0;
                slept = true;
                self.sleep(rt, seat);
            }
        }
        unreachable!()
    }

    // Asks the book, which lies in the slot and stays there.
    pub(crate) fn ask<R, F: FnOnce(&mut Book, Actor, &mut [u8]) -> R>(
        &self,
        seat: &mut Seat<Option<Book>, View>,
        actor: Actor,
        into: &mut [u8],
        ask: F,
    ) -> R
        requires turn { (book : BookView) × HasTheTurn self.now seat.old book }
        requires may { F.IsAlwaysCallable ask }
        ensures same { IsSame seat.old seat.new }
        ensures view { seat.new.me.0 ≡ seat.old.me.0 }
        ensures asked { (b : _) × (i : _) × (b' : _) × (i' : _) × F.post ask b actor i result b' i' × (i.now ≡ into.old)
            × (i'.now ≡ into.new)
            × HasTheTurn self.now seat.old b.now × HasTheTurn self.now seat.new b'.now }
    {
        let Some(book) = seat.slot_mut(&self.table.shared, 0) else {
            unreachable!()
        };
        ask(book, actor, into)
    }

    // The same, with a buffer to append to.
    pub(crate) fn ask_onto<R, F: FnOnce(&mut Book, Actor, &mut Vec<u8>) -> R>(
        &self,
        seat: &mut Seat<Option<Book>, View>,
        actor: Actor,
        out: &mut Vec<u8>,
        ask: F,
    ) -> R
        requires turn { (book : BookView) × HasTheTurn self.now seat.old book }
        requires may { (b : _) (actor : _) (o : _) → o.now ≡ out.old → F.pre ask b actor o }
        ensures same { IsSame seat.old seat.new }
        ensures view { seat.new.me.0 ≡ seat.old.me.0 }
        ensures asked { (b : _) × (o : _) × (b' : _) × (o' : _) × F.post ask b actor o result b' o' × (o.now ≡ out.old)
            × (o'.now ≡ out.new)
            × HasTheTurn self.now seat.old b.now × HasTheTurn self.now seat.new b'.now }
    {
        let Some(book) = seat.slot_mut(&self.table.shared, 0) else {
            unreachable!()
        };
        ask(book, actor, out)
    }

    // Ends a call: adds its entry, gives the turn back with the book as the call left it, and wakes one that waits for
    // it.
    fn end<C: Called>(&self, seat: &mut Seat<Option<Book>, View>)
        requires turn { (book : BookView) × HasTheTurn self.now seat.old book
            × StandsFor book (after seat.old.me.0.arena seat.old.me.0.slots (seat.old.me.0.seen ++ C.entry ∷ [])) }
        requires own { seat.old.me.0.actors ≡ C.entry.actor ∷ [] }
        requires few { length seat.old.me.0.seen < MOST_TURNS }
        requires legal { IsLegal seat.old.me.0.arena seat.old.me.0.slots (seat.old.me.0.seen ++ C.entry ∷ []) }
        ensures same { IsSame seat.old seat.new }
        ensures added { seat.new.me
            ≡ (record seat.old.me.0 { seen = seat.old.me.0.seen ++ C.entry ∷ []; turn = false }, []) }
    {
        self.table.shared.fetch_add::<Add<C>>(seat, TURNS, 1);
        if self.take_over(seat) {
            self.table.shared.wake_one(MAY_SLEEP);
        }
    }

    // Ends a call of an actor, whose answer and the buffer that it left are for the proof alone.
    pub(crate) fn give<C: Called, R>(
        &self,
        seat: &mut Seat<Option<Book>, View>,
        actor: Actor,
        answer: &R,
        into: &[u8],
    )
        requires turn { (book : BookView) × HasTheTurn self.now seat.old book
            × Follows C.entry.reply book
            (next_entry (after seat.old.me.0.arena seat.old.me.0.slots seat.old.me.0.seen) C.entry) }
        requires own { seat.old.me.0.actors ≡ C.entry.actor ∷ [] }
        requires few { length seat.old.me.0.seen < MOST_TURNS }
        requires history { IsHistory seat.old.me.0 }
        requires actor { C.entry.actor ≡ actor }
        requires possible { IsPossible C.entry.event }
        ensures same { IsSame seat.old seat.new }
        ensures added { seat.new.me
            ≡ (record seat.old.me.0 { seen = seat.old.me.0.seen ++ C.entry ∷ []; turn = false }, []) }
        ensures history { IsHistory seat.new.me.0 }
    {
        let _ = actor.get();
        let _ = answer;
        let _ = into;
        histories_append();
        self.end::<C>(seat);
    }
}
