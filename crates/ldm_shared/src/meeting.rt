//! Passes that meet, and the end of a shared queue.
ghost use Rattle.std.specs.Prelude.{◌≡◌, ◌<◌, ◌++◌};
ghost use Rattle.std.specs.List.{All};
ghost use Rattle.std.specs.Vec.{vec_len};
ghost use mathlib.Core.List.{IsPrefix};
ghost use Rattle.ldm_model.specs.History.{after};
ghost use Rattle.ldm_book.specs.Stands.{StandsFor};
ghost use Rattle.ldm_shared.specs.Passes.{IsPassOf, HasMet, AreInLine, AreAllOf, IsLast, HasAllOf};
ghost use Rattle.ldm_shared.specs.Seats.{IsReady, IsSame, IsHistory, GoesOn, Gathers, HasGathered, IsSized};

use crate::pass::Pass;
use crate::rule::{Gather, Note};
use crate::shared::Shared;
use crate::view::View;
use atomic_table::Seat;
use ldm_book::Book;
use ldm_types::Actor;

impl Shared {
    // A seat takes in another one, and looks.
    fn gather(&self, seat: &mut Seat<Option<Book>, View>, other: Seat<Option<Book>, View>)
        requires ready { IsReady self.now seat.old }
        requires other { IsReady self.now other }
        ensures same { IsSame seat.old seat.new }
        ensures ready { IsReady self.now seat.new }
        ensures gathers { Gathers seat.old.me.0 other.me.0 seat.new.me.0 }
        ensures history { IsHistory seat.new.me.0 }
    {
        self.table.shared.join_seat::<Gather>(seat, other);
        self.see(seat);
    }

    // A seat sees all that another one has seen.
    fn learn(&self, seat: &mut Seat<Option<Book>, View>, other: &mut Seat<Option<Book>, View>)
        requires ready { IsReady self.now seat.old }
        requires other { IsReady self.now other.old }
        ensures same { IsSame seat.old seat.new }
        ensures ready { IsReady self.now seat.new }
        ensures goes_on { GoesOn seat.old.me.0 seat.new.me.0 }
        ensures history { IsHistory seat.new.me.0 }
        ensures its { IsPrefix other.old.me.0.seen seat.new.me.0.seen }
        ensures kept { IsSame other.old other.new × (other.new.me ≡ other.old.me) }
    {
        let note = self.table.shared.split_seat::<Note>(other);
        self.gather(seat, note);
    }

    /// Two passes meet: afterwards each has seen all that either had seen. It waits for nobody.
    pub fn meet(&self, a: &mut Pass, b: &mut Pass)
        requires a { IsPassOf self.now a.old }
        requires b { IsPassOf self.now b.old }
        ensures a { HasMet a.old b.old a.new }
        ensures b { HasMet b.old a.old b.new }
        ensures in_line { AreInLine a.new.seen b.new.seen }
    {
        self.learn(&mut a.seat, &mut b.seat);
        self.learn(&mut b.seat, &mut a.seat);
    }

    // Takes all passes into one seat, which answers for the actors of all.
    fn gather_all(&self, mut passes: Vec<Pass>) -> (Actor, Seat<Option<Book>, View>)
        requires of { All (IsPassOf self.now) passes.items }
        requires some { 0 < vec_len passes }
        ensures ready { IsReady self.now result.1 }
        ensures sized { IsSized self.now result.1.me.0 }
        ensures all { All (HasGathered result.1.me.0) passes.items }
    {
        let Some(last) = passes.pop() else {
            unreachable!()
        };
        let Pass { actor, mut seat } = last;
        while let Some(pass) = passes.pop() {
            let Pass {
                actor: _,
                seat: other,
            } = pass;
            self.gather(&mut seat, other);
        }
        (actor, seat)
    }

    /// Ends the queue, once all its passes are back. The pass that is left has seen the whole history, and the book
    /// stands for the state after it.
    pub fn finish(self, passes: Vec<Pass>) -> (Book, Pass)
        requires { AreAllOf self passes.items }
        ensures last { IsLast self result.1 }
        ensures all { All (HasAllOf result.1) passes.items }
        ensures stands { StandsFor result.0 (after self.arena self.slots result.1.seen) }
    {
        let _ = &self.table;
        let (actor, mut seat) = self.gather_all(passes);
        let word = self.see(&mut seat);
        self.try_take(&mut seat, word);
        let book = self.take_out(&mut seat);
        (book, Pass { actor, seat })
    }
}
