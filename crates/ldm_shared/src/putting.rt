//! What an actor put in last, which others may ask.
ghost use Rattle.std.specs.Prelude.{◌≡◌, ◌+◌, ◌<◌, ◌^◌, ℕ, [], false, IfSome};
ghost use Rattle.ldm_model.specs.Answers.{commit_answer, insert_answer, reserve_answer};
ghost use Rattle.ldm_shared.specs.Passes.{IsPassOf, IsSamePass, Makes};
ghost use Rattle.ldm_shared.specs.Putting.{HasPut, NamesPut};
ghost use Rattle.ldm_shared.specs.Seats.{IsReady, IsSame};
ghost use Rattle.ldm_shared.specs.Steps.{Sees};

use crate::pass::Pass;
use crate::rule::{LookAtPut, Say};
use crate::shared::Shared;
use crate::view::View;
use atomic_table::Seat;
use ldm_book::Book;
use ldm_model::{CommitReply, InsertReply, ReserveReply};
use ldm_types::Actor;

// Where the words of the actors begin. Those between are not used: the first two are written by all, and share no line
// of memory with these.
const PUTS: usize = 8;

impl Shared {
    /// The number of the product that an actor put in last, or found queued, as far as it has told: each tells it behind
    /// its call. It takes no turn, and waits for nobody.
    pub fn last_put(&self, pass: &mut Pass, actor: Actor) -> Option<u64>
        requires { IsPassOf self.now pass.old }
        ensures kept { IsSamePass pass.old pass.new }
        ensures made { Makes pass.old pass.new [] }
        ensures put { IfSome result (HasPut actor pass.new.seen) }
    {
        let word = self.see_put(&mut pass.seat, actor);
        if word == 0 { None } else { Some(word - 1) }
    }

    // Tells which product a call of a pass put in, or found queued, if it did.
    pub(crate) fn tell_of(&self, pass: &mut Pass, n: Option<u64>)
        requires of { IsPassOf self.now pass.old }
        requires put { IfSome n (HasPut pass.old.actor pass.old.seen) }
        ensures same { pass.new ≡ pass.old }
    {
        match n {
            Some(n) if n < u64::MAX => self.tell_put(&mut pass.seat, pass.actor, n),
            _ => {}
        }
    }

    // Sees the history as it is, and answers the word of an actor: one more than the number of the product that it put in
    // last, or found queued, as far as it has told.
    fn see_put(&self, seat: &mut Seat<Option<Book>, View>, actor: Actor) -> u64
        requires { IsReady self.now seat.old }
        ensures same { IsSame seat.old seat.new }
        ensures sees { (word : ℕ) × Sees seat.old.me.0 word seat.new.me.0 }
        ensures idle { (seat.new.me.0.turn ≡ false) × (seat.new.me.1 ≡ []) }
        ensures put { (n : ℕ) → result ≡ n + 1 → HasPut actor seat.new.me.0.seen n }
    {
        self.table
            .shared
            .load::<LookAtPut>(seat, PUTS + actor.get() as usize)
    }

    // Tells which product an actor put in, or found queued.
    fn tell_put(&self, seat: &mut Seat<Option<Book>, View>, actor: Actor, n: u64)
        requires queue { seat.old.table_id ≡ self.now.queue }
        requires passes { 0 < seat.old.me.0.passes }
        requires small { n + 1 < 2 ^ 64 }
        requires put { HasPut actor seat.old.me.0.seen n }
        ensures same { IsSame seat.old seat.new }
        ensures me { seat.new.me ≡ seat.old.me }
    {
        self.table
            .shared
            .store::<Say>(seat, PUTS + actor.get() as usize, n + 1);
    }
}

/// The number of the product that was put in, or was found queued.
pub(crate) fn put_by_insert(reply: &InsertReply) -> Option<u64>
    ensures { IfSome result (NamesPut (insert_answer reply.now)) }
{
    match reply {
        InsertReply::Admitted { n, .. } => Some(*n),
        InsertReply::Duplicate { n } => Some(*n),
        _ => None,
    }
}

/// The number of the product that was found queued.
pub(crate) fn put_by_reserve(reply: &ReserveReply) -> Option<u64>
    ensures { IfSome result (NamesPut (reserve_answer reply.now)) }
{
    match reply {
        ReserveReply::Duplicate { n } => Some(*n),
        _ => None,
    }
}

/// The number of the product that was put in, or was found queued.
pub(crate) fn put_by_commit(reply: &CommitReply) -> Option<u64>
    ensures { IfSome result (NamesPut (commit_answer reply.now)) }
{
    match reply {
        CommitReply::Committed { n, .. } => Some(*n),
        CommitReply::Duplicate { n } => Some(*n),
        _ => None,
    }
}
