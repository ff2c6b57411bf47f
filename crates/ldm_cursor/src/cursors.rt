//! The cursors of a queue.
ghost use Rattle.std.specs.Prelude.{◌≡◌, ℕ, ◌^◌, ◌<◌, ◌≤◌, ◌↔◌, IsTrue, IsSome, IsSomeAnd, IfOk};
ghost use Rattle.std.specs.Prelude.{IfSome, MatchOption, None, drop, length, map, replicate};
ghost use Rattle.std.specs.List.{All};
ghost use Rattle.std.specs.Option.{option_map};
ghost use Rattle.ldm_cursor.specs.Kept.{AreMarked, IsKept, kept_of, mark_of, place_of, places_of};
ghost use Rattle.ldm_cursor.specs.Places.{CountsBelow, after_hold, after_move, after_release, after_tell, count_held};
ghost use Rattle.ldm_cursor.specs.Places.{cursor_at, held_at, held_of, is_held, is_last_hold, least_empty, new_cursor};
ghost use Rattle.ldm_cursor.specs.Places.{numbers_of, with_change, with_cursor, with_loss, without_cursor};

use crate::cursor::Cursor;
use crate::marks::Marks;
use ldm_types::{Actor, CursorNo, Feed, OutOfMemory};
use std::alloc::Global;
use std::marker::Model;

/// The 64 cursor places of a queue, each empty or with an open cursor.
///
/// A cursor is the place in the queue that one reader has come to. It belongs to an actor, is for a set of
/// feedtypes, has a position, the least number that it may still be given, and may hold one product at a time. It
/// keeps count of the products that it was given and of those that it lost: those that left the queue before they
/// were given. Of the losses that the reader was not told yet it keeps how many there are, and the least and the
/// greatest number.
#[derive(Drop)]
pub struct Cursors {
    places: Vec<Option<Cursor>>,
    // The places that have a cursor.
    taken: Marks,
    // The places whose cursor holds a product.
    holding: Marks,
}

impl Model for Cursors {
    ghost use Rattle.ldm_types.specs.Cursors.{Places};
    ghost use Rattle.ldm_cursor.specs.Kept.{places_of, IsKept};

    ghost Value = { Places };

    ghost view = { λ cursors. places_of cursors.places.items };

    ghost invariant = { λ cursors. IsKept (places_of cursors.places.items) cursors.taken.bits cursors.holding.bits };
}

impl Cursors {
    /// 64 empty places, all of whose memory is taken here. An error only where there is too little of it.
    pub fn create(alloc: Global) -> Result<Cursors, OutOfMemory>
        ensures { IfOk result (λ cursors. cursors ≡ replicate CursorNo.COUNT None) }
    {
        let mut places = Vec::with_capacity(alloc, CursorNo::COUNT as usize)?;
        places.resize(CursorNo::COUNT as usize, None)?;
        Ok(Cursors {
            places,
            taken: Marks::none(),
            holding: Marks::none(),
        })
    }

    /// Opens a cursor at the least empty place, and answers which it is. `None` exactly where all places are
    /// taken; nothing changes then.
    pub fn seat(&mut self, actor: Actor, feed: Feed, position: u64) -> Option<CursorNo>
        ensures place { result ≡ least_empty self.old }
        ensures seated { MatchOption result (self.new ≡ self.old)
            (λ k. self.new ≡ with_cursor self.old k (new_cursor actor feed.0 position)) }
        ensures many { length self.new ≡ CursorNo.COUNT }
    {
        let k = self.taken.first_unmarked()?;
        self.places[k.get() as usize] = Some(Cursor::new(actor, feed, position));
        self.taken.mark(k);
        Some(k)
    }

    /// Whether all places are taken.
    pub fn is_full(&self) -> bool
        ensures full { IsTrue result ↔ (least_empty self.now ≡ None) }
    {
        match self.taken.first_unmarked() {
            Some(_) => false,
            None => true,
        }
    }

    /// Whether a cursor holds the product of that number.
    pub fn holds(&self, n: u64) -> bool
        ensures { result ≡ is_held n self.now }
    {
        any_holds(self.holders(), n)
    }

    /// The number of the product that the cursor of a place holds. `None` where the place is empty, too.
    pub fn held_at(&self, k: CursorNo) -> Option<u64>
        ensures held { result ≡ held_at self.now k }
        ensures many { length self.now ≡ CursorNo.COUNT }
    {
        match &self.places[k.get() as usize] {
            Some(cursor) => cursor.held,
            None => None,
        }
    }

    /// How many products are held, each counted once.
    pub fn count_held(&self) -> u64
        ensures count { result ≡ count_held self.now }
        ensures many { length self.now ≡ CursorNo.COUNT }
    {
        count_last_holds(self.holders())
    }

    /// The least number from which on no place has a cursor that holds a product.
    pub fn held_end(&self) -> u32
        ensures bound { result ≤ CursorNo.COUNT }
        ensures free { All (λ place. held_of place ≡ None) (drop result self.now) }
        ensures many { length self.now ≡ CursorNo.COUNT }
    {
        self.holding.end()
    }

    /// The product of that number and feed left the queue: counts it as lost at each cursor that it was still to
    /// come to, which is at or before it and has a feedtype of it.
    pub fn lose(&mut self, n: u64, feed: Feed)
        requires number { n < 2 ^ 63 }
        requires counts { CountsBelow (2 ^ 63) self.old }
        ensures lost { self.new ≡ map (with_loss n feed.0) self.old }
        ensures many { length self.new ≡ CursorNo.COUNT }
    {
        lose_each(&mut self.places, self.taken, n, feed);
    }

    /// Whether a place is open and its cursor is that actor's.
    pub fn owned(&self, actor: Actor, k: CursorNo) -> bool
        ensures owned { IsTrue result ↔ IsSomeAnd (cursor_at self.now k) (λ cursor. cursor.actor ≡ actor) }
        ensures many { length self.now ≡ CursorNo.COUNT }
    {
        match &self.places[k.get() as usize] {
            Some(cursor) => cursor.actor == actor,
            None => false,
        }
    }

    /// The least number that a cursor may still be given.
    pub fn position(&self, k: CursorNo) -> u64
        requires { IsSome (cursor_at self.now k) }
        ensures value { IfSome (cursor_at self.now k) (λ cursor. result ≡ cursor.position) }
        ensures many { length self.now ≡ CursorNo.COUNT }
    {
        self.cursor(k).position
    }

    /// The feedtypes that a cursor is for.
    pub fn feed(&self, k: CursorNo) -> Feed
        requires { IsSome (cursor_at self.now k) }
        ensures value { IfSome (cursor_at self.now k) (λ cursor. result.0 ≡ cursor.feed) }
        ensures many { length self.now ≡ CursorNo.COUNT }
    {
        self.cursor(k).feed
    }

    /// The number of the product that a cursor holds. `None` exactly where it holds none.
    pub fn held(&self, k: CursorNo) -> Option<u64>
        requires { IsSome (cursor_at self.now k) }
        ensures value { IfSome (cursor_at self.now k) (λ cursor. result ≡ cursor.held) }
        ensures many { length self.now ≡ CursorNo.COUNT }
    {
        self.cursor(k).held
    }

    /// How many products a cursor was given, and how many it lost, told or not.
    pub fn counts(&self, k: CursorNo) -> (u64, u64)
        requires { IsSome (cursor_at self.now k) }
        ensures value { IfSome (cursor_at self.now k) (λ cursor. result ≡ (cursor.given, cursor.lost)) }
        ensures many { length self.now ≡ CursorNo.COUNT }
    {
        let cursor = self.cursor(k);
        (cursor.given, cursor.lost)
    }

    /// Gives a cursor that holds nothing the product of that number: it holds it, and goes on behind it.
    pub fn hold(&mut self, k: CursorNo, n: u64)
        requires number { n < 2 ^ 63 }
        requires counts { CountsBelow (2 ^ 63) self.old }
        requires opened { IsSome (cursor_at self.old k) }
        requires free { IfSome (cursor_at self.old k) (λ cursor. cursor.held ≡ None) }
        requires reached { IfSome (cursor_at self.old k) (λ cursor. cursor.position ≤ n) }
        ensures held { self.new ≡ with_change self.old k (after_hold n) }
        ensures many { length self.new ≡ CursorNo.COUNT }
    {
        let Some(cursor) = &mut self.places[k.get() as usize] else {
            unreachable!()
        };
        cursor.hold(n);
        self.holding.mark(k);
    }

    /// Ends the hold of a cursor, and answers the number of the product that it held. `None` exactly where it
    /// held none.
    pub fn let_go(&mut self, k: CursorNo) -> Option<u64>
        requires { IsSome (cursor_at self.old k) }
        ensures value { IfSome (cursor_at self.old k) (λ cursor. result ≡ cursor.held) }
        ensures released { self.new ≡ with_change self.old k after_release }
        ensures many { length self.new ≡ CursorNo.COUNT }
    {
        let Some(cursor) = &mut self.places[k.get() as usize] else {
            unreachable!()
        };
        let held = cursor.let_go();
        self.holding.unmark(k);
        held
    }

    /// How many losses of a cursor were not told yet, and the least and the greatest of their numbers. They are
    /// told from now on. `None` exactly where there are none.
    pub fn tell(&mut self, k: CursorNo) -> Option<(u64, u64, u64)>
        requires { IsSome (cursor_at self.old k) }
        ensures value { IfSome (cursor_at self.old k) (λ cursor. result ≡ option_map numbers_of cursor.untold) }
        ensures told { self.new ≡ with_change self.old k after_tell }
        ensures many { length self.new ≡ CursorNo.COUNT }
    {
        let Some(cursor) = &mut self.places[k.get() as usize] else {
            unreachable!()
        };
        cursor.tell()
    }

    /// Moves a cursor on to that number.
    pub fn to_end(&mut self, k: CursorNo, at: u64)
        requires opened { IsSome (cursor_at self.old k) }
        requires ahead { IfSome (cursor_at self.old k) (λ cursor. cursor.position ≤ at) }
        ensures moved { self.new ≡ with_change self.old k (after_move at) }
        ensures many { length self.new ≡ CursorNo.COUNT }
    {
        let Some(cursor) = &mut self.places[k.get() as usize] else {
            unreachable!()
        };
        cursor.position = at;
    }

    /// Closes a cursor: its place is empty.
    pub fn leave(&mut self, k: CursorNo)
        requires { IsSome (cursor_at self.old k) }
        ensures left { self.new ≡ without_cursor self.old k }
        ensures many { length self.new ≡ CursorNo.COUNT }
    {
        self.places[k.get() as usize] = None;
        self.taken.unmark(k);
        self.holding.unmark(k);
    }

    /// The places up to the last whose cursor holds a product: none behind them does.
    fn holders(&self) -> &[Option<Cursor>]
        ensures held { (n : ℕ) → is_held n (places_of result.now) ≡ is_held n self.now }
        ensures count { count_held (places_of result.now) ≡ count_held self.now }
        ensures many { length self.now ≡ CursorNo.COUNT }
    {
        &self.places[..self.holding.end() as usize]
    }

    /// The cursor of an open place.
    fn cursor(&self, k: CursorNo) -> &Cursor
        requires { IsSome (cursor_at self.now k) }
        ensures at { cursor_at self.now k ≡ Some (kept_of result.now) }
        ensures many { length self.now ≡ CursorNo.COUNT }
    {
        let Some(cursor) = &self.places[k.get() as usize] else {
            unreachable!()
        };
        cursor
    }
}

/// Whether one of these cursors holds the product of that number.
fn any_holds(places: &[Option<Cursor>], n: u64) -> bool
    ensures { result ≡ is_held n (places_of places.now) }
{
    for place in places {
        if let Some(cursor) = place
            && cursor.held == Some(n)
        {
            return true;
        }
    }
    false
}

/// Whether a cursor holds a product that none of those behind it holds.
fn is_last_hold(place: &Option<Cursor>, behind: &[Option<Cursor>]) -> bool
    ensures { result ≡ is_last_hold (held_of (place_of place.now)) (places_of behind.now) }
{
    match place {
        Some(cursor) => match cursor.held {
            Some(n) => !any_holds(behind, n),
            None => false,
        },
        None => false,
    }
}

/// How many products these cursors hold, each counted once.
fn count_last_holds(places: &[Option<Cursor>]) -> u64
    ensures { result ≡ count_held (places_of places.now) }
{
    let mut count = 0;
    for (k, place) in places.iter().enumerate() {
        if is_last_hold(place, &places[k + 1..]) {
            count += 1;
        }
    }
    count
}

/// Counts the product of that number and feed as lost at each cursor that it was still to come to.
fn lose_each(places: &mut [Option<Cursor>], taken: Marks, n: u64, feed: Feed)
    requires many { length places.old ≡ CursorNo.COUNT }
    requires marked { AreMarked mark_of (places_of places.old) taken.bits }
    requires counts { CountsBelow (2 ^ 63) (places_of places.old) }
    ensures { places_of places.new ≡ map (with_loss n feed.0) (places_of places.old) }
{
    let mut left = taken;
    while let Some(k) = left.take_first() {
        if let Some(cursor) = &mut places[k.get() as usize] {
            cursor.lose(n, feed);
        }
    }
}
