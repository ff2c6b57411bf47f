//! An index of products by number and by instant.
ghost use Rattle.std.specs.Prelude.{◌≡◌, ◌<◌, ◌≤◌, ◌++◌, ◌∷◌, [], ◌==◌, not, length, slice_get, IfOk};
ghost use Rattle.std.specs.List.{All, Any, filter, find, position_or_len};
ghost use Rattle.std.specs.Option.{option_map};
ghost use Rattle.ldm_timeindex.specs.Kept.{all_queued, reaches};
ghost use Rattle.ldm_timeindex.specs.Times.{IsRising, at_number, behind_time, number_and_slot};

use crate::bound::Bound;
use crate::entry::Entry;
use crate::ring::Ring;
use ldm_types::{Micros, OutOfMemory};
use std::alloc::Global;
use std::marker::Model;

/// The products of a queue in the order in which they came in, with room for a fixed number.
///
/// Both the numbers and the instants strictly rise, so a product that comes behind another in the one comes behind
/// it in the other.
#[derive(Drop)]
pub struct TimeIndex {
    ring: Ring,
}

impl Model for TimeIndex {
    ghost use Rattle.ldm_timeindex.specs.Times.{Times, IsRising};

    ghost Value = { Times };

    ghost use Rattle.ldm_timeindex.specs.Kept.{all_queued};

    ghost view = { λ t. record { slots = t.ring.room; entries = all_queued t.ring.entries } };

    ghost invariant = { λ t. IsRising (all_queued t.ring.entries) };
}

impl TimeIndex {
    /// An empty index with room for that many products, all of whose memory is taken here.
    pub fn create(alloc: Global, slots: u32) -> Result<TimeIndex, OutOfMemory>
        ensures { IfOk result (λ t. t ≡ record { slots = slots; entries = [] }) }
    {
        Ok(TimeIndex {
            ring: Ring::create(alloc, slots)?,
        })
    }

    /// Puts a product in behind all that are in. Its number and its instant are the greatest so far.
    pub fn push(&mut self, n: u64, time: Micros, slot: u32)
        requires room { length self.old.entries < self.old.slots }
        requires later { All (λ e. (e.n < n) × (e.time < time)) self.old.entries }
        ensures slots { self.new.slots ≡ self.old.slots }
        ensures entries { self.new.entries ≡ self.old.entries ++ record { n = n; time = time; slot = slot } ∷ [] }
        ensures rising { IsRising self.new.entries }
    {
        self.ring.push(Entry { n, time, slot });
    }

    /// Takes the product of that number out.
    pub fn take_out(&mut self, n: u64)
        requires { Any (λ e. e.n ≡ n) self.old.entries }
        ensures slots { self.new.slots ≡ self.old.slots }
        ensures entries { self.new.entries ≡ filter (λ e. not (e.n == n)) self.old.entries }
        ensures rising { IsRising self.new.entries }
    {
        let index = index_of(&self.ring, &Bound::AtLeast(n));
        self.ring.remove(index);
    }

    /// The number and the slot of the first product of at least that number. `None` exactly where there is none.
    pub fn first_at(&self, n: u64) -> Option<(u64, u32)>
        ensures first { result ≡ option_map number_and_slot (find (at_number n) self.now.entries) }
        ensures rising { IsRising self.now.entries }
    {
        first_reached(&self.ring, &Bound::AtLeast(n))
    }

    /// The number and the slot of the first product that came in later than that. `None` exactly where there is
    /// none.
    pub fn first_after(&self, time: Micros) -> Option<(u64, u32)>
        ensures first { result ≡ option_map number_and_slot (find (behind_time time) self.now.entries) }
        ensures rising { IsRising self.now.entries }
    {
        first_reached(&self.ring, &Bound::LaterThan(time))
    }

    /// The number and the slot of the product that so many are in front of. `None` exactly where no more are in.
    pub fn at(&self, index: u32) -> Option<(u64, u32)>
        ensures at { result ≡ option_map number_and_slot (slice_get self.now.entries index) }
        ensures rising { IsRising self.now.entries }
    {
        entry_at(&self.ring, index as usize)
    }
}

/// The number and the slot of the entry that so many stand before.
fn entry_at(ring: &Ring, index: usize) -> Option<(u64, u32)>
    ensures { result ≡ option_map number_and_slot (slice_get (all_queued ring.now.entries) index) }
{
    if index >= ring.len() {
        return None;
    }
    let entry = ring.get(index);
    Some((entry.n, entry.slot))
}

/// The number and the slot of the first entry that reaches a bound.
fn first_reached(ring: &Ring, bound: &Bound) -> Option<(u64, u32)>
    requires { IsRising (all_queued ring.now.entries) }
    ensures { result ≡ option_map number_and_slot (find (reaches bound.now) (all_queued ring.now.entries)) }
{
    let index = index_of(ring, bound);
    if index < ring.len() {
        let entry = ring.get(index);
        Some((entry.n, entry.slot))
    } else {
        None
    }
}

/// How many entries stand before the first that reaches a bound.
fn index_of(ring: &Ring, bound: &Bound) -> usize
    requires { IsRising (all_queued ring.now.entries) }
    ensures { result ≡ position_or_len (reaches bound.now) (all_queued ring.now.entries) }
{
    let expected = expected_at(ring, bound);
    let mut looks = 0u8;
    let mut low = 0;
    let mut high = ring.len();
    while low < high {
        let middle = place_to_look(low, high, expected, looks);
        looks = looks.saturating_add(1);
        if bound.is_reached(&ring.get(middle)) {
            high = middle;
        } else {
            low = middle + 1;
        }
    }
    low
}

/// Where the first entry of at least a number stands if no number is missing from there on: mostly none is, since the
/// oldest products are evicted first. It is a guess.
fn expected_at(ring: &Ring, bound: &Bound) -> usize {
    let Bound::AtLeast(n) = bound else {
        return usize::MAX;
    };
    let Some(last) = ring.len().checked_sub(1) else {
        return 0;
    };
    let newest = ring.get(last).n;
    let behind = newest.saturating_sub(*n);
    last.saturating_sub(behind as usize)
}

/// Where to look between two places: first where an entry is expected, then before it, and from then on in the middle.
fn place_to_look(low: usize, high: usize, expected: usize, looks: u8) -> usize
    requires { low < high }
    ensures from { low ≤ result }
    ensures to { result < high }
{
    let guess = match looks {
        0 => expected,
        1 => expected.saturating_sub(1),
        _ => usize::MAX,
    };
    if low <= guess && guess < high {
        guess
    } else {
        low + (high - low) / 2
    }
}
