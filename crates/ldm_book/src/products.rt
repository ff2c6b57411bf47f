//! The products and the reservations of a queue, each in a slot of its own.
ghost use Rattle.std.specs.Prelude.{◌≡◌, ◌%◌, ◌+◌, ◌^◌, ◌<◌, ◌≤◌, ℕ, count_by, None, Some, [], is_none, is_some};
ghost use Rattle.std.specs.Prelude.{length, map, position, replicate, slice_get, if◌then◌else◌, ◌↔◌};
ghost use Rattle.std.specs.Prelude.{IfOk, IfSome, IsSome, IsTrue, MatchOption};
ghost use Rattle.std.specs.List.{All, Any, find};
ghost use Rattle.std.specs.Option.{option_map};
ghost use Rattle.ldm_types.specs.Arena.{gaps, longest};
ghost use Rattle.ldm_model.specs.Product.{extent_of};
ghost use Rattle.ldm_model.specs.Stat.{extents};
ghost use Rattle.ldm_model.specs.Answers.{look_answer};
ghost use Rattle.ldm_book.specs.Lookup.{kept_with, look_kept};
ghost use Rattle.ldm_book.specs.Products.{at_number, awaits, committed, is_later, kept_number};
ghost use Rattle.ldm_book.specs.Products.{AreRising, LieApart, occupied_in, reservation_at, room_for, taken_in};
ghost use Rattle.ldm_book.specs.Products.{with_more, with_reservation, with_row, without};
ghost use Rattle.ldm_book.specs.Making.{new_reservation};
ghost use Rattle.ldm_book.specs.Reserved.{kept_place, reservation_of};
ghost use Rattle.ldm_book.specs.RowKept.{row_kept};
ghost use Rattle.ldm_book.specs.View.{Kept, KeptReservation, kept_of, open_kept};

use crate::reservations::{Place, Reservations};
use crate::restoring::RowNote;
use crate::row::{Row, extent};
use ldm_model::{LookReply, ReserveNo};
use ldm_regions::Regions;
use ldm_sigindex::SigIndex;
use ldm_timeindex::TimeIndex;
use ldm_types::{
    ARENA_UNIT, Actor, Feed, Info, LARGEST_ARENA, MOST_SLOTS, Micros, OutOfMemory, SMALLEST_ARENA,
    Signature,
};
use std::alloc::Global;
use std::marker::Model;

/// The products that are queued, in the order of their numbers, and the reservations. Each has a slot, and its region
/// in the arena is owned by that slot.
///
/// `create` takes all memory; the other calls take none, and do not walk over the slots.
#[derive(Drop)]
pub(crate) struct Products {
    // A slot that has no product keeps the row of the last one that it had.
    slots: Vec<Row>,
    // The slots that have no product. The last of them is the next to get one.
    free: Vec<u32>,
    regions: Regions,
    by_signature: SigIndex,
    by_number: TimeIndex,
    // The sum of the extents of both.
    used: u64,
    reserved: Reservations,
}

impl Model for Products {
    ghost use Rattle.ldm_book.specs.Products.{ProductsView};

    ghost Value = { ProductsView };

    ghost use Rattle.ldm_book.specs.Slots.{products_of, IsSlotted};

    ghost view = { products_of };

    ghost invariant = { IsSlotted };
}

impl Products {
    ghost use Rattle.ldm_book.specs.Restoring.{IsPlaceable, SignaturesDiffer, TimesAreRising, note_of};

    /// No products, with all the memory that they will ever take but the arena's. An error only where there is
    /// too little of it. The key is that of the signatures' index.
    pub(crate) fn create(
        alloc: Global,
        arena: u64,
        slots: u32,
        key: u64,
    ) -> Result<Products, OutOfMemory>
        requires whole { arena % ARENA_UNIT ≡ 0 }
        requires least { SMALLEST_ARENA ≤ arena }
        requires greatest { arena ≤ LARGEST_ARENA }
        requires slots { slots ≤ MOST_SLOTS }
        ensures { IfOk result
            (λ products. products
            ≡ record { arena = arena; slots = slots; rows = []; reservations = replicate ReserveNo.COUNT None }) }
    {
        let mut free = Vec::with_capacity(alloc, slots as usize)?;
        for behind in 0..slots {
            free.push(slots - 1 - behind)?;
        }
        Ok(Products {
            slots: vec![in alloc; Row::unused(); slots as usize]?,
            free,
            regions: Regions::create(alloc, arena, slots)?,
            by_signature: SigIndex::create_keyed(alloc, slots, key)?,
            by_number: TimeIndex::create(alloc, slots)?,
            used: 0,
            reserved: Reservations::create(alloc)?,
        })
    }

    /// How many products there are.
    pub(crate) fn len(&self) -> u64
        ensures count { result ≡ length self.now.rows }
        ensures few { result ≤ MOST_SLOTS }
    {
        (self.slots.len() - self.free.len()) as u64 - self.reserved.count()
    }

    /// The sum of the extents of the products and of the open reservations, in bytes.
    pub(crate) fn used(&self) -> u64
        ensures { result ≡ extents (occupied_in self.now) }
    {
        self.used
    }

    /// The extent of the longest gap between them, in bytes, 0 where there is none.
    pub(crate) fn largest_free(&self) -> u64
        ensures { result ≡ longest (gaps (occupied_in self.now) self.now.arena) }
    {
        self.regions.largest()
    }

    /// Whether a slot is free and a gap has so many bytes.
    pub(crate) fn has_room(&self, need: u64) -> bool
        requires { 0 < need }
        ensures { result ≡ is_some (room_for self.now need) }
    {
        !self.free.is_empty() && need <= self.regions.largest()
    }

    /// The product of that signature, if there is one.
    pub(crate) fn look(&self, signature: &Signature) -> LookReply
        ensures { look_answer result ≡ look_kept (kept_with signature.now.0 self.now.rows) }
    {
        let Some(slot) = self.by_signature.find(signature) else {
            return LookReply::Absent;
        };
        let row = &self.slots[slot as usize];
        LookReply::Queued {
            n: row.n,
            time: row.time,
        }
    }

    /// The number of the first product of at least that number. `None` exactly where there is none.
    pub(crate) fn first_at(&self, n: u64) -> Option<u64>
        ensures first { result ≡ option_map kept_number (find (at_number n) self.now.rows) }
        ensures rising { AreRising self.now.rows }
        ensures apart { LieApart self.now.arena (occupied_in self.now) }
    {
        match self.by_number.first_at(n) {
            Some((found, _)) => Some(found),
            None => None,
        }
    }

    /// The product of at least that number, of these the first. `None` exactly where there is none.
    pub(crate) fn first_row(&self, n: u64) -> Option<&Row>
        ensures first { option_map row_kept result ≡ find (at_number n) self.now.rows }
        ensures rising { AreRising self.now.rows }
    {
        let (_, slot) = self.by_number.first_at(n)?;
        Some(&self.slots[slot as usize])
    }

    /// The number of the first product that was inserted later than that. `None` exactly where there is none.
    pub(crate) fn first_after(&self, time: Micros) -> Option<u64>
        ensures { result ≡ option_map kept_number (find (is_later time) self.now.rows) }
    {
        match self.by_number.first_after(time) {
            Some((found, _)) => Some(found),
            None => None,
        }
    }

    /// The first product of at least that number whose feedtypes meet these. `None` exactly where there is none.
    pub(crate) fn first_meeting(&self, n: u64, feed: Feed) -> Option<&Row>
        requires { All (λ k. k.number < 2 ^ 63) self.now.rows }
        ensures { option_map row_kept result ≡ find (awaits n feed.0) self.now.rows }
    {
        let mut at = n;
        while let Some(row) = self.first_row(at) {
            if feed.meets(row.feed) {
                return Some(row);
            }
            at = row.n + 1;
        }
        None
    }

    /// How many products have at least that number and feedtypes that meet these.
    pub(crate) fn count_meeting(&self, n: u64, feed: Feed) -> u64
        requires { All (λ k. k.number < 2 ^ 63) self.now.rows }
        ensures { result ≡ count_by (awaits n feed.0) self.now.rows }
    {
        let mut count = 0;
        let mut at = n;
        while let Some(row) = self.first_row(at) {
            if feed.meets(row.feed) {
                count += 1;
            }
            at = row.n + 1;
        }
        count
    }

    /// What is noted of the product that so many are in front of. `None` exactly where there are no more.
    pub(crate) fn note_at(&self, i: u32) -> Option<RowNote>
        ensures { result ≡ slice_get (map note_of self.now.rows) i }
    {
        let (_, slot) = self.by_number.at(i)?;
        let row = &self.slots[slot as usize];
        Some(RowNote {
            n: row.n,
            time: row.time,
            place: row.place,
        })
    }

    /// How many slots there are.
    pub(crate) fn slots(&self) -> u64
        ensures slots { result ≡ self.now.slots }
        ensures few { length self.now.rows ≤ self.now.slots }
        ensures times { TimesAreRising self.now.rows }
        ensures differ { SignaturesDiffer self.now.rows }
    {
        self.slots.len() as u64
    }

    /// Puts a product in behind all others: into a free slot, at the start of the shortest gap that is long enough,
    /// the lowest where several are equally short. Answers where it begins. `None` exactly where no slot is free or
    /// no gap is long enough.
    pub(crate) fn put(&mut self, info: &Info, n: u64, time: Micros) -> Option<u64>
        requires absent { kept_with info.now.signature self.old.rows ≡ None }
        requires later { All (λ k. (k.number < n) × (k.time < time)) self.old.rows }
        ensures place { result ≡ room_for self.old (extent_of info.now) }
        ensures within { MatchOption result (Unit {0}) (λ place. place + extent_of info.now ≤ self.old.arena) }
        ensures rows { MatchOption result (self.new ≡ self.old)
            (λ place. self.new ≡ with_row self.old (kept_of n time place info.now)) }
        ensures apart { LieApart self.new.arena (occupied_in self.new) }
    {
        let slot = *self.free.last()?;
        let need = extent(info);
        let place = self.regions.take(need, slot)?;
        let _slot = self.free.pop();
        self.by_signature.put(info.signature(), slot);
        self.by_number.push(n, time, slot);
        self.slots[slot as usize] = Row::new(n, time, place, info);
        self.used += need;
        Some(place)
    }

    /// Puts a product in behind all others, at that place. Answers whether its region is free there, and no product has
    /// its signature; else nothing changes.
    pub(crate) fn put_at(&mut self, info: &Info, n: u64, time: Micros, place: u64) -> bool
        requires few { taken_in self.old < self.old.slots }
        requires later { All (λ k. (k.number < n) × (k.time < time)) self.old.rows }
        ensures placeable { IsTrue result ↔ IsPlaceable self.old (kept_of n time place info.now) }
        ensures rows { self.new ≡ (if result then with_row self.old (kept_of n time place info.now) else self.old) }
        ensures apart { LieApart self.new.arena (occupied_in self.new) }
    {
        let Some(last) = self.free.last() else {
            unreachable!()
        };
        let slot = *last;
        if self.by_signature.find(&info.signature()).is_some() {
            return false;
        }
        let need = extent(info);
        if !self.regions.place(place, need, slot) {
            return false;
        }
        let _slot = self.free.pop();
        self.by_signature.put(info.signature(), slot);
        self.by_number.push(n, time, slot);
        self.slots[slot as usize] = Row::new(n, time, place, info);
        self.used += need;
        true
    }

    /// Takes the product of that number out. Its slot and its region are free from then on.
    pub(crate) fn take_out(&mut self, n: u64)
        requires { Any (λ k. k.number ≡ n) self.old.rows }
        ensures left { self.new ≡ without n self.old }
        ensures apart { LieApart self.new.arena (occupied_in self.new) }
    {
        let Some((_, slot)) = self.by_number.first_at(n) else {
            unreachable!()
        };
        let row = &self.slots[slot as usize];
        self.by_number.take_out(n);
        self.by_signature.take_out(&row.signature);
        self.regions.give_back(slot);
        self.used -= row.extent();
        let Ok(()) = self.free.push(slot) else {
            unreachable!()
        };
    }

    /// The least empty reservation place. `None` exactly where all are taken.
    pub(crate) fn first_empty(&self) -> Option<ReserveNo>
        ensures { result ≡ position is_none self.now.reservations }
    {
        self.reserved.first_empty()
    }

    /// How many reservations are open.
    pub(crate) fn count_reserved(&self) -> u64
        ensures count { result ≡ length (open_kept self.now.reservations) }
        ensures few { result ≤ ReserveNo.COUNT }
        ensures many { length self.now.reservations ≡ ReserveNo.COUNT }
    {
        self.reserved.count()
    }

    /// The reservation of a place, if it is open.
    pub(crate) fn reservation(&self, r: ReserveNo) -> Option<Place>
        ensures at { option_map (λ place. reservation_of (kept_place place)) result
            ≡ reservation_at self.now.reservations r }
        ensures many { length self.now.reservations ≡ ReserveNo.COUNT }
    {
        self.reserved.at(r)
    }

    /// Reserves a region for a product with these metadata, at an empty reservation place: with a free slot, at the
    /// start of the shortest gap that is long enough, the lowest where several are equally short. Answers where it
    /// begins. `None` exactly where no slot is free or no gap is long enough.
    pub(crate) fn reserve(&mut self, actor: Actor, r: ReserveNo, info: &Info) -> Option<u64>
        requires { reservation_at self.old.reservations r ≡ None }
        ensures place { result ≡ room_for self.old (extent_of info.now) }
        ensures within { MatchOption result (Unit {0}) (λ place. place + extent_of info.now ≤ self.old.arena) }
        ensures bound { MatchOption result (Unit {0}) (λ place. r < length self.old.reservations) }
        ensures reserved { MatchOption result (self.new ≡ self.old)
            (λ place. self.new ≡ with_reservation self.old r (Some (new_reservation actor info.now place))) }
        ensures apart { LieApart self.new.arena (occupied_in self.new) }
    {
        let slot = *self.free.last()?;
        let need = extent(info);
        let place = self.regions.take(need, slot)?;
        let _slot = self.free.pop();
        self.reserved.set(
            r,
            Some(Place {
                actor,
                slot,
                filled: 0,
                row: Row::reserved(place, info),
            }),
        );
        self.used += need;
        Some(place)
    }

    /// Counts so many bytes of a reservation's body as filled in.
    pub(crate) fn fill(&mut self, r: ReserveNo, count: u32)
        requires { (v : KeptReservation) × (reservation_at self.old.reservations r ≡ Some v)
            × (v.filled + count ≤ v.product.size) }
        ensures { (v : KeptReservation) → reservation_at self.old.reservations r ≡ Some v
            → self.new ≡ with_reservation self.old r (Some (with_more count v)) }
    {
        let Some(mut place) = self.reserved.at(r) else {
            unreachable!()
        };
        place.filled += count;
        self.reserved.set(r, Some(place));
    }

    /// Makes a reservation the product of that number, inserted at that time. It keeps its slot and its region, and its
    /// place is empty from then on.
    pub(crate) fn commit(&mut self, r: ReserveNo, n: u64, time: Micros)
        requires some { (v : KeptReservation) × (reservation_at self.old.reservations r ≡ Some v)
            × (kept_with v.product.signature self.old.rows ≡ None) }
        requires later { All (λ k. (k.number < n) × (k.time < time)) self.old.rows }
        ensures committed { (v : KeptReservation) → reservation_at self.old.reservations r ≡ Some v
            → self.new ≡ with_reservation (with_row self.old (committed n time v)) r None }
        ensures apart { LieApart self.new.arena (occupied_in self.new) }
    {
        let Some(place) = self.reserved.at(r) else {
            unreachable!()
        };
        let mut row = place.row;
        row.n = n;
        row.time = time;
        self.by_signature.put(row.signature, place.slot);
        self.by_number.push(n, time, place.slot);
        self.slots[place.slot as usize] = row;
        self.reserved.set(r, None);
    }

    /// Gives a reservation up. Its slot, its region and its place are free from then on.
    pub(crate) fn discard(&mut self, r: ReserveNo)
        requires { IsSome (reservation_at self.old.reservations r) }
        ensures discarded { self.new ≡ with_reservation self.old r None }
        ensures apart { LieApart self.new.arena (occupied_in self.new) }
    {
        let Some(place) = self.reserved.at(r) else {
            unreachable!()
        };
        self.regions.give_back(place.slot);
        self.used -= place.row.extent();
        let Ok(()) = self.free.push(place.slot) else {
            unreachable!()
        };
        self.reserved.set(r, None);
    }
}
