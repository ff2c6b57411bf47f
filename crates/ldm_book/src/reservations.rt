//! The reservation places of a queue.
ghost use Rattle.std.specs.Prelude.{◌≡◌, ◌<◌, length, replicate, set, IfOk, None};
ghost use Rattle.std.specs.Option.{option_map};
ghost use Rattle.ldm_book.specs.Reserved.{count_one, kept_place, least_empty, open_places, place_at};

use crate::row::Row;
use ldm_model::ReserveNo;
use ldm_types::{Actor, OutOfMemory};
use std::alloc::Global;
use std::marker::Model;

/// An open reservation.
#[derive(Clone, Copy)]
pub(crate) struct Place {
    pub(crate) actor: Actor,
    /// The slot that owns the region.
    pub(crate) slot: u32,
    /// Bytes of the body that were filled in.
    pub(crate) filled: u32,
    /// The product that the region is reserved for, with number 0 and time 0.
    pub(crate) row: Row,
}

/// The 64 reservation places of a queue, each empty or with an open reservation.
#[derive(Drop)]
pub(crate) struct Reservations {
    places: Vec<Option<Place>>,
    // How many of them are open.
    opened: u64,
}

impl Model for Reservations {
    ghost use Rattle.ldm_book.specs.Reserved.{KeptPlaces, AreCounted, kept_places};

    ghost Value = { KeptPlaces };

    ghost view = { λ r. kept_places r.places.items };

    ghost invariant = { λ r. AreCounted (kept_places r.places.items) r.opened };
}

impl Reservations {
    /// 64 empty places, all of whose memory is taken here. An error only where there is too little of it.
    pub(crate) fn create(alloc: Global) -> Result<Reservations, OutOfMemory>
        ensures { IfOk result (λ reservations. reservations ≡ replicate ReserveNo.COUNT None) }
    {
        let mut places = Vec::with_capacity(alloc, ReserveNo::COUNT as usize)?;
        places.resize(ReserveNo::COUNT as usize, None)?;
        Ok(Reservations { places, opened: 0 })
    }

    /// The least empty place. `None` exactly where all are taken.
    pub(crate) fn first_empty(&self) -> Option<ReserveNo>
        ensures { result ≡ least_empty self.now }
    {
        for r in 0..ReserveNo::COUNT {
            if self.places[r as usize].is_none() {
                return ReserveNo::new(r);
            }
        }
        None
    }

    /// How many are open.
    pub(crate) fn count(&self) -> u64
        ensures count { result ≡ length (open_places self.now) }
        ensures many { length self.now ≡ ReserveNo.COUNT }
    {
        self.opened
    }

    /// The reservation of a place, if it is open.
    pub(crate) fn at(&self, r: ReserveNo) -> Option<Place>
        ensures at { option_map kept_place result ≡ place_at self.now r }
        ensures many { length self.now ≡ ReserveNo.COUNT }
        ensures bound { r < ReserveNo.COUNT }
    {
        self.places[r.get() as usize]
    }

    /// Gives a place that reservation, or leaves it empty.
    pub(crate) fn set(&mut self, r: ReserveNo, place: Option<Place>)
        ensures set { self.new ≡ set self.old r (option_map kept_place place) }
        ensures many { length self.old ≡ ReserveNo.COUNT }
        ensures bound { r < ReserveNo.COUNT }
    {
        let at = r.get() as usize;
        self.opened = self.opened + count_one(&place) - count_one(&self.places[at]);
        self.places[at] = place;
    }
}

// 1 for an open place, 0 for an empty one.
fn count_one(place: &Option<Place>) -> u64
    ensures { result ≡ count_one (option_map kept_place place.now) }
{
    match place {
        Some(_) => 1,
        None => 0,
    }
}
