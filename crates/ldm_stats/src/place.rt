//! What products are counted by.
ghost use Rattle.std.specs.Prelude.{◌≡◌, ◌≤◌, length, Some, refl};
ghost use Rattle.std.specs.Ordering.{eq_by_cmp, nat_cmp};
ghost use Rattle.std.specs.Cmp.Lexicographic.{slice_cmp};
ghost use Rattle.std.specs.Cmp.{partial_equiv_from_equiv, eq_by_cmp_equiv, partial_order_from_total};
ghost use Rattle.ldm_stats.specs.Place.{place_cmp};
ghost use Rattle.ldm_stats.specs.Totals.{hour_of as hour_counted, place_of};
ghost use Rattle.ldm_stats.specs.PlaceOrder.{places_total};
ghost use Rattle.ldm_stats.specs.Fronts.{TellsFront};

use arrayvec::ArrayVec;
use ldm_types::{Feed, Info, LONGEST_ORIGIN, Micros};
use std::alloc::AllocError;
use std::cmp::Ordering;
use std::marker::Model;

/// The hour of the greatest instant.
pub const LAST_HOUR: u32 = 1_193_046;

// In microseconds.
const HOUR: u64 = 3_600_000_000;

/// An hour, a feed and an origin. They are ordered by hour, then by feed, then by the bytes of the origin.
#[derive(Debug, Drop)]
pub struct Place {
    hour: u32,
    feed: Feed,
    // The number that the first eight bytes of the origin spell, the greatest first, or 0 where it has fewer. Most
    // origins differ there, and then a search reads no text.
    front: u64,
    origin: ArrayVec<u8, LONGEST_ORIGIN>,
}

impl Model for Place {
    ghost use Rattle.ldm_stats.specs.Place.{Place as PlaceSeen};

    ghost Value = { PlaceSeen };

    ghost use Rattle.ldm_stats.specs.PlaceView.{place_view, IsPlace};

    ghost view = { place_view };

    ghost invariant = { IsPlace };
}

impl Place {
    /// That of a product.
    pub fn of(info: &Info) -> Place
        ensures { result ≡ place_of (record { time = 0; info = info.now }) }
    {
        let mut origin = ArrayVec::new();
        if origin.try_extend_from_slice(info.origin()).is_err() {
            unreachable!();
        }
        Place {
            hour: hour_of(info.arrival()),
            feed: info.feed(),
            front: front_of(info.origin()),
            origin,
        }
    }

    /// In hours since the beginning of 1970, UTC.
    pub fn hour(&self) -> u32
        ensures value { result ≡ self.now.hour }
        ensures bound { self.now.hour ≤ LAST_HOUR }
    {
        self.hour
    }

    pub fn feed(&self) -> Feed
        ensures { result.0 ≡ self.now.feed }
    {
        self.feed
    }

    /// At most 64 bytes.
    pub fn origin(&self) -> &[u8]
        ensures value { result.now ≡ self.now.origin }
        ensures short { length self.now.origin ≤ LONGEST_ORIGIN }
    {
        self.origin.as_slice()
    }
}

/// The hour of an instant, counted from the beginning of 1970, UTC.
pub fn hour_of(instant: Micros) -> u32
    ensures value { result ≡ hour_counted instant }
    ensures bound { result ≤ LAST_HOUR }
{
    (instant.get() / HOUR) as u32
}

impl Clone for Place {
    ghost is_clone = { λ place copy. copy ≡ place };

    fn clone(&self) -> Result<Place, AllocError> {
        Ok(Place {
            hour: self.hour,
            feed: self.feed,
            front: self.front,
            origin: self.origin.clone()?,
        })
    }
}

impl PartialEq for Place {
    ghost eq = { eq_by_cmp place_cmp };

    ghost laws = { partial_equiv_from_equiv (eq_by_cmp_equiv places_total) };

    fn eq(&self, other: &Place) -> bool {
        self.cmp(other) == Ordering::Equal
    }
}

impl Eq for Place {
    ghost laws = { eq_by_cmp_equiv places_total };
}

impl PartialOrd for Place {
    ghost partial_cmp = { λ one other. Some (place_cmp one other) };

    ghost laws = { partial_order_from_total places_total };

    fn partial_cmp(&self, other: &Place) -> Option<Ordering> {
        Some(self.cmp(other))
    }
}

impl Ord for Place {
    ghost cmp = { place_cmp };

    ghost total = { places_total };

    ghost matches_partial_cmp = { λ one other. refl };

    ghost matches_eq = { λ one other. refl };

    fn cmp(&self, other: &Place) -> Ordering {
        match self.hour.cmp(&other.hour) {
            Ordering::Equal => match self.feed.0.cmp(&other.feed.0) {
                Ordering::Equal => origin_cmp(self, other),
                order => order,
            },
            order => order,
        }
    }
}

// By the bytes of the origins. Where the fronts of both tell, and differ, these are compared alone.
fn origin_cmp<'a>(one: &'a Place, other: &'a Place) -> Ordering
    ensures { result ≡ slice_cmp nat_cmp one.now.origin other.now.origin }
{
    if one.front != 0 && other.front != 0 {
        if one.front < other.front {
            return Ordering::Less;
        }
        if other.front < one.front {
            return Ordering::Greater;
        }
    }
    one.origin().cmp(other.origin())
}

// The number that the first eight bytes spell, the greatest first, or 0 where there are fewer.
fn front_of(origin: &[u8]) -> u64
    ensures { TellsFront result origin.now }
{
    if origin.len() < 8 {
        return 0;
    }
    u64::from_be_bytes([
        origin[0], origin[1], origin[2], origin[3], origin[4], origin[5], origin[6], origin[7],
    ])
}
