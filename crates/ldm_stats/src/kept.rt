//! Totals by their places.
ghost use Rattle.std.specs.Prelude.{◌≡◌, ◌+◌, ◌^◌, ◌<◌, ◌≤◌, ◌==◌, ◌++◌, [], ◌∷◌, length, true};
ghost use Rattle.std.specs.Prelude.{ℕ, All, IfOk, IfSome, OnOk, OnErr, Some, MatchBool, MatchOption};
ghost use Rattle.ldm_stats.specs.Place.{Place as PlaceSeen};
ghost use Rattle.ldm_stats.specs.Totals.{Total as TotalSeen};
ghost use Rattle.ldm_stats.specs.Report.{asked_of, first_from, hours_of, is_other, lines_of, AppendsFront};
ghost use Rattle.ldm_stats.specs.Joining.{count_of, joined, total_at, within, BeginsOutside, IsAscending, IsJoined};

use crate::line::put_line;
use crate::place::{LAST_HOUR, Place};
use crate::total::Total;
use ldm_answers::Text;
use ldm_types::OutOfMemory;
use std::alloc::Global;
use std::collections::BTreeMap;
use std::marker::Model;

/// A total for each of some places, in ascending order of the places.
#[derive(Debug, Drop)]
pub struct Kept {
    map: BTreeMap<Place, Total>,
    // how many products they count
    count: u64,
}

impl Model for Kept {
    ghost use Rattle.std.specs.Prelude.{List};
    ghost use Rattle.ldm_stats.specs.Place.{Place as PlaceSeen};
    ghost use Rattle.ldm_stats.specs.Totals.{Total as TotalSeen};

    ghost Value = { List (PlaceSeen × TotalSeen) };

    ghost use Rattle.ldm_stats.specs.KeptView.{kept_view, IsKept};

    ghost view = { kept_view };

    ghost invariant = { IsKept };
}

impl Kept {
    /// It takes no memory.
    pub fn new(alloc: Global) -> Kept
        ensures { result ≡ [] }
    {
        Kept {
            map: BTreeMap::new(alloc),
            count: 0,
        }
    }

    /// How many products they count.
    pub fn count(&self) -> u64
        ensures { result ≡ count_of self.now }
    {
        self.count
    }

    /// The same once more.
    pub fn copy(&self) -> Result<Kept, OutOfMemory>
        ensures { IfOk result (λ copy. copy ≡ self.now) }
    {
        Ok(Kept {
            map: self.map.clone()?,
            count: self.count,
        })
    }

    /// Adds to the total of a place.
    pub fn join(&mut self, place: Place, total: Total) -> Result<(), OutOfMemory>
        requires { count_of self.old + total.count < 2 ^ 32 }
        ensures totals { OnOk result (IsJoined self.old ((place, total) ∷ []) self.new) }
        ensures ascending { OnOk result (IsAscending self.new) }
        ensures count { OnOk result (count_of self.new ≡ count_of self.old + total.count) }
        ensures kept { OnErr result (self.new ≡ self.old) }
    {
        let kept = self.map.entry(place)?.or_insert(Total::none());
        *kept = kept.plus(total);
        self.count += u64::from(total.count());
        Ok(())
    }

    /// Adds each of the others.
    pub fn join_all(&mut self, others: &Kept) -> Result<(), OutOfMemory>
        requires { count_of self.old + count_of others.now < 2 ^ 32 }
        ensures totals { OnOk result (IsJoined self.old others.now self.new) }
        ensures count { OnOk result (count_of self.new ≡ count_of self.old + count_of others.now) }
    {
        for (place, total) in &others.map {
            self.join(place.clone()?, *total)?;
        }
        Ok(())
    }

    /// Appends the lines of those of an hour, or of all.
    pub fn write(&self, hour: Option<u32>, out: &mut Vec<u8>) -> Result<(), OutOfMemory>
        ensures whole { OnOk result (out.new.items ≡ out.old.items ++ lines_of (asked_of hour self.now)) }
        ensures begun { OnErr result (AppendsFront (lines_of (asked_of hour self.now)) out.old.items out.new.items) }
    {
        let mut line = Text::new();
        for (place, total) in &self.map {
            if is_asked(hour, place) {
                line.clear();
                put_line(place, *total, &mut line);
                append(line.as_slice(), out)?;
            }
        }
        Ok(())
    }

    /// The least hour of a place from an hour on.
    pub fn next_hour(&self, from: u32) -> Option<u32>
        ensures value { result ≡ first_from from self.now }
        ensures bound { IfSome result (λ hour. hour ≤ LAST_HOUR) }
    {
        for (place, _) in &self.map {
            if place.hour() >= from {
                return Some(place.hour());
            }
        }
        None
    }

    /// Their hours, in ascending order, each once.
    pub fn hours(&self, alloc: Global) -> Result<Vec<u32>, OutOfMemory>
        ensures value { IfOk result (λ hours. hours.items ≡ hours_of self.now) }
        ensures bound { IfOk result (λ hours. All (λ (hour : ℕ). hour ≤ LAST_HOUR) hours.items) }
    {
        let mut hours = Vec::new(alloc);
        let mut last = None;
        for (place, _) in &self.map {
            if is_other(last, place) {
                hours.push(place.hour())?;
                last = Some(place.hour());
            }
        }
        Ok(hours)
    }

    /// Lets those go that do not lie within so many hours up to an hour.
    pub fn let_go(&mut self, window: u32, hour: u32)
        requires { window ≤ 8760 }
        ensures totals { self.new ≡ within window hour self.old }
        ensures ascending { IsAscending self.new }
    {
        while self.begins_outside(window, hour) {
            self.let_first_go();
        }
    }

    // Whether the first does not lie within so many hours up to an hour.
    fn begins_outside(&self, window: u32, hour: u32) -> bool
        requires { window ≤ 8760 }
        ensures outside { MatchBool result (BeginsOutside window hour self.now)
            (within window hour self.now ≡ self.now) }
        ensures ascending { IsAscending self.now }
    {
        match self.map.first_key_value() {
            Some((place, _)) => place.hour() + window <= hour,
            None => false,
        }
    }

    fn let_first_go(&mut self)
        requires { 0 < length self.old }
        ensures { (first : PlaceSeen × TotalSeen) × (self.old ≡ first ∷ self.new) }
    {
        if let Some((_, total)) = self.map.pop_first() {
            self.count -= u64::from(total.count());
        }
    }
}

// Whether a place is of an hour, or all are asked for.
fn is_asked(hour: Option<u32>, place: &Place) -> bool
    ensures { MatchOption hour (result ≡ true) (λ hour. result ≡ (place.now.hour == hour)) }
{
    match hour {
        Some(hour) => place.hour() == hour,
        None => true,
    }
}

// Whether a place is of another hour than the last one, if there was one.
fn is_other(last: Option<u32>, place: &Place) -> bool
    ensures { result ≡ is_other last place.now.hour }
{
    match last {
        Some(last) => last != place.hour(),
        None => true,
    }
}

fn append(text: &[u8], out: &mut Vec<u8>) -> Result<(), OutOfMemory>
    ensures whole { OnOk result (out.new.items ≡ out.old.items ++ text.now) }
    ensures kept { OnErr result (out.new.items ≡ out.old.items) }
{
    Ok(out.extend_from_slice(text)?)
}
