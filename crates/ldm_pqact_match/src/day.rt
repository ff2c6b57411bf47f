//! Days of the calendar.
ghost use Rattle.std.specs.Prelude.{◌≡◌, ◌+◌, ◌*◌, ◌<◌, ◌≤◌, nat_lt, if◌then◌else◌};
ghost use Rattle.ldm_pqact_match.specs.Dates.{month_of, distance, day_in, nearer, place_in_year};

use jiff_core::civil::Date;
use std::marker::Model;

/// The years of the dates that are met: those of all instants, from 1970 to 2106, and some about them.
pub const FIRST_YEAR: u32 = 1969;

pub const LAST_YEAR: u32 = 2201;

/// A day of the calendar. Contracts see its year, its month and its day.
#[derive(Drop)]
pub struct Day {
    pub(crate) date: Date,
}

impl Model for Day {
    ghost use Rattle.ldm_pqact_match.specs.Dates.{CivilDate};

    ghost Value = { CivilDate };

    ghost use Rattle.ldm_pqact_match.specs.Views.{day_view, IsNearInstants};

    ghost view = { day_view };

    ghost invariant = { IsNearInstants };
}

impl Day {
    // That day of a month, if the month has it. Months are counted from January of the year 0.
    pub fn in_month(day: u8, month: u32) -> Option<Day>
        requires day { day ≤ 31 }
        requires first { 12 * FIRST_YEAR ≤ month }
        requires last { month < 12 * (LAST_YEAR + 1) }
        ensures { result ≡ day_in day month }
    {
        match Date::new((month / 12) as i16, (month % 12 + 1) as i8, day as i8) {
            Ok(date) => Some(Day { date }),
            Err(_) => None,
        }
    }

    pub fn year(&self) -> u32
        ensures value { result ≡ self.now.year }
        ensures first { FIRST_YEAR ≤ self.now.year }
        ensures last { self.now.year ≤ LAST_YEAR }
    {
        self.date.year as u32
    }

    /// From 1.
    pub fn month(&self) -> u8
        ensures value { result ≡ self.now.month }
        ensures first { 1 ≤ self.now.month }
        ensures last { self.now.month ≤ 12 }
    {
        self.date.month
    }

    /// From 1.
    pub fn day(&self) -> u8
        ensures { result ≡ self.now.day }
    {
        self.date.day
    }

    // The place of its month, counted from January of the year 0.
    pub fn month_place(&self) -> u32
        ensures value { result ≡ month_of self.now }
        ensures first { 12 * self.now.year ≤ result }
        ensures last { result < 12 * (self.now.year + 1) }
    {
        12 * self.year() + (self.month() as u32 - 1)
    }

    /// The place in the year, from 1.
    pub fn place_in_year(&self) -> u16
        ensures { result ≡ place_in_year self.now }
    {
        self.date.day_of_year()
    }

    // How many days two of them are apart.
    fn distance(&self, other: &Day) -> u32
        ensures { result ≡ distance self.now other.now }
    {
        self.date.until(other.date).unsigned_abs()
    }

    /// The nearer of a day and one behind it, and of two equally near ones the first.
    pub fn nearer(&self, day: Option<Day>, later: Option<Day>) -> Option<Day>
        ensures { result ≡ nearer self.now day later }
    {
        match (day, later) {
            (None, later) => later,
            (Some(first), None) => Some(first),
            (Some(first), Some(second)) => Some(self.nearer_of(first, second)),
        }
    }

    // The nearer of two days, and the first of two that are equally near.
    fn nearer_of(&self, first: Day, second: Day) -> Day
        ensures { result ≡ (if nat_lt (distance self.now second) (distance self.now first) then second else first) }
    {
        if self.distance(&second) < self.distance(&first) {
            second
        } else {
            first
        }
    }
}
