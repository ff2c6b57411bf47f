//! A table of hourly totals.
ghost use Rattle.std.specs.Prelude.{◌≡◌, ◌+◌, ◌^◌, ◌<◌, ◌≤◌, ◌++◌, List, [], ◌∷◌, ℕ, All, IfOk, IfSome, IsSome, OnOk};
ghost use Rattle.std.specs.Prelude.{OnErr, ◌↔◌};
ghost use Rattle.ldm_stats.specs.Joining.{count_of};
ghost use Rattle.ldm_stats.specs.Report.{first_from, hour_report, hours_of, in_hour, lines_of, report, AppendsFront};
ghost use Rattle.ldm_stats.specs.Table.{IsAdvanced, StandsFor};
ghost use Rattle.ldm_stats.specs.Totals.{Product};

use crate::kept::Kept;
use crate::place::{LAST_HOUR, Place, hour_of};
use crate::total::Total;
use ldm_types::{Info, Micros, OutOfMemory};
use std::alloc::Global;
use std::marker::Model;

/// The most hours that a table keeps: those of a year.
pub const MOST_HOURS: u32 = 8_760;

/// Totals of products for each hour, feed and origin, of the latest hours.
///
/// An hour is that of a product's arrival, in UTC. The latest one is the greatest hour that was given. The table holds
/// totals alone: a product costs a search among them, and hours that fall behind cost what they held.
#[derive(Debug, Drop)]
pub struct Stats {
    window: u32,
    hour: u32,
    kept: Kept,
}

impl Model for Stats {
    ghost use Rattle.ldm_stats.specs.Report.{first_from, hour_report, hours_of, in_hour, lines_of, report};
    ghost use Rattle.ldm_stats.specs.Report.{AppendsFront};
    ghost use Rattle.ldm_stats.specs.Table.{Table};

    ghost Value = { Table };

    ghost use Rattle.ldm_stats.specs.TableView.{table_of, IsTable};

    ghost view = { table_of };

    ghost invariant = { IsTable };
}

impl Stats {
    /// A table that keeps so many hours, and has no product yet. None where the hours are 0 or more than
    /// [`MOST_HOURS`].
    ///
    /// It takes no memory.
    pub fn create(alloc: Global, hours: u32) -> Option<Stats>
        ensures some { IsSome result ↔ ((0 < hours) × (hours ≤ 8760)) }
        ensures window { IfSome result (λ stats. stats.window ≡ hours) }
        ensures empty { IfSome result (λ stats. StandsFor stats []) }
    {
        if hours == 0 || hours > MOST_HOURS {
            return None;
        }
        Some(Stats {
            window: hours,
            hour: 0,
            kept: Kept::new(alloc),
        })
    }

    /// How many hours it keeps.
    pub fn hours(&self) -> u32
        ensures value { result ≡ self.now.window }
        ensures least { 0 < self.now.window }
        ensures most { self.now.window ≤ 8760 }
    {
        self.window
    }

    /// Adds a product, which was inserted at a time.
    pub fn add(&mut self, time: Micros, info: &Info) -> Result<(), OutOfMemory>
        requires { count_of self.old.entries < 2 ^ 31 }
        ensures added { OnOk result ((products : List Product) → StandsFor self.old products
            → StandsFor self.new (products ++ record { time = time; info = info.now } ∷ [])) }
        ensures window { self.new.window ≡ self.old.window }
        ensures kept { OnErr result (self.new ≡ self.old) }
    {
        let hour = hour_of(info.arrival());
        if hour + self.window <= self.hour {
            return Ok(());
        }
        self.kept.join(Place::of(info), Total::of(time, info))?;
        // Only a later hour lets others fall behind.
        if self.hour < hour {
            self.advance(hour);
        }
        Ok(())
    }

    /// Adds what another table has.
    pub fn absorb(&mut self, other: &Stats) -> Result<(), OutOfMemory>
        requires hours { self.old.window ≡ other.now.window }
        requires counts { count_of self.old.entries + count_of other.now.entries < 2 ^ 31 }
        ensures absorbed { OnOk result ((products others : List Product) → StandsFor self.old products
            → StandsFor other.now others → StandsFor self.new (products ++ others)) }
        ensures window { self.new.window ≡ self.old.window }
        ensures kept { OnErr result (self.new ≡ self.old) }
    {
        let mut both = self.kept.copy()?;
        both.join_all(&other.kept)?;
        self.kept = both;
        self.advance(other.hour);
        Ok(())
    }

    // Goes on to an hour, unless it is there already, and lets those go that fall behind.
    fn advance(&mut self, hour: u32)
        requires { hour ≤ LAST_HOUR }
        ensures { IsAdvanced hour self.old self.new }
    {
        self.hour = self.hour.max(hour);
        self.kept.let_go(self.window, self.hour);
    }

    /// How many products its totals count.
    pub fn count(&self) -> u64
        ensures { result ≡ count_of self.now.entries }
    {
        self.kept.count()
    }

    /// Appends the report: a line `YYYYMMDDHH FEED ORIGIN COUNT BYTES LATENCY` for each hour, feed and origin, in
    /// ascending order of hour, feed and origin by bytes.
    ///
    /// The hour is in UTC. FEED is as [`ldm_feedtype::feed_text`] writes it, and ORIGIN as [`ldm_answers::text_into`]
    /// does. LATENCY is the longest time from an arrival to the insertion, in microseconds, 0 where all were inserted
    /// before. For want of memory some first bytes of it were appended.
    pub fn report(&self, out: &mut Vec<u8>) -> Result<(), OutOfMemory>
        ensures whole { OnOk result (out.new.items ≡ out.old.items ++ lines_of self.now.entries) }
        ensures of_products { OnOk result ((products : List Product) → StandsFor self.now products
            → out.new.items ≡ out.old.items ++ report self.now.window products) }
        ensures begun { OnErr result (AppendsFront (lines_of self.now.entries) out.old.items out.new.items) }
    {
        self.kept.write(None, out)
    }

    /// Appends the lines of the report that begin with an hour, which is counted from the beginning of 1970.
    ///
    /// For want of memory some first bytes of them were appended.
    pub fn report_hour(&self, hour: u32, out: &mut Vec<u8>) -> Result<(), OutOfMemory>
        ensures whole { OnOk result (out.new.items ≡ out.old.items ++ lines_of (in_hour hour self.now.entries)) }
        ensures of_products { OnOk result ((products : List Product) → StandsFor self.now products
            → out.new.items ≡ out.old.items ++ hour_report hour self.now.window products) }
        ensures begun { OnErr result
            (AppendsFront (lines_of (in_hour hour self.now.entries)) out.old.items out.new.items) }
    {
        self.kept.write(Some(hour), out)
    }

    /// The least hour of the report from an hour on, counted from the beginning of 1970. None where there is none.
    pub fn next_hour(&self, from: u32) -> Option<u32>
        ensures value { result ≡ first_from from self.now.entries }
        ensures bound { IfSome result (λ hour. hour ≤ LAST_HOUR) }
    {
        self.kept.next_hour(from)
    }

    /// The hours of the report, each counted from the beginning of 1970, in ascending order, each once.
    pub fn hours_reported(&self, alloc: Global) -> Result<Vec<u32>, OutOfMemory>
        ensures value { IfOk result (λ hours. hours.items ≡ hours_of self.now.entries) }
        ensures bound { IfOk result (λ hours. All (λ (hour : ℕ). hour ≤ LAST_HOUR) hours.items) }
    {
        self.kept.hours(alloc)
    }
}
