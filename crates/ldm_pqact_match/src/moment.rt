//! The moment at which a product was inserted.
ghost use Rattle.std.specs.Prelude.{◌≡◌, ◌*◌, ◌<◌, ◌≤◌, pos};
ghost use Rattle.jiff_core.specs.DateTime.{civil_nanos};
ghost use Rattle.ldm_types.specs.declared.limits.TheConstants.{GREATEST_INSTANT};
ghost use Rattle.ldm_pqact_match.specs.Dates.{moment_of, nearest};

use crate::day::Day;
use jiff::Timestamp;
use jiff::tz::Offset;
use jiff_core::civil::{DateTime, Time};
use ldm_types::Micros;
use std::marker::Model;

/// A day and a time of day in UTC. Contracts see its date, its hour, its minute and its second.
#[derive(Drop)]
pub struct Moment {
    pub(crate) day: Day,
    pub(crate) time: Time,
}

impl Model for Moment {
    ghost use Rattle.ldm_pqact_match.specs.Dates.{CivilMoment};

    ghost Value = { CivilMoment };

    ghost use Rattle.ldm_pqact_match.specs.Views.{moment_view, IsInstant};

    ghost view = { moment_view };

    ghost invariant = { IsInstant };
}

impl Moment {
    /// The moment of an instant.
    pub fn of(instant: Micros) -> Moment
        ensures { result ≡ moment_of instant }
    {
        let shown = shown_at(instant);
        Moment {
            day: Day { date: shown.date },
            time: shown.time,
        }
    }

    pub fn day(&self) -> &Day
        ensures { result.now ≡ self.now.date }
    {
        &self.day
    }

    pub fn hour(&self) -> u8
        ensures { result ≡ self.now.hour }
    {
        self.time.hour
    }

    pub fn minute(&self) -> u8
        ensures { result ≡ self.now.minute }
    {
        self.time.minute
    }

    pub fn second(&self) -> u8
        ensures { result ≡ self.now.second }
    {
        self.time.second
    }

    /// The date that a day of the month stands for: the nearest to the day of the moment that is that day of the
    /// previous, this or the next month.
    pub fn nearest(&self, day: u8) -> Option<Day>
        requires { day ≤ 31 }
        ensures { result ≡ nearest self.now.date day }
    {
        let month = self.day.month_place();
        let next = self.day.nearer(Day::in_month(day, month + 1), None);
        let from_this = self.day.nearer(Day::in_month(day, month), next);
        self.day.nearer(Day::in_month(day, month - 1), from_this)
    }
}

// What a clock in UTC shows at an instant.
fn shown_at(instant: Micros) -> DateTime
    ensures shown { civil_nanos result ≡ pos (instant * 1000) }
    ensures bound { instant ≤ GREATEST_INSTANT }
{
    let timestamp = Timestamp::from_microsecond(instant.get() as i64).unwrap();
    Offset::UTC.to_datetime(timestamp).to_plain()
}
