//! What products add up to.
ghost use Rattle.std.specs.Prelude.{◌≡◌, ◌+◌, ◌^◌, ◌<◌, [], ◌∷◌};
ghost use Rattle.ldm_stats.specs.Totals.{total_of};
ghost use Rattle.ldm_stats.specs.Joining.{plus};

use ldm_types::{Info, Micros};
use std::marker::Model;

/// How many products, their bytes, and their greatest latency in microseconds.
#[derive(Clone, Copy, Debug)]
pub struct Total {
    count: u32,
    bytes: u64,
    latency: u64,
}

impl Model for Total {
    ghost use Rattle.ldm_stats.specs.Totals.{Total as TotalSeen};

    ghost Value = { TotalSeen };

    ghost use Rattle.ldm_stats.specs.TotalView.{total_view, IsSumOfSizes};

    ghost view = { total_view };

    ghost invariant = { IsSumOfSizes };

    ghost inverse = { λ total. record { count = total.count; bytes = total.bytes; latency = total.latency } };
}

impl Total {
    /// That of a product which was inserted at a time.
    pub fn of(time: Micros, info: &Info) -> Total
        ensures { result ≡ total_of (record { time = time; info = info.now } ∷ []) }
    {
        Total {
            count: 1,
            bytes: u64::from(info.size()),
            latency: time.get().saturating_sub(info.arrival().get()),
        }
    }

    /// That of no product.
    pub fn none() -> Total
        ensures { result ≡ total_of [] }
    {
        Total {
            count: 0,
            bytes: 0,
            latency: 0,
        }
    }

    /// Both together.
    pub fn plus(self, other: Total) -> Total
        requires { self.count + other.count < 2 ^ 32 }
        ensures { result ≡ plus self other }
    {
        Total {
            count: self.count + other.count,
            bytes: self.bytes + other.bytes,
            latency: self.latency.max(other.latency),
        }
    }

    pub fn count(&self) -> u32
        ensures { result ≡ self.now.count }
    {
        self.count
    }

    pub fn bytes(&self) -> u64
        ensures { result ≡ self.now.bytes }
    {
        self.bytes
    }

    pub fn latency(&self) -> u64
        ensures { result ≡ self.now.latency }
    {
        self.latency
    }
}
