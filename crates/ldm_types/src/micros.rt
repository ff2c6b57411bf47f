//! Instants.
ghost use Rattle.std.specs.Prelude.{◌≡◌, ◌<◌, ◌≤◌, SomeIff};

use crate::limits::GREATEST_INSTANT;
use std::marker::Model;

/// An instant: microseconds since the beginning of 1970, UTC, below 2^32 seconds.
///
/// The metadata of a product spells it as four bytes of seconds and four bytes of microseconds.
#[derive(Clone, Copy, Debug, PartialEq, Eq, PartialOrd, Ord, Hash)]
pub struct Micros {
    value: u64,
}

impl Model for Micros {
    ghost use Rattle.std.specs.Prelude.{ℕ, ◌≤◌};
    ghost use Rattle.ldm_types.specs.declared.limits.TheConstants.{GREATEST_INSTANT};

    ghost Value = { ℕ };

    ghost view = { λ micros. micros.value };

    ghost invariant = { λ micros. micros.value ≤ GREATEST_INSTANT };

    ghost inverse = { λ n. record { value = n } };
}

impl Micros {
    /// The greatest instant, as a number.
    pub const MAX: u64 = GREATEST_INSTANT;

    /// The instant of that many microseconds. `None` exactly where the number exceeds [`Micros::MAX`].
    pub fn new(n: u64) -> Option<Micros>
        ensures { SomeIff result (n ≤ GREATEST_INSTANT) n }
    {
        if n <= Micros::MAX {
            Some(Micros { value: n })
        } else {
            None
        }
    }

    /// The number of microseconds.
    pub fn get(self) -> u64
        ensures value { result ≡ self }
        ensures bound { self ≤ GREATEST_INSTANT }
    {
        self.value
    }
}
