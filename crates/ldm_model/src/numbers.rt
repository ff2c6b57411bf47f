//! Small numbers: through which reservation an actor fills a region.
ghost use Rattle.std.specs.Prelude.{◌≡◌, ◌<◌, SomeIff};

use std::marker::Model;

/// One of the reservation places of a queue: a number below [`ReserveNo::COUNT`].
#[derive(Clone, Copy, Debug, PartialEq, Eq, PartialOrd, Ord, Hash)]
pub struct ReserveNo {
    number: u32,
}

impl Model for ReserveNo {
    ghost use Rattle.std.specs.Prelude.{ℕ, ◌<◌};
    ghost use Rattle.ldm_model.specs.declared.numbers.TheConstants.ReserveNo.{COUNT};

    ghost Value = { ℕ };

    ghost view = { λ reservation. reservation.number };

    ghost invariant = { λ reservation. reservation.number < COUNT };

    ghost inverse = { λ n. record { number = n } };
}

impl ReserveNo {
    /// How many reservation places a queue has.
    pub const COUNT: u32 = 64;

    /// The reservation place of that number. `None` exactly where the number is [`ReserveNo::COUNT`] or more.
    pub fn new(n: u32) -> Option<ReserveNo>
        ensures { SomeIff result (n < ReserveNo.COUNT) n }
    {
        if n < ReserveNo::COUNT {
            Some(ReserveNo { number: n })
        } else {
            None
        }
    }

    /// The number.
    pub fn get(self) -> u32
        ensures value { result ≡ self }
        ensures bound { self < ReserveNo.COUNT }
    {
        self.number
    }
}
