//! What counts products.
ghost use Rattle.std.specs.Prelude.{◌≡◌, None};

use crate::limits::MOST_PRODUCTS;
use ldm_gather::{Taken, Taker};
use ldm_shared::{Held, Pass, Reader, Shared};
use ldm_stats::Stats;
use ldm_types::OutOfMemory;
use std::sync::Wait;

/// Why counting stopped.
#[derive(Clone, Copy, Debug, PartialEq, Eq)]
pub enum CountStop {
    /// The totals count [`MOST_PRODUCTS`](crate::MOST_PRODUCTS) products or more.
    TooMany,
    /// There is no memory for a total.
    OutOfMemory,
}

/// Adds each product that it takes to its totals.
#[derive(Drop)]
pub struct Counter {
    pub(crate) stats: Stats,
    pub(crate) why: Option<CountStop>,
}

impl Counter {
    /// Counts into this table.
    pub fn create(stats: Stats) -> Counter
        ensures { result ≡ record { stats = stats; why = None } }
    {
        Counter { stats, why: None }
    }
}

impl Taker<()> for Counter {
    ghost use Rattle.ldm_pqstats.specs.Counting.{CountsProduct};

    ghost begins = { λ _ _. Unit {0} };

    ghost takes = { CountsProduct };

    fn take<H: Wait>(
        &mut self,
        _rt: &H,
        _shared: &Shared,
        _pass: &mut Pass,
        _reader: &Reader,
        held: &Held,
        _lent: &mut (),
    ) -> Taken {
        if self.stats.count() >= MOST_PRODUCTS {
            self.why = Some(CountStop::TooMany);
            return Taken::Stopped;
        }
        match self.stats.add(held.time, &held.info) {
            Ok(()) => Taken::On,
            Err(OutOfMemory) => {
                self.why = Some(CountStop::OutOfMemory);
                Taken::Stopped
            }
        }
    }
}
