//! What a thread was told.

use ldm_types::Micros;
use std::alloc::Global;

/// A product that was admitted.
#[derive(Clone, Copy)]
pub struct Admitted {
    pub n: u64,
    pub byte: u8,
    pub time: Micros,
}

/// A product that a reply named, and its time where that was told.
#[derive(Clone, Copy)]
pub struct Named {
    pub n: u64,
    pub byte: u8,
    pub time: Option<Micros>,
}

/// What a thread was told: the products that it inserted, those that it found, and how many were evicted by its calls.
#[derive(Drop)]
pub struct Told {
    pub admitted: Vec<Admitted>,
    pub named: Vec<Named>,
    pub gone: u64,
    /// Whether some reply was none that the thread may be given, or there was no memory.
    pub is_wrong: bool,
}

impl Told {
    pub fn new(alloc: Global) -> Told {
        Told {
            admitted: Vec::new(alloc),
            named: Vec::new(alloc),
            gone: 0,
            is_wrong: false,
        }
    }

    /// Notes where something does not hold that has to.
    pub fn expect(&mut self, holds: bool) {
        if !holds {
            self.is_wrong = true;
        }
    }

    /// Notes that products were evicted.
    pub fn lose(&mut self, count: u64) {
        self.gone = self.gone.saturating_add(count);
    }

    /// Notes a product that was admitted.
    pub fn admit(&mut self, n: u64, byte: u8, time: Micros) {
        let noted = self.admitted.push(Admitted { n, byte, time }).is_ok();
        self.expect(noted);
    }

    /// Notes a product that a reply named.
    pub fn name(&mut self, n: u64, byte: u8, time: Option<Micros>) {
        let noted = self.named.push(Named { n, byte, time }).is_ok();
        self.expect(noted);
    }
}
