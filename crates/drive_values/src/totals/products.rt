//! Products that are counted.
ghost use Rattle.std.specs.Prelude.{◌≡◌, ◌+◌, ◌^◌, ◌<◌, false};
ghost use Rattle.ldm_stats.specs.Joining.{count_of};

use ldm_drive::Trial;
use ldm_stats::Stats;
use ldm_types::{Feed, Info, Micros, OutOfMemory, Signature};

// In microseconds.
const HOUR: u64 = 3_600_000_000;

// As many products as are too many to count one more.
const MOST_PRODUCTS: u64 = 2_147_483_648;

/// A product: when it was inserted, and its metadata.
#[derive(Debug, Drop)]
pub struct Product {
    time: Micros,
    info: Info,
}

impl Product {
    // Instants are in microseconds. None where there is no such instant or origin.
    fn of(time: u64, arrival: u64, feed: u32, origin: &[u8], size: u32) -> Option<Product> {
        let time = Micros::new(time)?;
        let arrival = Micros::new(arrival)?;
        let signature = Signature([0; 16]);
        let info = Info::new(arrival, signature, origin, Feed(feed), 0, b"ident", size).ok()?;
        Some(Product { time, info })
    }

    /// That of the words `TIME ARRIVAL FEED ORIGIN SIZE`.
    pub fn read(trial: &mut Trial) -> Option<Product> {
        let time = trial.number();
        let arrival = trial.number();
        let feed = trial.small();
        let origin = trial.bytes();
        let size = trial.small();
        let product = Product::of(time, arrival, feed, &origin, size);
        if product.is_none() {
            trial.refuse("no product");
        }
        product
    }

    /// One of a byte that arrives with the beginning of an hour.
    pub fn of_hour(hour: u32) -> Option<Product> {
        Product::of(0, u64::from(hour).saturating_mul(HOUR), 8, b"o", 1)
    }
}

/// Adds a product to a table; tells `full` where that counts too many.
pub fn add(trial: &mut Trial, table: &mut Stats, product: &Product) {
    if table.count() >= MOST_PRODUCTS {
        trial.tell("full ");
    } else if let Err(OutOfMemory) = table.add(product.time, &product.info) {
        trial.lack_memory();
    }
}

/// Absorbs a table of as many hours; tells `full` where both count too many.
pub fn absorb(trial: &mut Trial, table: &mut Stats, other: &Stats) {
    if table.hours() != other.hours() {
        trial.refuse("other hours");
    } else if is_full(table, other) {
        trial.tell("full ");
    } else if let Err(OutOfMemory) = table.absorb(other) {
        trial.lack_memory();
    }
}

// Whether two tables together count too many for the one to absorb the other.
fn is_full(table: &Stats, other: &Stats) -> bool
    ensures { (result ≡ false) → count_of table.now.entries + count_of other.now.entries < 2 ^ 31 }
{
    table.count().saturating_add(other.count()) >= MOST_PRODUCTS
}
