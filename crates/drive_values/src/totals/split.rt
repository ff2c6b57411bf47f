//! Products that are split into two tables.

use crate::totals::products::{Product, absorb, add};
use crate::totals::report::{report_of, tell_table};
use ldm_drive::Trial;
use ldm_stats::Stats;

// The most products of a list that is split in every way.
const MOST_SPLIT: u32 = 12;

/// `split HOURS PRODUCT ..`: in how many of all ways to split the products into two tables of so many hours, of which
/// the first absorbs the second, the first then has what one table has to which all were added; and what that is.
///
/// A product is `TIME ARRIVAL FEED ORIGIN SIZE`.
pub fn tell_split(trial: &mut Trial) {
    let hours = trial.small();
    let products = read_products(trial);
    let Some(mut whole) = Stats::create(trial.alloc(), hours) else {
        return trial.refuse("no table");
    };
    let mut ways = 1u32;
    for product in &products {
        add(trial, &mut whole, product);
        ways = ways.saturating_mul(2);
    }
    let mut alike = 0u64;
    for way in 0..ways {
        if let Some(both) = joined(trial, hours, &products, way)
            && is_alike(trial, &both, &whole)
        {
            alike = alike.saturating_add(1);
        }
    }
    trial.tell_number(alike);
    trial.tell(" alike: ");
    tell_table(trial, &whole);
}

// Reads as many as may be split; more words are left.
fn read_products(trial: &mut Trial) -> Vec<Product> {
    let mut products = Vec::new(trial.alloc());
    for _ in 0..MOST_SPLIT {
        if trial.is_done() || trial.is_refused() {
            break;
        }
        if let Some(product) = Product::read(trial)
            && products.push(product).is_err()
        {
            trial.lack_memory();
        }
    }
    products
}

// Two tables, between which the bits of a number split the products, and of which the first absorbs the second.
fn joined(trial: &mut Trial, hours: u32, products: &[Product], way: u32) -> Option<Stats> {
    let mut first = Stats::create(trial.alloc(), hours)?;
    let mut second = Stats::create(trial.alloc(), hours)?;
    let mut bits = way;
    for product in products {
        if bits % 2 == 0 {
            add(trial, &mut first, product);
        } else {
            add(trial, &mut second, product);
        }
        bits /= 2;
    }
    absorb(trial, &mut first, &second);
    Some(first)
}

fn is_alike(trial: &mut Trial, one: &Stats, other: &Stats) -> bool {
    let report = report_of(trial, one);
    one.count() == other.count() && report.as_slice() == report_of(trial, other).as_slice()
}
