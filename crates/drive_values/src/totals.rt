//! Hourly totals: two tables, and what a case does with them.

pub mod products;
pub mod report;
pub mod split;

use crate::totals::products::{Product, absorb, add};
use crate::totals::report::tell_table;
use ldm_drive::Trial;
use ldm_stats::Stats;
use std::mem::swap;

// The most steps of a case.
const MOST_STEPS: u32 = 1000;

// Two tables of so many hours. Most steps are of the first one.
#[derive(Drop)]
struct Tables {
    hours: u32,
    first: Stats,
    second: Stats,
}

/// `table HOURS STEP ..`: what the steps answer of two empty tables of so many hours, and then what the first one has.
/// `None` where there is no such table.
///
/// The steps: `add TIME ARRIVAL FEED ORIGIN SIZE`; `each FROM COUNT`, a product of a byte for each of so many hours;
/// `swap` both; `absorb` the second one; and `copy`, after which the second one is a new table that absorbed the first.
/// What would count too many is answered `full`, and is not done.
pub fn tell_steps(trial: &mut Trial) {
    let hours = trial.small();
    let Some(mut tables) = Tables::create(trial, hours) else {
        let _ = trial.rest();
        return trial.tell("None");
    };
    for _ in 0..MOST_STEPS {
        if trial.is_done() || trial.is_refused() {
            break;
        }
        tables.step(trial);
    }
    tell_table(trial, &tables.first);
}

impl Tables {
    fn create(trial: &Trial, hours: u32) -> Option<Tables> {
        Some(Tables {
            hours,
            first: Stats::create(trial.alloc(), hours)?,
            second: Stats::create(trial.alloc(), hours)?,
        })
    }

    fn step(&mut self, trial: &mut Trial) {
        match trial.word() {
            "add" => {
                if let Some(product) = Product::read(trial) {
                    add(trial, &mut self.first, &product);
                }
            }
            "each" => self.add_each(trial),
            "swap" => swap(&mut self.first, &mut self.second),
            "absorb" => absorb(trial, &mut self.first, &self.second),
            "copy" => self.copy(trial),
            _ => trial.refuse("no such step"),
        }
    }

    fn add_each(&mut self, trial: &mut Trial) {
        let from = trial.small();
        let count = trial.small();
        for hour in from..from.saturating_add(count) {
            match Product::of_hour(hour) {
                Some(product) => add(trial, &mut self.first, &product),
                None => trial.refuse("no such hour"),
            }
        }
    }

    fn copy(&mut self, trial: &mut Trial) {
        if let Some(table) = Stats::create(trial.alloc(), self.hours) {
            self.second = table;
            absorb(trial, &mut self.second, &self.first);
        }
    }
}
