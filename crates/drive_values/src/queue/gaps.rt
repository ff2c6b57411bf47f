//! The set of gaps.
ghost use Rattle.std.specs.Prelude.{◌≡◌, ℕ, ◌*◌, ◌/◌, ◌%◌, ◌<◌, false, slice_index_or};
ghost use Rattle.std.specs.FinSet as sets;

use crate::queue::sums::with_pair;
use ldm_drive::{Draws, Trial};
use ldm_freelist::{FreeSet, Steps};
use ldm_types::OutOfMemory;
use std::alloc::Global;
use std::marker::Brand;
use std::sync::ledger::{Blank, Ledger};

fn best_of<L: Ledger>(set: &FreeSet, need: u64, blank: Blank) -> Option<(u64, u64)>
    requires name { blank.name ≡ L.name }
    requires parts { blank.parts ≡ L.parts }
    requires some { 0 < blank.parts }
{
    let mut steps = Steps::<L>::new(blank);
    set.best(need, &mut steps)
}

fn greatest_of<L: Ledger>(set: &FreeSet, blank: Blank) -> Option<(u64, u64)>
    requires name { blank.name ≡ L.name }
    requires parts { blank.parts ≡ L.parts }
    requires some { 0 < blank.parts }
{
    let mut steps = Steps::<L>::new(blank);
    set.greatest(&mut steps)
}

// The pair of a place. Pairs rise with their places.
fn pair_of(place: u32) -> (u64, u64)
    ensures extent { result.0 ≡ 8 * (place / 2048) }
    ensures offset { result.1 ≡ 8 * (place % 2048) }
{
    (8 * (place as u64 / 2048), 8 * (place as u64 % 2048))
}

// The place of a pair of multiples of 8 below 16,384.
fn place_of(extent: u64, offset: u64) -> Option<u32> {
    if extent % 8 == 0 && offset % 8 == 0 && extent < 16_384 && offset < 16_384 {
        Some((extent / 8 * 2048 + offset / 8) as u32)
    } else {
        None
    }
}

/// A set, and whether the pair of each place is in it.
#[derive(Drop)]
pub struct Gaps {
    tree: FreeSet,
    has: Vec<bool>,
    count: u32,
    room: u32,
    ghost roomy: { tree.room ≡ room },
    ghost counted: { sets.len tree.members ≡ count },
    ghost agree: { (place : ℕ)
        → slice_index_or has.items place false ≡ sets.contains tree.members (8 * (place / 2048), 8 * (place % 2048)) },
}

impl Gaps {
    /// A set with room for so many pairs, of so many places.
    pub fn create(alloc: Global, room: u32, places: u32) -> Result<Gaps, OutOfMemory> {
        let tree = FreeSet::create(alloc, room)?;
        let has = vec![in alloc; false; places as usize]?;
        Ok(Gaps {
            tree,
            has,
            count: 0,
            room,
        })
    }

    /// A case: `new ROOM PLACES`, `toggle EXTENT OFFSET`, `best NEED`, `greatest`, `row COUNT`, `toggles COUNT`,
    /// `orders`, `many COUNT`.
    pub fn answer(&mut self, trial: &mut Trial) {
        match trial.word() {
            "new" => self.begin(trial),
            "toggle" => {
                let extent = trial.number();
                self.toggle_pair(extent, trial.number(), trial);
                self.tell_count(trial);
            }
            "best" => {
                let need = trial.number();
                trial.tell_debug(&self.best(need));
            }
            "greatest" => trial.tell_debug(&self.greatest()),
            "row" => {
                for number in 0..trial.number() {
                    self.toggle_pair(8, 16u64.saturating_mul(number), trial);
                }
                self.tell_count(trial);
            }
            "toggles" => {
                let count = trial.number();
                trial.tell_number(self.toggles(count));
            }
            "orders" => match orders(trial.alloc()) {
                Ok(sum) => trial.tell_number(sum),
                Err(_) => trial.lack_memory(),
            },
            "many" => self.many(trial),
            _ => trial.refuse("no such word"),
        }
    }

    fn begin(&mut self, trial: &mut Trial) {
        let (room, places) = (trial.small(), trial.small());
        match Gaps::create(trial.alloc(), room, places) {
            Ok(gaps) => {
                *self = gaps;
                trial.tell("ok");
            }
            Err(_) => trial.lack_memory(),
        }
    }

    fn toggle_pair(&mut self, extent: u64, offset: u64, trial: &mut Trial) {
        match place_of(extent, offset) {
            Some(place) => self.toggle(place),
            None => trial.refuse("no multiples of 8 below 16,384"),
        }
    }

    fn tell_count(&self, trial: &mut Trial) {
        trial.tell_value(&self.count);
        trial.tell(" pairs");
    }

    // Takes the pair of a place out, or puts it in.
    fn toggle(&mut self, place: u32) {
        let at = place as usize;
        if at >= self.has.len() {
            return;
        }
        let (extent, offset) = pair_of(place);
        if self.has[at] {
            self.tree.remove(extent, offset);
            self.has[at] = false;
            self.count = self.count.saturating_sub(1);
        } else if self.count < self.room {
            self.tree.add(extent, offset);
            self.has[at] = true;
            self.count += 1;
        }
    }

    fn best(&self, need: u64) -> Option<(u64, u64)> {
        best_of::<Brand>(&self.tree, need, Blank::new(1))
    }

    fn greatest(&self) -> Option<(u64, u64)> {
        greatest_of::<Brand>(&self.tree, Blank::new(1))
    }

    // Random changes among pairs of 256 extents and 4 offsets: the sum of the answers behind each.
    fn toggles(&mut self, count: u64) -> u64 {
        let (mut draws, mut sum) = (Draws::behind(1), 0);
        for _ in 0..count {
            let state = draws.state();
            let place = (state >> 33) % 1024;
            self.toggle((place / 4 * 2048 + place % 4) as u32);
            sum = with_pair(sum, self.best((state >> 43) % 2100));
            sum = with_pair(sum, self.greatest());
        }
        sum
    }

    // Puts the pairs of so many places in, in no order, finds each as the least and takes it out: how many are in, are
    // found, and are left.
    fn many(&mut self, trial: &mut Trial) {
        let count = trial.small();
        for number in 0..u64::from(count) {
            self.toggle((number * 2_654_435_761 % u64::from(count)) as u32);
        }
        trial.tell_value(&self.count);
        trial.tell(" ");
        trial.tell_value(&self.take_each(count));
        trial.tell(" ");
        trial.tell_value(&self.count);
    }

    // Takes each of so many pairs out, and answers how many were the least that is long enough.
    fn take_each(&mut self, count: u32) -> u32 {
        let mut found = 0u32;
        for place in 0..count {
            let pair = pair_of(place);
            found = found.saturating_add(u32::from(self.best(pair.0) == Some(pair)));
            self.toggle(place);
        }
        found
    }
}

// The places of six pairs of two extents.
const SIX: [u32; 6] = [0, 1, 2, 3, 2048, 2049];

// Six pairs, from none and from all of them, and each row of six changes: the sum of the answers behind each.
fn orders(alloc: Global) -> Result<u64, OutOfMemory> {
    let mut sum = 0;
    for code in 0..46_656u32 {
        sum = six(alloc, false)?.changes(code, sum);
        sum = six(alloc, true)?.changes(code, sum);
    }
    Ok(sum)
}

// A set of none of the six pairs, or of all.
fn six(alloc: Global, full: bool) -> Result<Gaps, OutOfMemory> {
    let mut gaps = Gaps::create(alloc, 6, 2050)?;
    if full {
        for place in SIX {
            gaps.toggle(place);
        }
    }
    Ok(gaps)
}

impl Gaps {
    // The changes of one row, which is a number of six digits to the base of six.
    fn changes(&mut self, code: u32, before: u64) -> u64 {
        let (mut rest, mut sum) = (code, before);
        for round in 0..6u64 {
            self.toggle(SIX[(rest % 6) as usize]);
            rest /= 6;
            sum = with_pair(sum, self.best(8 * round));
            sum = with_pair(sum, self.greatest());
        }
        sum
    }
}
