//! The regions of an arena.
ghost use Rattle.std.specs.Prelude.{◌≡◌, ℕ, ◌%◌, ◌≤◌, false, length, is_some, slice_index_or};
ghost use Rattle.std.specs.FinMap as map;

use crate::queue::sums::with_answer;
use ldm_drive::{Draws, Trial};
use ldm_regions::Regions;
use ldm_types::OutOfMemory;
use std::alloc::Global;

/// Regions, and who owns one.
#[derive(Drop)]
pub struct Owners {
    regions: Regions,
    owns: Vec<bool>,
    ghost slots: { length owns.items ≡ regions.slots },
    ghost agree: { (k : ℕ) → slice_index_or owns.items k false ≡ is_some (map.get regions.owned k) },
}

// The marks that a text of zeros and ones spells.
fn marks_of(alloc: Global, text: &str) -> Option<Vec<bool>> {
    let mut marks = Vec::new(alloc);
    for byte in text.as_bytes() {
        marks.push(*byte == b'1').ok()?;
    }
    Some(marks)
}

impl Owners {
    /// Regions of an arena of that size with so many slots.
    pub fn create(alloc: Global, arena: u64, slots: u32) -> Result<Owners, OutOfMemory>
        requires whole { arena % 8 ≡ 0 }
        requires least { 64 ≤ arena }
        requires slots { slots ≤ 1048576 }
    {
        let regions = Regions::create(alloc, arena, slots)?;
        let owns = vec![in alloc; false; slots as usize]?;
        Ok(Owners { regions, owns })
    }

    /// A case: `new ARENA SLOTS`, `take OWNER NEED`, `back OWNER`, `kept MARKS`, `turns SEED COUNT`, `orders`.
    pub fn answer(&mut self, trial: &mut Trial) {
        match trial.word() {
            "new" => {
                self.begin(trial);
                self.tell_longest(trial);
            }
            "take" => {
                let (owner, need) = (trial.small(), trial.number());
                trial.tell_debug(&self.take(need, owner));
                trial.tell(" ");
                self.tell_longest(trial);
            }
            "back" => {
                self.give_back(trial.small());
                self.tell_longest(trial);
            }
            "kept" => self.kept(trial),
            "turns" => {
                let (seed, count) = (trial.number(), trial.number());
                trial.tell_number(self.turns(seed, count));
            }
            "orders" => trial.tell_number(self.orders()),
            _ => trial.refuse("no such word"),
        }
    }

    fn begin(&mut self, trial: &mut Trial) {
        let (arena, slots) = (trial.number(), trial.small());
        if arena < 64 || arena % 8 != 0 || slots > 1_048_576 {
            return trial.refuse("no such arena");
        }
        match Owners::create(trial.alloc(), arena, slots) {
            Ok(owners) => *self = owners,
            Err(_) => trial.lack_memory(),
        }
    }

    fn tell_longest(&self, trial: &mut Trial) {
        trial.tell("longest ");
        trial.tell_number(self.regions.largest());
    }

    fn kept(&self, trial: &mut Trial) {
        match marks_of(trial.alloc(), trial.word()) {
            Some(marks) => trial.tell_debug(&self.largest_if(&marks)),
            None => trial.lack_memory(),
        }
    }

    // What `take` answers, where it may be called.
    fn take(&mut self, need: u64, owner: u32) -> Option<u64> {
        let place = owner as usize;
        if need == 0 || place >= self.owns.len() || self.owns[place] {
            return None;
        }
        let start = self.regions.take(need, owner)?;
        self.owns[place] = true;
        Some(start)
    }

    // Gives a region back, where there is one.
    fn give_back(&mut self, owner: u32) {
        let place = owner as usize;
        if place < self.owns.len() && self.owns[place] {
            self.regions.give_back(owner);
            self.owns[place] = false;
        }
    }

    // What `largest_if` answers, where there is a mark for each slot.
    fn largest_if(&self, kept: &[bool]) -> Option<u64> {
        if kept.len() == self.owns.len() {
            Some(self.regions.largest_if(kept))
        } else {
            None
        }
    }

    fn owns(&self, owner: u32) -> bool {
        self.owns.get(owner as usize).copied().unwrap_or(false)
    }

    // Random turns of 8 owners, of which each gives its region back or is given one: the sum of the starts, of the
    // longest gaps, and of those that would be there if only the marked owners kept theirs.
    fn turns(&mut self, seed: u64, count: u64) -> u64 {
        let (mut draws, mut sum) = (Draws::behind(seed), 0);
        for _ in 0..count {
            let state = draws.state();
            let owner = ((state >> 33) % 8) as u32;
            if self.owns(owner) {
                self.give_back(owner);
            } else {
                sum = with_answer(sum, self.take((state >> 40) % 32 + 1, owner));
            }
            let mut kept = [false; 8];
            for (place, mark) in kept.iter_mut().enumerate() {
                *mark = (state >> place) & 1 == 1;
            }
            sum = with_answer(sum, Some(self.regions.largest()));
            sum = with_answer(sum, self.largest_if(&kept));
        }
        sum
    }

    // Takes five regions, and gives them back in each of the 120 orders: the sum of the starts and of the longest gaps.
    fn orders(&mut self) -> u64 {
        let mut sum = 0;
        for number in 0..120u32 {
            for (owner, extent) in [(0u32, 8u64), (1, 16), (2, 24), (3, 8), (4, 8)] {
                sum = with_answer(sum, self.take(extent, owner));
            }
            let mut order = number;
            for count in [5u32, 4, 3, 2, 1] {
                let place = (order % count) as usize;
                order /= count;
                if let Some(owner) = (0..5u32).filter(|owner| self.owns(*owner)).nth(place) {
                    self.give_back(owner);
                }
                sum = with_answer(sum, Some(self.regions.largest()));
            }
        }
        sum
    }
}
