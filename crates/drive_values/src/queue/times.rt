//! The index of products by number and time.
ghost use Rattle.std.specs.Prelude.{◌≡◌, ◌+◌, ◌<◌, IfSome, if◌then◌else◌, length};

use crate::queue::sums::{mixed, with_pair};
use ldm_drive::Trial;
use ldm_timeindex::TimeIndex;
use ldm_types::{Micros, OutOfMemory};
use std::alloc::Global;

/// An index, and how many products are in it.
#[derive(Drop)]
pub struct Times {
    index: TimeIndex,
    slots: u32,
    count: u32,
    ghost room: { index.slots ≡ slots },
    ghost counted: { length index.entries ≡ count },
}

fn wide(answer: Option<(u64, u32)>) -> Option<(u64, u64)> {
    match answer {
        Some((n, slot)) => Some((n, u64::from(slot))),
        None => None,
    }
}

fn instant(n: u64) -> Option<Micros>
    ensures { IfSome result (λ micros. micros ≡ n) }
{
    Micros::new(n)
}

// Takes a product out where it has that number and that slot, and answers whether it does.
fn take(index: &mut TimeIndex, n: u64, slot: u32) -> bool
    ensures slots { index.new.slots ≡ index.old.slots }
    ensures count { length index.new.entries + (if result then 1 else 0) ≡ length index.old.entries }
{
    if index.first_at(n) != Some((n, slot)) {
        return false;
    }
    index.take_out(n);
    true
}

impl Times {
    pub fn create(alloc: Global, slots: u32) -> Result<Times, OutOfMemory> {
        let index = TimeIndex::create(alloc, slots)?;
        Ok(Times {
            index,
            slots,
            count: 0,
        })
    }

    /// A case: `new SLOTS`, `push N TIME SLOT`, `out N`, `at N`, `after TIME`, `changes COUNT`, `many COUNT`.
    pub fn answer(&mut self, trial: &mut Trial) {
        match trial.word() {
            "new" => self.begin(trial),
            "push" => {
                let (n, time, slot) = (trial.number(), trial.number(), trial.small());
                tell_done(trial, self.push(n, time, slot));
            }
            "out" => {
                let n = trial.number();
                tell_done(trial, self.take_out(n));
            }
            "at" => {
                let n = trial.number();
                trial.tell_debug(&self.index.first_at(n));
            }
            "after" => self.after(trial),
            "changes" => {
                let count = trial.number();
                match self.changes(trial.alloc(), count) {
                    Some(sum) => trial.tell_number(sum),
                    None => trial.refuse("a change is not made"),
                }
            }
            "many" => self.many(trial),
            _ => trial.refuse("no such word"),
        }
    }

    fn begin(&mut self, trial: &mut Trial) {
        let slots = trial.small();
        match Times::create(trial.alloc(), slots) {
            Ok(times) => {
                *self = times;
                trial.tell("ok");
            }
            Err(_) => trial.lack_memory(),
        }
    }

    fn after(&self, trial: &mut Trial) {
        match instant(trial.number()) {
            Some(time) => trial.tell_debug(&self.index.first_after(time)),
            None => trial.refuse("no instant"),
        }
    }

    // Puts a product in that is later than all, where there is a slot left.
    fn push(&mut self, n: u64, time: u64, slot: u32) -> Option<()> {
        if self.count >= self.slots || time == 0 {
            return None;
        }
        let before = instant(time - 1)?;
        let now = instant(time)?;
        if self.index.first_at(n) != None {
            return None;
        }
        if self.index.first_after(before) != None {
            return None;
        }
        self.index.push(n, now, slot);
        self.count += 1;
        Some(())
    }

    // Takes a product out that is in.
    fn take_out(&mut self, n: u64) -> Option<()> {
        let (_, slot) = self.index.first_at(n)?;
        if !take(&mut self.index, n, slot) {
            return None;
        }
        self.count = self.count.saturating_sub(1);
        Some(())
    }

    // Random changes of at most 64 products: the sum of what is found before each.
    fn changes(&mut self, alloc: Global, count: u64) -> Option<u64> {
        let mut sum = 0;
        let mut plain = Vec::new(alloc);
        for step in 0..count.min(1 << 20) {
            sum = self.found(step, sum)?;
            self.change(step, &mut plain)?;
        }
        Some(sum)
    }

    // The sum with what is found by number and by time at a step.
    fn found(&self, step: u64, sum: u64) -> Option<u64>
        requires { step < 1048576 }
    {
        let random = mixed(step);
        let n = (3 * step).saturating_sub(random / 4 % 400);
        let time = (6 * step).saturating_sub(random / 2048 % 800);
        let sum = with_pair(sum, wide(self.index.first_at(n)));
        Some(with_pair(sum, wide(self.index.first_after(instant(time)?))))
    }

    // Puts a product in, or takes one of those out that are in.
    fn change(&mut self, step: u64, plain: &mut Vec<u64>) -> Option<()>
        requires { step < 1048576 }
    {
        let random = mixed(step);
        let n = 3 * step + random % 3;
        if random % 2 == 0 && plain.len() < 64 {
            self.push(n, 2 * n + 1, (random / 65536 % 64) as u32)?;
            plain.push(n).ok()?;
        } else if !plain.is_empty() {
            let n = plain.remove((random / 8) as usize % plain.len());
            self.take_out(n)?;
        }
        Some(())
    }

    // Puts a product of each number below so many in, finds each by number and by time, and takes each out: how many
    // were found, and what is left.
    fn many(&mut self, trial: &mut Trial) {
        let count = trial.small();
        if self.put_each(count).is_none() {
            return trial.refuse("a product is not put in");
        }
        trial.tell_value(&self.find_each_by_number(count));
        trial.tell(" ");
        trial.tell_value(&self.find_each_by_time(count));
        trial.tell(" ");
        if self.take_each(count).is_none() {
            return trial.refuse("a product is not taken out");
        }
        trial.tell_debug(&self.index.first_at(0));
    }

    fn put_each(&mut self, count: u32) -> Option<()> {
        for slot in 0..count {
            let n = u64::from(slot);
            self.push(n, 2 * n + 1, slot)?;
        }
        Some(())
    }

    fn find_each_by_number(&self, count: u32) -> u32 {
        let mut found = 0u32;
        for slot in 0..count {
            let n = u64::from(slot);
            let at = self.index.first_at(n);
            found = found.saturating_add(u32::from(at == Some((n, slot))));
        }
        found
    }

    fn find_each_by_time(&self, count: u32) -> u32 {
        let mut found = 0u32;
        for slot in 0..count {
            let n = u64::from(slot);
            if let Some(time) = instant(2 * n) {
                let after = self.index.first_after(time);
                found = found.saturating_add(u32::from(after == Some((n, slot))));
            }
        }
        found
    }

    fn take_each(&mut self, count: u32) -> Option<()> {
        for slot in 0..count {
            self.take_out(u64::from(slot))?;
        }
        Some(())
    }
}

fn tell_done(trial: &mut Trial, done: Option<()>) {
    match done {
        Some(()) => trial.tell("ok"),
        None => trial.refuse("it may not be called"),
    }
}
