//! The index of signatures.
ghost use Rattle.std.specs.Prelude.{◌≡◌, ℕ, None, Some, slice_get, true};

use crate::queue::sums::{mixed, with_answer};
use ldm_drive::{Trial, signature};
use ldm_sigindex::SigIndex;
use ldm_types::{OutOfMemory, Signature};
use std::alloc::Global;

/// An index, and which of its slots are free.
#[derive(Drop)]
pub struct Signatures {
    index: SigIndex,
    free: Vec<bool>,
    ghost agree: { (k : ℕ) → slice_get free.items k ≡ Some true → slice_get index k ≡ Some None },
}

// A signature for each number.
fn member(n: u64) -> Signature {
    let low = mixed(n.wrapping_add(0x9e37_79b9_7f4a_7c15));
    let high = mixed(low);
    Signature((u128::from(high) << 64 | u128::from(low)).to_le_bytes())
}

impl Signatures {
    pub fn create(alloc: Global, slots: u32, key: u64) -> Result<Signatures, OutOfMemory> {
        let index = SigIndex::create_keyed(alloc, slots, key)?;
        let free = vec![in alloc; true; slots as usize]?;
        Ok(Signatures { index, free })
    }

    /// A case: `new SLOTS`, `keyed SLOTS KEY`, `toggle SIGNATURE SLOT`, `find SIGNATURE`, `toggles MEMBERS COUNT`,
    /// `many COUNT`.
    pub fn answer(&mut self, trial: &mut Trial) {
        match trial.word() {
            "new" => {
                let slots = trial.small();
                self.begin(trial, slots, 0);
            }
            "keyed" => {
                let (slots, key) = (trial.small(), trial.number());
                self.begin(trial, slots, key);
            }
            "find" => {
                let s = signature(trial);
                trial.tell_debug(&self.index.find(&s));
            }
            "toggle" => {
                let s = signature(trial);
                self.toggle(s, trial.small());
                trial.tell_debug(&self.index.find(&s));
            }
            "toggles" => {
                let (members, count) = (trial.number(), trial.number());
                trial.tell_number(self.toggles(members, count));
            }
            "many" => self.many(trial),
            _ => trial.refuse("no such word"),
        }
    }

    fn begin(&mut self, trial: &mut Trial, slots: u32, key: u64) {
        match Signatures::create(trial.alloc(), slots, key) {
            Ok(signatures) => {
                *self = signatures;
                trial.tell("ok");
            }
            Err(_) => trial.lack_memory(),
        }
    }

    // Takes a signature out where it is, else puts it into the slot if that is free.
    fn toggle(&mut self, s: Signature, slot: u32) {
        let place = slot as usize;
        if let Some(at) = self.index.find(&s) {
            self.index.take_out(&s);
            if (at as usize) < self.free.len() {
                self.free[at as usize] = true;
            }
        } else if place < self.free.len() && self.free[place] {
            self.index.put(s, slot);
            self.free[place] = false;
        }
    }

    // Random changes: the sum of what is found before each.
    fn toggles(&mut self, members: u64, count: u64) -> u64 {
        let mut sum = 0;
        for step in 0..count {
            let random = mixed(step);
            let s = member(random.checked_rem(members).unwrap_or(0));
            sum = with_answer(sum, self.index.find(&s).map(u64::from));
            self.toggle(s, (random / 100 % 64) as u32);
        }
        sum
    }

    // Puts so many in, finds each, and takes each out: how many were not there before, found, and not there after.
    fn many(&mut self, trial: &mut Trial) {
        let count = trial.small();
        trial.tell_value(&self.put_each(count));
        trial.tell(" ");
        trial.tell_value(&self.find_each(count));
        trial.tell(" ");
        trial.tell_value(&self.take_each(count));
    }

    fn put_each(&mut self, count: u32) -> u32 {
        let mut before = 0u32;
        for slot in 0..count {
            let s = member(u64::from(slot));
            before = before.saturating_add(u32::from(self.index.find(&s).is_none()));
            self.toggle(s, slot);
        }
        before
    }

    fn find_each(&self, count: u32) -> u32 {
        let mut found = 0u32;
        for slot in 0..count {
            let s = member(u64::from(slot));
            found = found.saturating_add(u32::from(self.index.find(&s) == Some(slot)));
        }
        found
    }

    fn take_each(&mut self, count: u32) -> u32 {
        let mut after = 0u32;
        for slot in 0..count {
            let s = member(u64::from(slot));
            self.toggle(s, slot);
            after = after.saturating_add(u32::from(self.index.find(&s).is_none()));
        }
        after
    }
}
