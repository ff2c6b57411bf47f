//! Configuration files: lines and words, patterns, feed expressions, classes, rules of access, and ldmd.conf.

mod classes;
mod conf;
mod mutated;
mod patterns;
mod policies;
mod texts;

use ldm_class::{Class, Policy};
use ldm_drive::Trial;
use ldm_outside_memory::MemFile;
use std::alloc::Global;

/// What earlier lines left.
#[derive(Drop)]
pub struct Kept {
    class: Option<Class>,
    policy: Policy,
    files: Vec<MemFile>,
    failing: Vec<u64>,
    // The last ldmd.conf.
    text: Vec<u8>,
}

impl Kept {
    pub fn create(alloc: Global) -> Option<Kept> {
        Some(Kept {
            class: None,
            policy: Policy::create(alloc).ok()?,
            files: Vec::new(alloc),
            failing: Vec::new(alloc),
            text: Vec::new(alloc),
        })
    }

    /// A case of that name. The README has the fields.
    pub fn answer(&mut self, name: &str, trial: &mut Trial) {
        match name {
            "lines" | "words" | "blank" | "begins" => texts::answer(name, trial),
            "find" | "part" | "group" | "feed" | "feed_of" => patterns::answer(name, trial),
            "class" => classes::build(&mut self.class, trial),
            "wants" => classes::ask(&self.class, trial),
            "policy" | "policy_all" | "allow" | "accept" => {
                policies::change(name, &mut self.policy, trial)
            }
            "verdict" | "verdicts" | "reduce" => policies::ask(name, &self.policy, trial),
            "file" | "file_of" | "failing" | "forget" => conf::prepare(name, self, trial),
            "conf" | "conf_of" => conf::read(name, self, trial),
            "mutate_conf" => mutated::read(self, trial),
            _ => trial.refuse("no such word"),
        }
    }
}
