//! The links that a door or a dial in memory hands out, one at a time, and keeps once they were given back.
ghost use Rattle.std.specs.Prelude.{◌≡◌};
ghost use Rattle.ldm_outside.specs.Lending.{CountsBack};
ghost use Rattle.ldm_outside_memory.specs.MemLending.{counted};

use crate::mem_link::MemLink;
use ldm_outside::Link;
use std::alloc::Global;
use std::collections::VecDeque;
use std::marker::Model;

/// The links that were given back, and whether one is out. A link needs no memory to be given back.
#[derive(Drop)]
pub(crate) struct Lending {
    back: Vec<MemLink>,
    out: bool,
    ended: u64,
    failed: u64,
}

impl Model for Lending {
    ghost use Rattle.std.specs.Prelude.{◌≡◌, true, ◌<◌, vec_len, vec_capacity};
    ghost use Rattle.ldm_outside_memory.specs.MemLending.{LendingState};

    ghost Value = { LendingState };

    ghost view = { λ s. record { back = s.back.items; ended = s.ended; failed = s.failed; out = s.out } };

    // There is room for the link that is out.
    ghost invariant = { λ s. s.out ≡ true → vec_len s.back < vec_capacity s.back };
}

impl Lending {
    ghost use Rattle.std.specs.Prelude.{◌≡◌, true, false, ◌∷◌, MatchOption};
    ghost use Rattle.ldm_outside.specs.Lending.{TakesBack};
    ghost use Rattle.ldm_outside_memory.specs.MemLink.{told_by_link};
    ghost use Rattle.ldm_outside_memory.specs.MemLending.{nothing_lent, lent, after_back, told_by_lending};

    pub(crate) fn new(alloc: Global) -> Lending
        ensures { result ≡ nothing_lent }
    {
        Lending {
            back: Vec::new(alloc),
            out: false,
            ended: 0,
            failed: 0,
        }
    }

    /// The links that were given back, in order.
    pub(crate) fn back(&self) -> &[MemLink]
        ensures { result.now ≡ self.now.back }
    {
        self.back.as_slice()
    }

    /// How many of them had ended.
    pub(crate) fn ended(&self) -> u64
        ensures { result ≡ self.now.ended }
    {
        self.ended
    }

    /// How many of them had failed.
    pub(crate) fn failed(&self) -> u64
        ensures { result ≡ self.now.failed }
    {
        self.failed
    }

    /// Takes the next of those for whom a link is to be made, which is out from now on. Where there is none, or no
    /// memory for the link, everything stays as it was.
    pub(crate) fn lend_next<T>(&mut self, waiting: &mut VecDeque<T>) -> Option<T>
        requires { self.old.out ≡ false }
        ensures next { MatchOption result (waiting.new.items ≡ waiting.old.items)
            (λ next. waiting.old.items ≡ next ∷ waiting.new.items) }
        ensures out { MatchOption result (self.new ≡ self.old) (λ _. self.new ≡ lent self.old) }
    {
        if waiting.is_empty() || self.back.reserve(1).is_err() {
            return None;
        }
        self.out = true;
        waiting.pop_front()
    }

    /// Takes a link back, and counts it where it had ended and where it had failed.
    pub(crate) fn take_back(&mut self, link: MemLink)
        requires { self.old.out ≡ true }
        ensures back { self.new ≡ after_back link self.old }
        ensures told { TakesBack (told_by_link link) (told_by_lending self.old) (told_by_lending self.new) }
    {
        self.ended = raised_where(link.ends(), self.ended);
        self.failed = raised_where(link.faults(), self.failed);
        self.back.push_reserved(link);
        self.out = false;
    }
}

// A count of links after one more, which rises where this link's own count is above 0.
fn raised_where(of_link: u64, count: u64) -> u64
    ensures value { result ≡ counted of_link count }
    ensures counts { CountsBack of_link count result }
{
    if of_link == 0 {
        count
    } else {
        count.saturating_add(1)
    }
}
