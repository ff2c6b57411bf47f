//! The links that a door or a dial over TCP hands out, one at a time.
ghost use Rattle.std.specs.Prelude.{◌≡◌, false};

use crate::links::RealLink;

/// Whether a link is out, and how many were given back that had ended and that had failed.
#[derive(Debug, Drop)]
pub struct RealLending {
    out: bool,
    ended: u64,
    failed: u64,
}

impl RealLending {
    ghost use Rattle.std.specs.Prelude.{ℕ, nat_lt};
    ghost use Rattle.ldm_outside.specs.Lending.{CountsBack, TakesBack, IsUnlent, with_out};
    ghost use Rattle.ldm_adapters.specs.Told.{told_by_lending, told_by_link};

    /// No link is out, and none was.
    pub(crate) fn new() -> RealLending
        ensures { IsUnlent (told_by_lending result) }
    {
        RealLending {
            out: false,
            ended: 0,
            failed: 0,
        }
    }

    /// A link is out from now on.
    pub(crate) fn hand_out(&mut self)
        ensures { told_by_lending self.new ≡ with_out (told_by_lending self.old) }
    {
        self.out = true;
    }

    /// Takes a link back.
    pub(crate) fn take_back(&mut self, link: RealLink)
        ensures { TakesBack (told_by_link link) (told_by_lending self.old) (told_by_lending self.new) }
    {
        link.end();
        self.count(link.ended(), link.failed());
    }

    // The link is out no more: one that had ended, or failed.
    fn count(&mut self, ended: bool, failed: bool)
        ensures ended { (ends : ℕ) → ended ≡ nat_lt 0 ends → CountsBack ends self.old.ended self.new.ended }
        ensures failed { (faults : ℕ) → failed ≡ nat_lt 0 faults → CountsBack faults self.old.failed self.new.failed }
        ensures out { self.new.out ≡ false }
    {
        if ended {
            self.ended = self.ended.saturating_add(1);
        }
        if failed {
            self.failed = self.failed.saturating_add(1);
        }
        self.out = false;
    }

    /// How many links were given back that had ended.
    pub(crate) fn ended(&self) -> u64
        ensures { result ≡ self.now.ended }
    {
        self.ended
    }

    /// How many links were given back that had failed.
    pub(crate) fn failed(&self) -> u64
        ensures { result ≡ self.now.failed }
    {
        self.failed
    }
}
