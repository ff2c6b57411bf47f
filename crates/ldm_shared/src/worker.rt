//! A worker: a pass, and what it has of its own.
ghost use Rattle.std.specs.Prelude.{◌≡◌};
ghost use Rattle.ldm_shared.specs.Passes.{IsPassOf};
ghost use Rattle.ldm_shared.specs.Workers.{Begins, Works};

use crate::work::Work;
use crate::{Pass, Shared};
use std::sync::Wait;

/// A worker.
pub(crate) struct Worker<T> {
    pub(crate) pass: Pass,
    pub(crate) own: T,
}

impl<T> Worker<T> {
    /// Does its work.
    // In a frame of its own: the halving of the workers above it has a level for each doubling of their number.
    #[inline(never)]
    pub(crate) fn run<H: Wait, W: Work<T>>(&mut self, rt: &H, shared: &Shared, work: &W)
        requires { Begins (W.begins work.now) shared.now self.old }
        ensures { Works (W.works work.now) self.old self.new }
    {
        work.work(rt, shared, &mut self.pass, &mut self.own);
    }
}
