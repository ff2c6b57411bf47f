//! What a worker does.
ghost use Rattle.ldm_shared.specs.Passes.{PassView, IsPassOf, IsSamePass};

use crate::{Pass, Shared};
use std::sync::Wait;

/// What each worker of a queue does, with a pass and with something of its own.
pub trait Work<T> {
    /// What it begins with: a pass, and what the worker has of its own.
    ghost begins: { Self → PassView → T → Type 0 };

    /// What it does: from the pass and what the worker has of its own to what it leaves of both.
    ghost works: { Self → PassView → T → PassView → T → Type 0 };

    /// Does the work.
    fn work<H: Wait>(&self, rt: &H, shared: &Shared, pass: &mut Pass, own: &mut T)
        requires of { IsPassOf shared.now pass.old }
        requires begins { begins self.now pass.old own.old }
        ensures same { IsSamePass pass.old pass.new }
        ensures works { works self.now pass.old own.old pass.new own.new };
}
