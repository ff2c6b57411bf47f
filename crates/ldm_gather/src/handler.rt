//! What handles the products that are queued.
ghost use Rattle.std.specs.Prelude.{◌≤◌, ℕ, None};
ghost use Rattle.ldm_shared.specs.Passes.{IsPassOf, IsSamePass};
ghost use Rattle.ldm_shared.specs.Reader.{HasCursor};

use crate::end::Handled;
use ldm_outside::Sink;
use ldm_shared::{Pass, Shared};
use std::sync::Wait;

/// What handles the products that are queued: it reads the queue by a cursor, which holds nothing between two calls.
///
/// It is lent two things of the caller's, `first` and `second`, such as what it writes to. One who needs fewer takes
/// `()`.
pub trait Handler<A, B> {
    ghost use Rattle.ldm_gather.specs.declared.end.Handled.{Handled};
    ghost use Rattle.ldm_gather.specs.Scene.{Scene, IfOn, scene_of};

    /// The place of its cursor.
    ghost cursor: { Self → ℕ };

    /// What has to hold before a call, of it and of what it is lent.
    ghost begins: { Self → A → B → Type 0 };

    /// What a call does that answers so.
    ghost handles: { Handled → Scene Self A B → Scene Self A B → Type 0 };

    /// Handles what is queued. It may write lines to the log.
    ///
    /// Where it answers [`Handled::On`], the cursor is the same one and holds nothing, and it may be called again.
    fn handle<H: Wait, E: Sink>(
        &mut self,
        rt: &H,
        shared: &Shared,
        pass: &mut Pass,
        first: &mut A,
        second: &mut B,
        log: &mut E,
    ) -> Handled
        requires of { IsPassOf shared.now pass.old }
        requires has_cursor { HasCursor pass.old (cursor self.old) None }
        requires may { begins self.old first.old second.old }
        ensures same { IsSamePass pass.old pass.new }
        ensures still_has_cursor { IfOn result (HasCursor pass.new (cursor self.new) None) }
        ensures may_again { IfOn result (begins self.new first.new second.new) }
        ensures log_kept { (E.tells log.old).faults ≤ (E.tells log.new).faults }
        ensures handled { handles result (scene_of self.old first.old second.old pass.old (E.tells log.old))
            (scene_of self.new first.new second.new pass.new (E.tells log.new)) };
}
