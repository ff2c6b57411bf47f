//! The example of ldm_gather.

use ldm_gather::{Handled, Handler};
use ldm_outside::Sink;
use ldm_shared::{Pass, Shared};
use std::sync::Wait;

/// Has enough after so many pieces.
pub struct Pieces {
    left: u64,
}

impl Handler<(), ()> for Pieces {
    ghost cursor = { λ _. 0 };

    ghost begins = { λ _ _ _. Unit {0} };

    ghost handles = { λ _ _ _. Unit {0} };

    fn handle<H: Wait, E: Sink>(
        &mut self,
        _rt: &H,
        _shared: &Shared,
        _pass: &mut Pass,
        _first: &mut (),
        _second: &mut (),
        _log: &mut E,
    ) -> Handled {
        self.left = self.left.saturating_sub(1);
        if self.left == 0 {
            Handled::Enough
        } else {
            Handled::On
        }
    }
}
