//! The example of ldm_shared.

ghost use Rattle.ldm_shared.specs.Passes.{IsPassOf, IsSamePass};

use ldm_model::LookReply;
use ldm_shared::{Pass, Shared, Turn};
use ldm_types::Signature;
use std::sync::Wait;

/// Whether a product is queued, as a pass sees it at its turn.
pub fn is_queued<H: Wait>(rt: &H, shared: &Shared, pass: &mut Pass, s: &Signature) -> bool
    requires { IsPassOf shared.now pass.old }
    ensures { IsSamePass pass.old pass.new }
{
    match shared.look(rt, pass, s) {
        Turn::Done(reply) => reply != LookReply::Absent,
        Turn::Worn { .. } => false,
    }
}
