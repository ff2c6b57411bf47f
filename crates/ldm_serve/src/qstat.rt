//! QSTAT.
ghost use Rattle.std.specs.Prelude.{◌≡◌, ℕ, [], IfOk};
ghost use Rattle.ldm_outside.specs.Clock.{ClockRecord};
ghost use Rattle.ldm_shared.specs.Passes.{IsPassOf};
ghost use Rattle.ldm_serve.specs.Access.{may_know};
ghost use Rattle.ldm_serve.specs.Respond.{to_qstat};
ghost use Rattle.ldm_serve.specs.Response.{Figures};
ghost use Rattle.ldm_serve.specs.Responds.{HasAnswerRoom, Responds, stands};

use crate::answers::put_stat;
use crate::client::Client;
use crate::responded::{RespondFault, Responded};
use crate::saying::answer_room;
use arrayvec::ArrayVec;
use ldm_class::Reduced;
use ldm_shared::{Pass, Shared, Turn};
use ldm_types::{ClassSpec, Micros, OutOfMemory};
use std::sync::Wait;

// A question for the figures of the queue.
pub(crate) fn qstat<H: Wait>(
    rt: &H,
    shared: &Shared,
    pass: &mut Pass,
    client: &Client<'_>,
    xid: u32,
    out: &mut Vec<u8>,
) -> Result<Responded, RespondFault>
    requires { IsPassOf shared.now pass.old }
    ensures { (clock : ClockRecord) → Responds result (to_qstat client.now.rules client.now.host xid)
        (stands pass.old clock out.old.items) (stands pass.new clock out.new.items) }
{
    answer_room(out)?;
    if may_know(client)? {
        return figures(rt, shared, pass, xid, out);
    }
    put_stat(out, xid, None);
    Ok(Responded::GoesOn)
}

// Answers the figures of the queue.
fn figures<H: Wait>(
    rt: &H,
    shared: &Shared,
    pass: &mut Pass,
    xid: u32,
    out: &mut Vec<u8>,
) -> Result<Responded, RespondFault>
    requires of { IsPassOf shared.now pass.old }
    requires room { HasAnswerRoom out.old }
    ensures { (clock : ClockRecord) → Responds result (Figures xid)
        (stands pass.old clock out.old.items) (stands pass.new clock out.new.items) }
{
    match shared.stat(rt, pass) {
        Turn::Done(stat) => {
            put_stat(out, xid, Some(stat));
            Ok(Responded::GoesOn)
        }
        Turn::Worn { .. } => Err(RespondFault::Worn),
    }
}

// Whether some ALLOW rule is about the host: the number of the first one comes with what is left of a class without
// specifications.
fn may_know(client: &Client<'_>) -> Result<bool, OutOfMemory>
    ensures { IfOk result (λ known. known ≡ may_know client.now.rules client.now.host) }
{
    match client.left_of(&no_class(), false)? {
        Reduced::Nothing { rule } => Ok(rule != 0),
        Reduced::Same => unreachable!(),
        Reduced::Fewer(_) => unreachable!(),
    }
}

// A class without specifications.
fn no_class() -> ClassSpec
    ensures { result.specs.items ≡ [] }
{
    let Some(instant) = Micros::new(0) else {
        unreachable!();
    };
    ClassSpec {
        from: instant,
        to: instant,
        specs: ArrayVec::new(),
    }
}
