//! PUT.
ghost use Rattle.std.specs.Prelude.{◌≡◌, length};
ghost use Rattle.ldm_shared.specs.Passes.{IsPassOf, IsSamePass};
ghost use Rattle.ldm_serve.specs.InParts.{with_next};
ghost use Rattle.ldm_serve.specs.Respond.{to_put};
ghost use Rattle.ldm_serve.specs.Response.{Puts};
ghost use Rattle.ldm_serve.specs.Responds.{HasAnswerRoom, Responds, stands};

use crate::answers::{answer_of, put_answer};
use crate::client::Client;
use crate::responded::{RespondFault, Responded};
use crate::saying::answer_room;
use ldm_outside::Clock;
use ldm_relay::{Put, PutAnswer};
use ldm_shared::{Pass, Shared, Turn};
use std::sync::Wait;

// A product that the peer hands in. The connection goes on behind it.
pub(crate) fn put<H: Wait, C: Clock>(
    rt: &H,
    shared: &Shared,
    pass: &mut Pass,
    clock: &mut C,
    client: &mut Client<'_>,
    product: &Put,
    out: &mut Vec<u8>,
) -> Result<(), RespondFault>
    requires of { IsPassOf shared.now pass.old }
    requires sized { length product.now.body.now ≡ product.now.info.size }
    ensures kept { IsSamePass pass.old pass.new }
    ensures same { client.new ≡ client.old }
    ensures responds { Responds (with_next result Responded.GoesOn)
        (to_put client.old.rules client.old.host product.now.xid product.now.info product.now.body.now)
        (stands pass.old (C.tells clock.old) out.old.items) (stands pass.new (C.tells clock.new) out.new.items) }
{
    answer_room(out)?;
    if client.may_push(&product.info)? {
        return insert(rt, shared, pass, clock, product, out);
    }
    put_answer(out, product.xid, PutAnswer::Denied);
    Ok(())
}

// Inserts a product at the clock's time. The body goes from the record into the queue.
fn insert<H: Wait, C: Clock>(
    rt: &H,
    shared: &Shared,
    pass: &mut Pass,
    clock: &mut C,
    product: &Put,
    out: &mut Vec<u8>,
) -> Result<(), RespondFault>
    requires of { IsPassOf shared.now pass.old }
    requires sized { length product.now.body.now ≡ product.now.info.size }
    requires room { HasAnswerRoom out.old }
    ensures kept { IsSamePass pass.old pass.new }
    ensures responds { Responds (with_next result Responded.GoesOn)
        (Puts product.now.xid product.now.info product.now.body.now)
        (stands pass.old (C.tells clock.old) out.old.items) (stands pass.new (C.tells clock.new) out.new.items) }
{
    let now = clock.now();
    match shared.insert(rt, pass, now, &product.info, product.body) {
        Turn::Done(reply) => {
            put_answer(out, product.xid, answer_of(reply));
            Ok(())
        }
        Turn::Worn { .. } => Err(RespondFault::Worn),
    }
}
