//! The announcement of a product, and the reply to it.
ghost use Rattle.std.specs.Prelude.{ℕ, List};
ghost use Rattle.ldm_outside.specs.Link.{IsNotClosed};
ghost use Rattle.ldm_shared.specs.Passes.{PassView};
ghost use Rattle.ldm_sender.specs.Does.{moment_of};
ghost use Rattle.ldm_upstream.specs.Giving.{given_of};
ghost use Rattle.ldm_upstream.specs.Offering.{Announces};

use ldm_outside::{Clock, Link};
use ldm_relay::{Comingsoon, LARGEST_BLOCK, Message, SoonAnswer, write_message};
use ldm_sender::{SendEnd, Standing, count_call};
use ldm_session::{Replies, send_gathered};
use ldm_shared::Held;
use std::sync::Wait;

// Announces a product, sends all that is gathered, and hears the reply.
pub(crate) fn announce<H: Wait, K: Link, C: Clock>(
    rt: &H,
    link: &mut K,
    clock: &mut C,
    held: &Held,
    standing: &mut Standing,
    out: &mut Vec<u8>,
    replies: &mut Replies,
) -> Result<SoonAnswer, SendEnd>
    requires { IsNotClosed (K.tells link.old) }
    ensures still_open { IsNotClosed (K.tells link.new) }
    ensures announces { (pass : PassView) (k : ℕ) (body : List ℕ)
        → Announces result k (given_of held.now body) standing.old standing.new
        (moment_of pass (K.tells link.old) (C.tells clock.old) out.old.items)
        (moment_of pass (K.tells link.new) (C.tells clock.new) out.new.items)
        replies.old replies.new }
{
    let xid = standing.next;
    let message = Message::Comingsoon(Comingsoon {
        xid,
        info: held.info.copy(),
        block_size: LARGEST_BLOCK as u32,
    });
    write_message(&message, out)?;
    count_call(standing, clock);
    send_gathered(out, link)?;
    Ok(replies.hear(rt, link, xid)?)
}
