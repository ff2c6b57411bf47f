//! A request for which no cursor is opened.
ghost use Rattle.ldm_outside.specs.Link.{IsNotClosed};
ghost use Rattle.ldm_shared.specs.Passes.{PassView};
ghost use Rattle.ldm_sender.specs.Answering.{Declines};

use crate::answer::answer_class;
use crate::end::SendEnd;
use ldm_outside::{Clock, Link};
use ldm_relay::ClassAnswer;
use ldm_session::room_to_gather;
use std::alloc::Global;

/// Answers a request for which no cursor is opened.
pub fn decline<K: Link, C: Clock>(
    alloc: Global,
    xid: u32,
    answer: ClassAnswer,
    link: &mut K,
    clock: &mut C,
) -> Result<(), SendEnd>
    requires { IsNotClosed (K.tells link.old) }
    ensures still_open { IsNotClosed (K.tells link.new) }
    ensures declines { (pass : PassView)
        → Declines result xid answer pass (K.tells link.old) (C.tells clock.old) (K.tells link.new)
        (C.tells clock.new) }
{
    let mut out = room_to_gather(alloc)?;
    answer_class(xid, answer, &mut out, link, clock)?;
    Ok(())
}
