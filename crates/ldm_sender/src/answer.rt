//! How a request is answered.
ghost use Rattle.std.specs.Prelude.{◌≡◌, [], OnOk};
ghost use Rattle.ldm_outside.specs.Link.{IsNotClosed};
ghost use Rattle.ldm_shared.specs.Passes.{PassView, IsPassOf, IsSamePass};
ghost use Rattle.ldm_sender.specs.Asked.{Asked};
ghost use Rattle.ldm_sender.specs.Does.{moment_of};
ghost use Rattle.ldm_sender.specs.Answering.{AnswersClass, OpensFor};

use crate::end::SendEnd;
use crate::opening::{feeds_of, start_at};
use ldm_class::Class;
use ldm_model::Start;
use ldm_outside::{Clock, Link};
use ldm_relay::{ClassAnswer, FeedmeReply, Message, write_message};
use ldm_session::send_gathered;
use ldm_shared::{Opening, Pass, Reader, Shared, Turn};
use ldm_types::Micros;
use std::sync::Wait;

/// Opens the cursor of a class: behind the product that it names, where it names one and that is queued; else at the
/// instant that it asks for. None where all cursors are taken.
pub fn open_for<H: Wait>(
    rt: &H,
    shared: &Shared,
    pass: &mut Pass,
    class: &Class,
) -> Turn<Option<Reader>>
    requires { IsPassOf shared.now pass.old }
    ensures kept { IsSamePass pass.old pass.new }
    ensures opens { (asked : Asked) → asked.class ≡ class.now → OpensFor result asked pass.old pass.new }
{
    let feeds = feeds_of(class.spec());
    if let Some(signature) = class.resume() {
        match Reader::open(shared, rt, pass, feeds, Start::AfterSignature(signature)) {
            Turn::Done(Opening::Opened(reader)) => return Turn::Done(Some(reader)),
            Turn::Done(Opening::AllBusy) => return Turn::Done(None),
            Turn::Done(Opening::NotQueued) => {}
            Turn::Worn { turns } => return Turn::Worn { turns },
        }
    }
    match Reader::open(shared, rt, pass, feeds, start_at(class.spec().from)) {
        Turn::Done(Opening::Opened(reader)) => Turn::Done(Some(reader)),
        Turn::Done(Opening::AllBusy) => Turn::Done(None),
        Turn::Done(Opening::NotQueued) => unreachable!(),
        Turn::Worn { turns } => Turn::Worn { turns },
    }
}

/// Answers a request, a FEEDME or a NOTIFYME: their replies are spelled alike. Sends the answer with all that is
/// gathered, and tells the instant after it.
pub fn answer_class<K: Link, C: Clock>(
    xid: u32,
    answer: ClassAnswer,
    out: &mut Vec<u8>,
    link: &mut K,
    clock: &mut C,
) -> Result<Micros, SendEnd>
    requires { IsNotClosed (K.tells link.old) }
    ensures still_open { IsNotClosed (K.tells link.new) }
    ensures answers { (pass : PassView) → AnswersClass result xid answer
        (moment_of pass (K.tells link.old) (C.tells clock.old) out.old.items)
        (moment_of pass (K.tells link.new) (C.tells clock.new) out.new.items) }
    ensures empty { OnOk result (out.new.items ≡ []) }
{
    let message = Message::FeedmeReply(FeedmeReply { xid, answer });
    write_message(&message, out)?;
    let at = clock.now();
    send_gathered(out, link)?;
    Ok(at)
}
