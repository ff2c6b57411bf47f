//! A request for products of a class of which all is left to the host.
ghost use Rattle.std.specs.Prelude.{◌≡◌, ℕ, List, [], IfOk};
ghost use Rattle.ldm_outside.specs.Link.{IsNotClosed};
ghost use Rattle.ldm_outside.specs.Session.{session_tells, KeepsFaults};
ghost use Rattle.ldm_shared.specs.Passes.{IsPassOf, IsSamePass};
ghost use Rattle.ldm_session.specs.Hearing.{Heard};
ghost use Rattle.ldm_sender.specs.Asked.{asked_of};
ghost use Rattle.ldm_upstream.specs.Asking.{CanOpen, IsAskingOf, asked_as};
ghost use Rattle.ldm_upstream.specs.Feeds.{DecidesFirst, Feeds};

use crate::feeder::Feeder;
use ldm_class::{Class, ClassMatcher, HostPolicy, Policy};
use ldm_outside::{Clock, Gate, Link, Sink};
use ldm_relay::{ClassAnswer, Feedme};
use ldm_sender::{SendEnd, Standing, answer_class, open_for};
use ldm_session::{Replies, room_to_gather};
use ldm_shared::{Pass, Shared, Turn};
use ldm_types::OutOfMemory;
use std::alloc::Global;
use std::sync::Wait;

// Who asks for products and for what, with all the memory that feeding takes: it is taken before the cursor is opened.
#[derive(Drop)]
pub(crate) struct Asking<'f> {
    // The number of the call that asks.
    xid: u32,
    // The size of the largest product that is to come whole.
    max_hereis: u32,
    class: &'f Class,
    wanted: ClassMatcher<'f>,
    rules: HostPolicy<'f>,
    out: Vec<u8>,
    replies: Replies,
}

impl<'f> Asking<'f> {
    pub(crate) fn create(
        alloc: Global,
        host: &[u8],
        ask: &Feedme,
        class: &'f Class,
        policy: &'f Policy,
        ahead: &[u8],
    ) -> Result<Asking<'f>, OutOfMemory>
        requires { class.now ≡ ask.now.class }
        ensures { IfOk result (IsAskingOf (asked_of host.now policy.now ask.now) ahead.now) }
    {
        let Ok(out) = room_to_gather(alloc) else {
            return Err(OutOfMemory);
        };
        let Ok(wanted) = class.matcher(alloc) else {
            return Err(OutOfMemory);
        };
        let Ok(rules) = policy.for_host(alloc, host, false) else {
            return Err(OutOfMemory);
        };
        let Ok(replies) = Replies::create(alloc, ahead) else {
            return Err(OutOfMemory);
        };
        Ok(Asking {
            xid: ask.xid,
            max_hereis: ask.max_hereis,
            class,
            wanted,
            rules,
            out,
            replies,
        })
    }

    // Opens the cursor, answers the request and feeds.
    pub(crate) fn feed<H: Wait, K: Link, E: Sink, G: Gate, C: Clock>(
        self,
        rt: &H,
        shared: &Shared,
        pass: &mut Pass,
        link: &mut K,
        log: &mut E,
        gate: &mut G,
        clock: &mut C,
    ) -> SendEnd
        requires of { IsPassOf shared.now pass.old }
        requires granted { CanOpen self }
        requires not_closed { IsNotClosed (K.tells link.old) }
        ensures kept { IsSamePass pass.old pass.new }
        ensures fed { (ahead : List ℕ) → Heard ahead [] self.entry.replies
            → Feeds result (asked_as self.entry) ahead pass.old pass.new
            (session_tells K.tells E.tells C.tells G.tells link.old log.old clock.old gate.old)
            (session_tells K.tells E.tells C.tells G.tells link.new log.new clock.new gate.new)
            × KeepsFaults (session_tells K.tells E.tells C.tells G.tells link.old log.old clock.old gate.old)
            (session_tells K.tells E.tells C.tells G.tells link.new log.new clock.new gate.new) }
        ensures decided { DecidesFirst (asked_as self.entry) pass.old pass.new (K.tells link.old) (K.tells link.new) }
    {
        let Asking {
            xid,
            max_hereis,
            class,
            wanted,
            rules,
            out,
            replies,
        } = self;
        match open_for(rt, shared, pass, class) {
            Turn::Done(Some(reader)) => {
                let mut feeder = Feeder {
                    reader,
                    xid,
                    max_hereis,
                    to: class.spec().to,
                    class: wanted,
                    rules,
                    standing: Standing::first(),
                    out,
                    replies,
                };
                feeder.feed(rt, shared, pass, link, log, gate, clock)
            }
            Turn::Done(None) => {
                let mut out = out;
                match answer_class(xid, ClassAnswer::Busy, &mut out, link, clock) {
                    Ok(_) => SendEnd::AllBusy,
                    Err(end) => end,
                }
            }
            Turn::Worn { .. } => SendEnd::Worn,
        }
    }
}
