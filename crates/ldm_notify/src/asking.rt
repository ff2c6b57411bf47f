//! A request for notices of a class of which all is left to the host.
ghost use Rattle.std.specs.Prelude.{◌≡◌, IfOk};
ghost use Rattle.ldm_outside.specs.Link.{IsNotClosed};
ghost use Rattle.ldm_outside.specs.Session.{session_tells, KeepsFaults};
ghost use Rattle.ldm_shared.specs.Passes.{IsPassOf, IsSamePass};
ghost use Rattle.ldm_notify.specs.Asking.{CanOpen, IsAskingOf, asked_as};
ghost use Rattle.ldm_notify.specs.Notifies.{NotifiesTo};
ghost use Rattle.ldm_notify.specs.Notifying.{asked_of};

use crate::notifier::Notifier;
use ldm_class::{Class, ClassMatcher, HostPolicy, Policy};
use ldm_outside::{Clock, Gate, Link, Sink};
use ldm_relay::{ClassAnswer, Notifyme};
use ldm_sender::{SendEnd, Standing, answer_class, open_for};
use ldm_session::room_to_gather;
use ldm_shared::{Pass, Shared, Turn};
use ldm_types::OutOfMemory;
use std::alloc::Global;
use std::sync::Wait;

// Who asks for notices and for what, with all the memory that telling takes but that of the notices: it is taken before
// the cursor is opened.
#[derive(Drop)]
pub(crate) struct Asking<'n> {
    // The number of the call that asks.
    xid: u32,
    class: &'n Class,
    wanted: ClassMatcher<'n>,
    rules: HostPolicy<'n>,
    out: Vec<u8>,
}

impl<'n> Asking<'n> {
    pub(crate) fn create(
        alloc: Global,
        host: &[u8],
        ask: &Notifyme,
        class: &'n Class,
        policy: &'n Policy,
    ) -> Result<Asking<'n>, OutOfMemory>
        requires { class.now ≡ ask.now.class }
        ensures { IfOk result (IsAskingOf (asked_of host.now policy.now ask.now)) }
    {
        let Ok(out) = room_to_gather(alloc) else {
            return Err(OutOfMemory);
        };
        let Ok(wanted) = class.matcher(alloc) else {
            return Err(OutOfMemory);
        };
        let Ok(rules) = policy.for_host(alloc, host, false) else {
            return Err(OutOfMemory);
        };
        Ok(Asking {
            xid: ask.xid,
            class,
            wanted,
            rules,
            out,
        })
    }

    // Opens the cursor, answers the request and tells of products.
    pub(crate) fn tell<H: Wait, K: Link, E: Sink, G: Gate, C: Clock>(
        self,
        rt: &H,
        shared: &Shared,
        pass: &mut Pass,
        link: &mut K,
        log: &mut E,
        gate: &mut G,
        clock: &mut C,
    ) -> SendEnd
        requires of { IsPassOf shared.now pass.old }
        requires granted { CanOpen self }
        requires not_closed { IsNotClosed (K.tells link.old) }
        ensures kept { IsSamePass pass.old pass.new }
        ensures notified { NotifiesTo result (asked_as self.entry) pass.old pass.new
            (session_tells K.tells E.tells C.tells G.tells link.old log.old clock.old gate.old)
            (session_tells K.tells E.tells C.tells G.tells link.new log.new clock.new gate.new)
            × KeepsFaults (session_tells K.tells E.tells C.tells G.tells link.old log.old clock.old gate.old)
            (session_tells K.tells E.tells C.tells G.tells link.new log.new clock.new gate.new) }
    {
        let Asking {
            xid,
            class,
            wanted,
            rules,
            out,
        } = self;
        match open_for(rt, shared, pass, class) {
            Turn::Done(Some(reader)) => {
                let mut notifier = Notifier {
                    reader,
                    xid,
                    to: class.spec().to,
                    class: wanted,
                    rules,
                    standing: Standing::first(),
                    out,
                };
                notifier.tell(rt, shared, pass, link, log, gate, clock)
            }
            Turn::Done(None) => {
                let mut out = out;
                match answer_class(xid, ClassAnswer::Busy, &mut out, link, clock) {
                    Ok(_) => SendEnd::AllBusy,
                    Err(end) => end,
                }
            }
            Turn::Worn { .. } => SendEnd::Worn,
        }
    }
}
