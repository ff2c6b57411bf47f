//! A session of notices, from its answer to its end.
ghost use Rattle.std.specs.Prelude.{◌≡◌, [], Bool};
ghost use Rattle.ldm_outside.specs.Link.{IsNotClosed};
ghost use Rattle.ldm_outside.specs.Session.{session_tells, KeepsFaults};
ghost use Rattle.ldm_shared.specs.Passes.{IsPassOf, IsSamePass, PassView, Makes};
ghost use Rattle.ldm_sender.specs.Acts.{situation_of};
ghost use Rattle.ldm_sender.specs.Does.{moment_of};
ghost use Rattle.ldm_sender.specs.Opening.{Opened, IsAnswerTo, opening_entries};
ghost use Rattle.ldm_sender.specs.Stopping.{KeepsCursor};
ghost use Rattle.ldm_notify.specs.Notifier.{CanBegin, asked_by};
ghost use Rattle.ldm_notify.specs.Notifies.{HasNotified, NotifiesTo};

use crate::notifier::Notifier;
use ldm_outside::{Clock, Gate, Link, Sink};
use ldm_relay::ClassAnswer;
use ldm_sender::{SendEnd, answer_class};
use ldm_shared::{Pass, Shared, Turn, products_stay};
use std::sync::Wait;

impl Notifier<'_> {
    // Tells the peer that it will be told of products, and makes turns until these end.
    fn begin<H: Wait, K: Link, E: Sink, G: Gate, C: Clock>(
        &mut self,
        rt: &H,
        shared: &Shared,
        pass: &mut Pass,
        link: &mut K,
        log: &mut E,
        gate: &mut G,
        clock: &mut C,
    ) -> SendEnd
        requires of { IsPassOf shared.now pass.old }
        requires begins { CanBegin self.old pass.old }
        requires not_closed { IsNotClosed (K.tells link.old) }
        ensures kept { IsSamePass pass.old pass.new }
        ensures still_open { IsNotClosed (K.tells link.new) }
        ensures notified { (missed : Bool) (first : PassView)
            → IsAnswerTo (asked_by self.old) (Opened missed self.old.reader.k)
            → Makes first pass.old (opening_entries first.actor (asked_by self.old) (Opened missed self.old.reader.k))
            → HasNotified result (asked_by self.old) (Opened missed self.old.reader.k)
            (situation_of (moment_of first (K.tells link.old) (C.tells clock.old) []) (E.tells log.old)
            (G.tells gate.old))
            (situation_of (moment_of pass.new (K.tells link.new) (C.tells clock.new) self.new.out.items)
            (E.tells log.new) (G.tells gate.new)) }
        ensures cursor { KeepsCursor result pass.new self.old.reader.k }
    {
        match answer_class(self.xid, ClassAnswer::Ok, &mut self.out, link, clock) {
            Ok(at) => self.standing.sent_at = at,
            Err(end) => return end,
        }
        self.turns(rt, shared, pass, link, log, gate, clock)
    }

    // Tells of products by the cursor, and closes it.
    pub(crate) fn tell<H: Wait, K: Link, E: Sink, G: Gate, C: Clock>(
        &mut self,
        rt: &H,
        shared: &Shared,
        pass: &mut Pass,
        link: &mut K,
        log: &mut E,
        gate: &mut G,
        clock: &mut C,
    ) -> SendEnd
        requires of { IsPassOf shared.now pass.old }
        requires begins { CanBegin self.old pass.old }
        requires not_closed { IsNotClosed (K.tells link.old) }
        ensures kept { IsSamePass pass.old pass.new }
        ensures notified { (missed : Bool) (first : PassView)
            → IsAnswerTo (asked_by self.old) (Opened missed self.old.reader.k)
            → Makes first pass.old (opening_entries first.actor (asked_by self.old) (Opened missed self.old.reader.k))
            → NotifiesTo result (asked_by self.old) first pass.new
            (session_tells K.tells E.tells C.tells G.tells link.old log.old clock.old gate.old)
            (session_tells K.tells E.tells C.tells G.tells link.new log.new clock.new gate.new)
            × KeepsFaults (session_tells K.tells E.tells C.tells G.tells link.old log.old clock.old gate.old)
            (session_tells K.tells E.tells C.tells G.tells link.new log.new clock.new gate.new) }
    {
        products_stay();
        let reader = self.reader;
        let end = self.begin(rt, shared, pass, link, log, gate, clock);
        if let SendEnd::Worn = end {
            return end;
        }
        if let Turn::Worn { .. } = reader.close(shared, rt, pass) {
            return SendEnd::Worn;
        }
        if let SendEnd::Stopped = end {
            link.close();
        }
        end
    }
}
