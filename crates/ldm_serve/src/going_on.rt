//! How a connection goes on behind a record that its session does not outlive.
ghost use Rattle.std.specs.Prelude.{◌≡◌, ◌≤◌, ℕ, List, None, false, length, IfNone, IfSome};
ghost use Rattle.ldm_class.specs.Classes.{bad_place};
ghost use Rattle.ldm_outside.specs.Link.{IsNotClosed};
ghost use Rattle.ldm_outside.specs.Session.{KeepsFaults, session_tells};
ghost use Rattle.ldm_shared.specs.Passes.{IsPassOf, IsSamePass};
ghost use Rattle.ldm_session.specs.declared.gaps.TheConstants.{LONGEST_NAME};
ghost use Rattle.ldm_serve.specs.declared.responded.Responded.TheVariants as responded;
ghost use Rattle.ldm_serve.specs.Responds.{HasMeaning};
ghost use Rattle.ldm_serve.specs.Becoming.{Goes};
ghost use Rattle.ldm_serve.specs.ClientView.{client_by};
ghost use Rattle.ldm_serve.specs.Connection.{moment_of};
ghost use Rattle.ldm_serve.specs.Serve.{LeavesLink};
ghost use Rattle.ldm_serve.specs.Steps.{is_on};

use crate::client::Client;
use crate::end::ServeEnd;
use crate::responded::Responded;
use crate::taking::Connection;
use ldm_downstream::receive_pushed;
use ldm_notify::{NoteEnd, notify_asked};
use ldm_outside::{Clock, Gate, Link, Sink};
use ldm_relay::{Feedme, Notifyme};
use ldm_sender::SendEnd;
use ldm_shared::{Pass, Shared};
use ldm_upstream::feed_behind;
use std::sync::Wait;

// Feeds, up to the end of that.
fn go_on_feeding<H: Wait, K: Link, E: Sink, G: Gate, C: Clock>(
    rt: &H,
    shared: &Shared,
    pass: &mut Pass,
    link: &mut K,
    log: &mut E,
    gate: &mut G,
    clock: &mut C,
    client: &Client<'_>,
    ask: &Feedme,
    ahead: &[u8],
) -> Option<ServeEnd>
    requires of { IsPassOf shared.now pass.old }
    requires means { bad_place ask.now.class.specs.items ≡ None }
    requires name { length client.now.host ≤ LONGEST_NAME }
    requires not_closed { IsNotClosed (K.tells link.old) }
    ensures kept { IsSamePass pass.old pass.new }
    ensures counts { KeepsFaults (session_tells K.tells E.tells C.tells G.tells link.old log.old clock.old gate.old)
        (session_tells K.tells E.tells C.tells G.tells link.new log.new clock.new gate.new) }
    ensures still_open { IfNone result (IsNotClosed (K.tells link.new)) }
    ensures left { IfSome result (λ end. LeavesLink end (K.tells link.new)) }
    ensures goes { (at : ℕ)
        → Goes result (responded.Feeds ask.now) at
        (client_by client.now pass.old.actor) ahead.now
        (moment_of pass.old (session_tells K.tells E.tells C.tells G.tells link.old log.old clock.old gate.old))
        (moment_of pass.new (session_tells K.tells E.tells C.tells G.tells link.new log.new clock.new gate.new)) }
{
    match feed_behind(
        rt,
        client.alloc(),
        shared,
        pass,
        link,
        log,
        gate,
        clock,
        client.host(),
        ask,
        client.policy(),
        ahead,
    ) {
        SendEnd::Reclassed => None,
        why => Some(ServeEnd::Feed(why)),
    }
}

// Tells of products, up to the end of that. Nothing more is heard of the peer.
fn go_on_notifying<H: Wait, K: Link, E: Sink, G: Gate, C: Clock>(
    rt: &H,
    shared: &Shared,
    pass: &mut Pass,
    link: &mut K,
    log: &mut E,
    gate: &mut G,
    clock: &mut C,
    client: &Client<'_>,
    ask: &Notifyme,
) -> Option<ServeEnd>
    requires of { IsPassOf shared.now pass.old }
    requires means { bad_place ask.now.class.specs.items ≡ None }
    requires name { length client.now.host ≤ LONGEST_NAME }
    requires not_closed { IsNotClosed (K.tells link.old) }
    ensures kept { IsSamePass pass.old pass.new }
    ensures counts { KeepsFaults (session_tells K.tells E.tells C.tells G.tells link.old log.old clock.old gate.old)
        (session_tells K.tells E.tells C.tells G.tells link.new log.new clock.new gate.new) }
    ensures still_open { IfNone result (IsNotClosed (K.tells link.new)) }
    ensures left { IfSome result (λ end. LeavesLink end (K.tells link.new)) }
    ensures goes { (at : ℕ) (ahead : List ℕ) → Goes result (responded.Notifies ask.now) at
        (client_by client.now pass.old.actor) ahead
        (moment_of pass.old (session_tells K.tells E.tells C.tells G.tells link.old log.old clock.old gate.old))
        (moment_of pass.new (session_tells K.tells E.tells C.tells G.tells link.new log.new clock.new gate.new)) }
{
    match notify_asked(
        rt,
        client.alloc(),
        shared,
        pass,
        link,
        log,
        gate,
        clock,
        client.host(),
        ask,
        client.policy(),
    ) {
        NoteEnd::Reclassed => None,
        why => Some(ServeEnd::Notify(why)),
    }
}

/// Where a connection stands behind a record that its session does not outlive.
pub(crate) struct Behind<'a> {
    /// The byte that the record begins at.
    pub(crate) at: u64,
    /// The bytes behind it that came already.
    pub(crate) ahead: &'a [u8],
}

impl Connection<'_> {
    /// Goes on behind such a record: feeds, tells of products, or receives, up to the end of that, which is written; or
    /// is over. Where a part of the class is left to the host, there is no end: the peer was told that part, and the
    /// next record is to be read.
    #[cold]
    #[inline(never)]
    pub(crate) fn go_on<H: Wait, K: Link, E: Sink, G: Gate, C: Clock>(
        &mut self,
        rt: &H,
        shared: &Shared,
        pass: &mut Pass,
        link: &mut K,
        log: &mut E,
        gate: &mut G,
        clock: &mut C,
        behind: Behind<'_>,
    )
        requires of { IsPassOf shared.now pass.old }
        requires name { length self.old.client.host ≤ LONGEST_NAME }
        requires not_closed { IsNotClosed (K.tells link.old) }
        requires means { HasMeaning self.old.next }
        requires over { is_on self.old.next ≡ false }
        ensures kept { IsSamePass pass.old pass.new }
        ensures counts { KeepsFaults (session_tells K.tells E.tells C.tells G.tells link.old log.old clock.old gate.old)
            (session_tells K.tells E.tells C.tells G.tells link.new log.new clock.new gate.new) }
        ensures still_open { IfNone self.new.end (IsNotClosed (K.tells link.new)) }
        ensures left { IfSome self.new.end (λ end. LeavesLink end (K.tells link.new)) }
        ensures stays { self.new ≡ record self.old { next = Responded.GoesOn; end = self.new.end } }
        ensures goes { Goes self.new.end self.old.next behind.entry.at (client_by self.old.client pass.old.actor)
            behind.entry.ahead.now
            (moment_of pass.old (session_tells K.tells E.tells C.tells G.tells link.old log.old clock.old gate.old))
            (moment_of pass.new (session_tells K.tells E.tells C.tells G.tells link.new log.new clock.new gate.new)) }
    {
        self.end = become_next(
            rt,
            shared,
            pass,
            link,
            log,
            gate,
            clock,
            &self.client,
            &self.next,
            behind,
        );
        self.next = Responded::GoesOn;
    }
}

// Goes on as that says, up to the end of that.
fn become_next<H: Wait, K: Link, E: Sink, G: Gate, C: Clock>(
    rt: &H,
    shared: &Shared,
    pass: &mut Pass,
    link: &mut K,
    log: &mut E,
    gate: &mut G,
    clock: &mut C,
    client: &Client<'_>,
    next: &Responded,
    behind: Behind<'_>,
) -> Option<ServeEnd>
    requires of { IsPassOf shared.now pass.old }
    requires name { length client.now.host ≤ LONGEST_NAME }
    requires not_closed { IsNotClosed (K.tells link.old) }
    requires means { HasMeaning next.now }
    requires over { is_on next.now ≡ false }
    ensures kept { IsSamePass pass.old pass.new }
    ensures counts { KeepsFaults (session_tells K.tells E.tells C.tells G.tells link.old log.old clock.old gate.old)
        (session_tells K.tells E.tells C.tells G.tells link.new log.new clock.new gate.new) }
    ensures still_open { IfNone result (IsNotClosed (K.tells link.new)) }
    ensures left { IfSome result (λ end. LeavesLink end (K.tells link.new)) }
    ensures goes { Goes result next.now behind.entry.at (client_by client.now pass.old.actor) behind.entry.ahead.now
        (moment_of pass.old (session_tells K.tells E.tells C.tells G.tells link.old log.old clock.old gate.old))
        (moment_of pass.new (session_tells K.tells E.tells C.tells G.tells link.new log.new clock.new gate.new)) }
{
    let Behind { at, ahead } = behind;
    match next {
        Responded::Feeds { ask } => go_on_feeding(
            rt, shared, pass, link, log, gate, clock, client, ask, ahead,
        ),
        Responded::Notifies { ask } => go_on_notifying(
            rt, shared, pass, link, log, gate, clock, client, ask,
        ),
        Responded::Receives { class } => {
            let received = receive_pushed(
                rt,
                client.alloc(),
                shared,
                pass,
                link,
                log,
                clock,
                client.host(),
                class,
                client.policy(),
                ahead,
            );
            Some(ServeEnd::Receive(received.end))
        }
        Responded::Refused => Some(ServeEnd::BadFrame { at }),
        Responded::Denied { rule } => Some(ServeEnd::Denied { rule: *rule }),
        Responded::GoesOn => unreachable!(),
    }
}
