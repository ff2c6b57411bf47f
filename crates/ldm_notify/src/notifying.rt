//! The call that tells of products.
ghost use Rattle.std.specs.Prelude.{◌≡◌, ◌≢◌, ◌≤◌, length, false, None, List, ℕ};
ghost use Rattle.ldm_outside.specs.Gate.{GateRecord};
ghost use Rattle.ldm_outside.specs.Io.{SinkRecord};
ghost use Rattle.ldm_outside.specs.Link.{IsNotClosed};
ghost use Rattle.ldm_outside.specs.Session.{SessionRecord, session_tells, KeepsFaults};
ghost use Rattle.ldm_shared.specs.Passes.{IsPassOf, IsSamePass, PassView};
ghost use Rattle.ldm_session.specs.declared.gaps.TheConstants.{LONGEST_NAME};
ghost use Rattle.ldm_class.specs.Access.{reduce};
ghost use Rattle.ldm_class.specs.Classes.{bad_place};
ghost use Rattle.ldm_class.specs.Rules.{Rules, rules_for};
ghost use Rattle.ldm_class.specs.declared.answers.Reduced.TheVariants as reduced;
ghost use Rattle.ldm_notify.specs.Notifying.{asked_of};
ghost use Rattle.ldm_notify.specs.Notifies.{Notifies, NotifiesTo};

use crate::asking::Asking;
use crate::end::{NoteEnd, notify_end};
use ldm_class::{Class, ClassFault, Policy, Reduced};
use ldm_outside::{Clock, Gate, Link, Sink};
use ldm_relay::{ClassAnswer, Notifyme};
use ldm_sender::{SendEnd, decline};
use ldm_shared::{Pass, Shared};
use std::alloc::Global;
use std::sync::Wait;

// Answers a request for a class of which only that is left to the host.
fn decline_whole<K: Link, C: Clock>(
    alloc: Global,
    link: &mut K,
    clock: &mut C,
    ask: &Notifyme,
    left: Reduced,
) -> SendEnd
    requires not_closed { IsNotClosed (K.tells link.old) }
    requires not_whole { left ≢ reduced.Same }
    ensures { (host : List ℕ) (rules : Rules) (pass : PassView) (log : SinkRecord) (gate : GateRecord)
        → reduce (rules_for false rules) host ask.now.class ≡ left →
        let before : SessionRecord = record
        { link = K.tells link.old; log = log; clock = C.tells clock.old; gate = gate } in
        let after : SessionRecord = record
        { link = K.tells link.new; log = log; clock = C.tells clock.new; gate = gate } in
        NotifiesTo result (asked_of host rules ask.now) pass pass before after × KeepsFaults before after }
{
    match left {
        Reduced::Same => unreachable!(),
        Reduced::Fewer(fewer) => {
            match decline(alloc, ask.xid, ClassAnswer::Reclass(fewer), link, clock) {
                Ok(()) => SendEnd::Reclassed,
                Err(end) => end,
            }
        }
        Reduced::Nothing { rule } => {
            match decline(alloc, ask.xid, ClassAnswer::Denied, link, clock) {
                Ok(()) => SendEnd::Denied { rule },
                Err(end) => end,
            }
        }
    }
}

/// Answers a peer's NOTIFYME and tells it of products: a notice of each product that is due goes out, in the order of
/// the queue, until the gate says to stop or something ends it. Losses are log lines.
///
/// The rules are asked first. The class is built only where all of it is left to the host; one that cannot be built
/// then is [`NoteEnd::OutOfMemory`].
///
/// The cursor that was opened is closed at every end but [`NoteEnd::Worn`], and the link at [`NoteEnd::Stopped`]
/// alone.
pub fn notify_asked<H: Wait, K: Link, E: Sink, G: Gate, C: Clock>(
    rt: &H,
    alloc: Global,
    shared: &Shared,
    pass: &mut Pass,
    link: &mut K,
    log: &mut E,
    gate: &mut G,
    clock: &mut C,
    host: &[u8],
    ask: &Notifyme,
    policy: &Policy,
) -> NoteEnd
    requires of { IsPassOf shared.now pass.old }
    requires means { bad_place ask.now.class.specs.items ≡ None }
    requires name { length host.now ≤ LONGEST_NAME }
    requires not_closed { IsNotClosed (K.tells link.old) }
    ensures kept { IsSamePass pass.old pass.new }
    ensures counts { KeepsFaults (session_tells K.tells E.tells C.tells G.tells link.old log.old clock.old gate.old)
        (session_tells K.tells E.tells C.tells G.tells link.new log.new clock.new gate.new) }
    ensures notified { Notifies result (asked_of host.now policy.now ask.now) pass.old pass.new
        (session_tells K.tells E.tells C.tells G.tells link.old log.old clock.old gate.old)
        (session_tells K.tells E.tells C.tells G.tells link.new log.new clock.new gate.new) }
{
    match policy.reduce(alloc, host, &ask.class, false) {
        Ok(Reduced::Same) => match Class::build(alloc, &ask.class) {
            Ok(class) => match Asking::create(alloc, host, ask, &class, policy) {
                Ok(asking) => notify_end(asking.tell(rt, shared, pass, link, log, gate, clock)),
                Err(_) => NoteEnd::OutOfMemory,
            },
            Err(ClassFault::BadPattern { .. }) => unreachable!(),
            Err(ClassFault::OutOfMemory) => NoteEnd::OutOfMemory,
        },
        Ok(left) => notify_end(decline_whole(alloc, link, clock, ask, left)),
        Err(_) => NoteEnd::OutOfMemory,
    }
}

/// [`notify_asked`], where the class is built already.
pub fn notify<H: Wait, K: Link, E: Sink, G: Gate, C: Clock>(
    rt: &H,
    alloc: Global,
    shared: &Shared,
    pass: &mut Pass,
    link: &mut K,
    log: &mut E,
    gate: &mut G,
    clock: &mut C,
    host: &[u8],
    ask: &Notifyme,
    class: &Class,
    policy: &Policy,
) -> NoteEnd
    requires of { IsPassOf shared.now pass.old }
    requires built { class.now ≡ ask.now.class }
    requires name { length host.now ≤ LONGEST_NAME }
    requires not_closed { IsNotClosed (K.tells link.old) }
    ensures kept { IsSamePass pass.old pass.new }
    ensures counts { KeepsFaults (session_tells K.tells E.tells C.tells G.tells link.old log.old clock.old gate.old)
        (session_tells K.tells E.tells C.tells G.tells link.new log.new clock.new gate.new) }
    ensures notified { Notifies result (asked_of host.now policy.now ask.now) pass.old pass.new
        (session_tells K.tells E.tells C.tells G.tells link.old log.old clock.old gate.old)
        (session_tells K.tells E.tells C.tells G.tells link.new log.new clock.new gate.new) }
{
    match policy.reduce(alloc, host, &ask.class, false) {
        Ok(Reduced::Same) => match Asking::create(alloc, host, ask, class, policy) {
            Ok(asking) => notify_end(asking.tell(rt, shared, pass, link, log, gate, clock)),
            Err(_) => NoteEnd::OutOfMemory,
        },
        Ok(left) => notify_end(decline_whole(alloc, link, clock, ask, left)),
        Err(_) => NoteEnd::OutOfMemory,
    }
}
