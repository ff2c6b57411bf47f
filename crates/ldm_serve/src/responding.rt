//! What a server answers to one record.
ghost use Rattle.std.specs.Prelude.{◌≡◌, ◌<◌, ℕ, List, [], ◌∷◌};
ghost use Rattle.ldm_outside.specs.Clock.{ClockRecord};
ghost use Rattle.ldm_relay.specs.Sent as sent;
ghost use Rattle.ldm_shared.specs.Passes.{IsPassOf, IsSamePass, PassView};
ghost use Rattle.ldm_relay.specs.Reading.{call_of};
ghost use Rattle.ldm_serve.specs.ClientView.{client_by};
ghost use Rattle.ldm_serve.specs.InParts.{with_next};
ghost use Rattle.ldm_serve.specs.Respond.{respond, to_cut, to_fault, to_reading, to_short, to_unread};
ghost use Rattle.ldm_serve.specs.AskedView.{IsSizedAsked, to_asked};
ghost use Rattle.ldm_rpc.specs.Keeping.{IsFrontOf};
ghost use Rattle.ldm_serve.specs.Responds.{Responds, stands};
ghost use Rattle.ldm_serve.specs.Response.{Says};

use crate::answers::put_answer;
use crate::asking::{feedme, notifyme};
use crate::client::Client;
use crate::front::front_in;
use crate::hiya::hiya;
use crate::keeping::{LONGEST_CARRIED, longest_put};
use crate::put::put;
use crate::qstat::qstat;
use crate::reading::{Asked, read_asked};
use crate::refusing::refuse;
use crate::responded::{RespondFault, Responded};
use crate::saying::answer_room;
use ldm_class::Policy;
use ldm_outside::Clock;
use ldm_relay::{CallFront, LONGEST_CALL, PutAnswer, RelayFault, read_call_front, read_put};
use ldm_rpc::Front;
use ldm_shared::{Pass, Shared};
use std::alloc::Global;
use std::sync::Wait;

/// Responds to a record of a host, of which all is kept or a front: asks the queue what [the
/// definition](../specs/Respond.antt) says, appends the records that the peer is owed, and tells how the connection
/// goes on.
///
/// Memory is taken before the clock and the queue are asked, so what the queue answered is never lost. The body of a
/// product goes from the record into the queue without a copy between. A record of which less is kept than its answer
/// needs is as one for which there is no memory; [`serve`](crate::serve) keeps as much.
pub fn respond<H: Wait, C: Clock>(
    rt: &H,
    alloc: Global,
    shared: &Shared,
    pass: &mut Pass,
    clock: &mut C,
    policy: &Policy,
    host: &[u8],
    held: Front<'_>,
    out: &mut Vec<u8>,
) -> Result<Responded, RespondFault>
    requires { IsPassOf shared.now pass.old }
    ensures kept { IsSamePass pass.old pass.new }
    ensures responds { (content : List ℕ) → IsFrontOf held.entry content → Responds result
        (respond (record { rules = policy.now; host = host.now; actor = pass.old.actor; arena = shared.now.arena })
        content)
        (stands pass.old (C.tells clock.old) out.old.items) (stands pass.new (C.tells clock.new) out.new.items) }
{
    let mut client = Client::of(alloc, policy, host, shared.arena());
    let mut next = Responded::GoesOn;
    match answer(rt, shared, pass, clock, &mut client, held, out, &mut next) {
        Ok(()) => Ok(next),
        Err(why) => Err(why),
    }
}

/// [`respond`], for a client that is kept from one record to the next. How the connection goes on is written where it
/// does not read the next record: that has room for a class, which is not to be moved for each record.
pub(crate) fn answer<H: Wait, C: Clock>(
    rt: &H,
    shared: &Shared,
    pass: &mut Pass,
    clock: &mut C,
    client: &mut Client<'_>,
    held: Front<'_>,
    out: &mut Vec<u8>,
    next: &mut Responded,
) -> Result<(), RespondFault>
    requires of { IsPassOf shared.now pass.old }
    requires going { next.old ≡ Responded.GoesOn }
    ensures kept { IsSamePass pass.old pass.new }
    ensures same { client.new ≡ client.old }
    ensures responds { (content : List ℕ) → IsFrontOf held.entry content → Responds (with_next result next.new)
        (respond (client_by client.old pass.old.actor) content)
        (stands pass.old (C.tells clock.old) out.old.items) (stands pass.new (C.tells clock.new) out.new.items) }
{
    if held.len <= LONGEST_CALL {
        answer_short(rt, shared, pass, clock, client, held.bytes, out, next)
    } else {
        answer_long(rt, shared, pass, clock, client, held, out, next)
    }
}

// Answers a record of no more bytes than the longest call has.
fn answer_short<H: Wait, C: Clock>(
    rt: &H,
    shared: &Shared,
    pass: &mut Pass,
    clock: &mut C,
    client: &mut Client<'_>,
    content: &[u8],
    out: &mut Vec<u8>,
    next: &mut Responded,
) -> Result<(), RespondFault>
    requires of { IsPassOf shared.now pass.old }
    requires going { next.old ≡ Responded.GoesOn }
    ensures kept { IsSamePass pass.old pass.new }
    ensures same { client.new ≡ client.old }
    ensures responds { Responds (with_next result next.new)
        (to_short (client_by client.old pass.old.actor) content.now (call_of content.now))
        (stands pass.old (C.tells clock.old) out.old.items) (stands pass.new (C.tells clock.new) out.new.items) }
{
    match read_put(content) {
        Some(product) => put(rt, shared, pass, clock, client, &product, out),
        None => answer_call(rt, shared, pass, clock, client, content, out, next),
    }
}

// Answers a record of more bytes than the longest call has.
fn answer_long<H: Wait, C: Clock>(
    rt: &H,
    shared: &Shared,
    pass: &mut Pass,
    clock: &mut C,
    client: &mut Client<'_>,
    held: Front<'_>,
    out: &mut Vec<u8>,
    next: &mut Responded,
) -> Result<(), RespondFault>
    requires of { IsPassOf shared.now pass.old }
    requires going { next.old ≡ Responded.GoesOn }
    requires long { LONGEST_CALL < held.len }
    ensures kept { IsSamePass pass.old pass.new }
    ensures same { client.new ≡ client.old }
    ensures responds { (content : List ℕ) → IsFrontOf held.entry content → Responds (with_next result next.new)
        (respond (client_by client.old pass.old.actor) content)
        (stands pass.old (C.tells clock.old) out.old.items) (stands pass.new (C.tells clock.new) out.new.items) }
{
    match read_call_front(front_in(held.bytes)) {
        CallFront::Put { xid, info } => match client.front_answer(&info)? {
            Some(answer) => answer_front(xid, answer, out),
            None => {
                if u64::from(held.len) > longest_put(info.size()) {
                    let at = LONGEST_CALL as usize;
                    return refuse_long(RelayFault::BadMessage { xid, at }, out, next);
                }
                answer_whole(rt, shared, pass, clock, client, held, out, next)
            }
        },
        CallFront::Carries => {
            if held.len > LONGEST_CARRIED {
                let at = LONGEST_CARRIED as usize;
                return refuse_long(RelayFault::NotRpc { at }, out, next);
            }
            answer_whole(rt, shared, pass, clock, client, held, out, next)
        }
        CallFront::Other => answer_cut(front_in(held.bytes), out, next),
    }
}

// Answers a record of more bytes than the longest call has, all of which are read.
fn answer_whole<H: Wait, C: Clock>(
    rt: &H,
    shared: &Shared,
    pass: &mut Pass,
    clock: &mut C,
    client: &mut Client<'_>,
    held: Front<'_>,
    out: &mut Vec<u8>,
    next: &mut Responded,
) -> Result<(), RespondFault>
    requires of { IsPassOf shared.now pass.old }
    requires going { next.old ≡ Responded.GoesOn }
    ensures kept { IsSamePass pass.old pass.new }
    ensures same { client.new ≡ client.old }
    ensures responds { (content : List ℕ) → IsFrontOf held.entry content → Responds (with_next result next.new)
        (to_reading client.old.rules client.old.host (call_of content))
        (stands pass.old (C.tells clock.old) out.old.items) (stands pass.new (C.tells clock.new) out.new.items) }
{
    if held.bytes.len() < held.len as usize {
        return Err(RespondFault::OutOfMemory);
    }
    match read_put(held.bytes) {
        Some(product) => put(rt, shared, pass, clock, client, &product, out),
        None => answer_read(rt, shared, pass, clock, client, held.bytes, out, next),
    }
}

// Answers a PUT by what its metadata decide.
fn answer_front(xid: u32, answer: PutAnswer, out: &mut Vec<u8>) -> Result<(), RespondFault>
    ensures { (pass : PassView) (clock : ClockRecord) → Responds (with_next result Responded.GoesOn)
        (Says (sent.PutReply xid answer ∷ []))
        (stands pass clock out.old.items) (stands pass clock out.new.items) }
{
    answer_room(out)?;
    put_answer(out, xid, answer);
    Ok(())
}

// What has a class in place stands in functions of its own, so that nothing on the path of a PUT has room for one.

// Answers a record that is no PUT, of no more bytes than the longest call has.
#[cold]
#[inline(never)]
fn answer_call<H: Wait, C: Clock>(
    rt: &H,
    shared: &Shared,
    pass: &mut Pass,
    clock: &mut C,
    client: &mut Client<'_>,
    content: &[u8],
    out: &mut Vec<u8>,
    next: &mut Responded,
) -> Result<(), RespondFault>
    requires { IsPassOf shared.now pass.old }
    ensures kept { IsSamePass pass.old pass.new }
    ensures same { client.new ≡ client.old }
    ensures responds { Responds (with_next result next.new)
        (to_short (client_by client.old pass.old.actor) content.now (call_of content.now))
        (stands pass.old (C.tells clock.old) out.old.items) (stands pass.new (C.tells clock.new) out.new.items) }
{
    match read_asked(content) {
        Asked::Unread(fault) => {
            let front = read_call_front(content);
            write_next(answer_unread(client, fault, front, out), next)
        }
        asked => {
            let responded = answer_asked(rt, shared, pass, clock, client, asked, out);
            write_next(responded, next)
        }
    }
}

// Answers a longer record that is no PUT, all of which is read.
#[cold]
#[inline(never)]
fn answer_read<H: Wait, C: Clock>(
    rt: &H,
    shared: &Shared,
    pass: &mut Pass,
    clock: &mut C,
    client: &mut Client<'_>,
    content: &[u8],
    out: &mut Vec<u8>,
    next: &mut Responded,
) -> Result<(), RespondFault>
    requires { IsPassOf shared.now pass.old }
    ensures kept { IsSamePass pass.old pass.new }
    ensures same { client.new ≡ client.old }
    ensures responds { Responds (with_next result next.new)
        (to_reading client.old.rules client.old.host (call_of content.now))
        (stands pass.old (C.tells clock.old) out.old.items) (stands pass.new (C.tells clock.new) out.new.items) }
{
    let asked = read_asked(content);
    let responded = answer_asked(rt, shared, pass, clock, client, asked, out);
    write_next(responded, next)
}

// Refuses a record that is too long.
#[cold]
#[inline(never)]
fn refuse_long(
    fault: RelayFault,
    out: &mut Vec<u8>,
    next: &mut Responded,
) -> Result<(), RespondFault>
    ensures { (pass : PassView) (clock : ClockRecord) → Responds (with_next result next.new) (to_fault fault)
        (stands pass clock out.old.items) (stands pass clock out.new.items) }
{
    write_next(refuse(fault, out), next)
}

// Answers a longer record that begins so, and carries no product.
#[cold]
#[inline(never)]
fn answer_cut(front: &[u8], out: &mut Vec<u8>, next: &mut Responded) -> Result<(), RespondFault>
    ensures { (pass : PassView) (clock : ClockRecord)
        → Responds (with_next result next.new) (to_cut (call_of front.now))
        (stands pass clock out.old.items) (stands pass clock out.new.items) }
{
    match read_asked(front) {
        Asked::Unread(fault) => write_next(refuse(fault, out), next),
        _ => write_next(Ok(Responded::Refused), next),
    }
}

// Writes how the connection goes on.
fn write_next(
    responded: Result<Responded, RespondFault>,
    next: &mut Responded,
) -> Result<(), RespondFault>
    ensures { with_next result next.new ≡ responded }
{
    match responded {
        Ok(gone) => {
            *next = gone;
            Ok(())
        }
        Err(why) => Err(why),
    }
}

// Answers a record that cannot be read as a call and begins so.
fn answer_unread(
    client: &mut Client<'_>,
    fault: RelayFault,
    front: CallFront,
    out: &mut Vec<u8>,
) -> Result<Responded, RespondFault>
    ensures same { client.new ≡ client.old }
    ensures responds { (pass : PassView) (clock : ClockRecord) → Responds result
        (to_unread (client_by client.old pass.actor) fault front)
        (stands pass clock out.old.items) (stands pass clock out.new.items) }
{
    match front {
        CallFront::Put { xid, info } => match client.front_answer(&info)? {
            Some(answer) => answer_unread_put(xid, answer, out),
            None => refuse(fault, out),
        },
        CallFront::Carries => refuse(fault, out),
        CallFront::Other => refuse(fault, out),
    }
}

// Answers a PUT that cannot be read by what its metadata decide.
fn answer_unread_put(
    xid: u32,
    answer: PutAnswer,
    out: &mut Vec<u8>,
) -> Result<Responded, RespondFault>
    ensures { (pass : PassView) (clock : ClockRecord) → Responds result (Says (sent.PutReply xid answer ∷ []))
        (stands pass clock out.old.items) (stands pass clock out.new.items) }
{
    match answer_front(xid, answer, out) {
        Ok(()) => Ok(Responded::GoesOn),
        Err(why) => Err(why),
    }
}

// Answers what a record asks.
fn answer_asked<H: Wait, C: Clock>(
    rt: &H,
    shared: &Shared,
    pass: &mut Pass,
    clock: &mut C,
    client: &mut Client<'_>,
    asked: Asked<'_>,
    out: &mut Vec<u8>,
) -> Result<Responded, RespondFault>
    requires of { IsPassOf shared.now pass.old }
    requires sized { IsSizedAsked asked }
    ensures kept { IsSamePass pass.old pass.new }
    ensures same { client.new ≡ client.old }
    ensures responds { Responds result (to_asked client.old.rules client.old.host asked.entry)
        (stands pass.old (C.tells clock.old) out.old.items) (stands pass.new (C.tells clock.new) out.new.items) }
{
    match asked {
        Asked::Feedme(ask) => feedme(client.alloc(), ask, out),
        Asked::Notifyme(ask) => notifyme(client.alloc(), ask, out),
        Asked::Hiya(offer) => hiya(client, offer, out),
        Asked::Put(product) => match put(rt, shared, pass, clock, client, &product, out) {
            Ok(()) => Ok(Responded::GoesOn),
            Err(why) => Err(why),
        },
        Asked::Qstat { xid } => qstat(rt, shared, pass, client, xid, out),
        Asked::Isalive => Ok(Responded::GoesOn),
        Asked::OutOfPlace => Ok(Responded::Refused),
        Asked::Unread(fault) => refuse(fault, out),
    }
}
