//! One try: a host is dialled, and where a link comes, a session is held over it.
ghost use Rattle.std.specs.Prelude.{◌≡◌, true, false};
ghost use Rattle.std.specs.Option.{option_map};
ghost use Rattle.ldm_outside.specs.Link.{IsNotClosed};
ghost use Rattle.ldm_outside.specs.Station.{station_tells};
ghost use Rattle.ldm_shared.specs.Passes.{IsPassOf, IsSamePass};
ghost use Rattle.ldm_conf.specs.Confs.{request_view};
ghost use Rattle.ldm_node.specs.RequestMoments.{moment, KeepsRequestCounts};
ghost use Rattle.ldm_node.specs.TrySteps.{HoldsOne, TriesOne};

use crate::lines::write_unreached;
use crate::stop::NodeStop;
use crate::try_end::finish;
use ldm_conf::Request;
use ldm_downstream::{Received, receive};
use ldm_outside::{Clock, Dial, Dialled, Door, Gate, Sink, Station};
use ldm_shared::{Pass, Shared};
use ldm_types::Signature;
use std::alloc::Global;
use std::sync::Wait;

/// Dials the host of a request, and holds a session with it, behind the last product of the one before. Answers why the
/// worker stops, where it does.
pub fn try_once<H: Wait, D: Door, I: Dial, E: Sink, C: Clock, G: Gate>(
    rt: &H,
    alloc: Global,
    shared: &Shared,
    pass: &mut Pass,
    station: &mut Station<D, I, E, C, G>,
    request: &Request,
    last: &mut Option<Signature>,
) -> Option<NodeStop>
    requires of { IsPassOf shared.now pass.old }
    requires none_out { (I.tells station.old.dial).links.out ≡ false }
    ensures kept { IsSamePass pass.old pass.new }
    ensures none_out { (I.tells station.new.dial).links.out ≡ false }
    ensures door { station.new.door ≡ station.old.door }
    ensures gate { station.new.gate ≡ station.old.gate }
    ensures counts { KeepsRequestCounts (station_tells D.tells I.tells E.tells C.tells G.tells station.old)
        (station_tells D.tells I.tells E.tells C.tells G.tells station.new) }
    ensures tries { TriesOne result (request_view request.now)
        (moment pass.old (station_tells D.tells I.tells E.tells C.tells G.tells station.old)
        (option_map (λ signature. signature.0) last.old))
        (moment pass.new (station_tells D.tells I.tells E.tells C.tells G.tells station.new)
        (option_map (λ signature. signature.0) last.new)) }
{
    match station.dial.connect(request.host.as_slice(), request.port) {
        Dialled::Linked(link) => hold_session(
            rt, alloc, shared, pass, station, request, last, link,
        ),
        Dialled::Failed => match write_unreached(&mut station.log, request.host.as_slice()) {
            Ok(()) => None,
            Err(_) => Some(NodeStop::LogFault),
        },
    }
}

// Holds a session over a link that came, gives the link back, and writes the line.
fn hold_session<H: Wait, D: Door, I: Dial, E: Sink, C: Clock, G: Gate>(
    rt: &H,
    alloc: Global,
    shared: &Shared,
    pass: &mut Pass,
    station: &mut Station<D, I, E, C, G>,
    request: &Request,
    last: &mut Option<Signature>,
    mut link: I::Link,
) -> Option<NodeStop>
    requires of { IsPassOf shared.now pass.old }
    requires is_out { (I.tells station.old.dial).links.out ≡ true }
    requires not_closed { IsNotClosed (I.Link.tells link) }
    ensures kept { IsSamePass pass.old pass.new }
    ensures none_out { (I.tells station.new.dial).links.out ≡ false }
    ensures door { station.new.door ≡ station.old.door }
    ensures gate { station.new.gate ≡ station.old.gate }
    ensures counts { KeepsRequestCounts (station_tells D.tells I.tells E.tells C.tells G.tells station.old)
        (station_tells D.tells I.tells E.tells C.tells G.tells station.new) }
    ensures holds { HoldsOne result (request_view request.now) (I.Link.tells link)
        (moment pass.old (station_tells D.tells I.tells E.tells C.tells G.tells station.old)
        (option_map (λ signature. signature.0) last.old))
        (moment pass.new (station_tells D.tells I.tells E.tells C.tells G.tells station.new)
        (option_map (λ signature. signature.0) last.new)) }
{
    let received = receive(
        rt,
        alloc,
        shared,
        pass,
        &mut link,
        &mut station.log,
        &mut station.clock,
        &request.class,
        *last,
        request.transfer.max_hereis(),
    );
    station.dial.give_back(link);
    *last = received.last;
    finish(&mut station.log, request.host.as_slice(), &received.end)
}
