//! A worker of a node that keeps asking another node for products.
ghost use Rattle.std.specs.Prelude.{◌≡◌, ℕ, List, Option, false};
ghost use Rattle.ldm_outside.specs.Station.{station_tells};
ghost use Rattle.ldm_shared.specs.Passes.{IsPassOf, IsSamePass};
ghost use Rattle.ldm_conf.specs.Confs.{request_view};
ghost use Rattle.ldm_node.specs.RequestMoments.{moment, KeepsRequestCounts};
ghost use Rattle.ldm_node.specs.RequestWorks.{Works, StopCause};
ghost use Rattle.ldm_node.specs.Roles.{last_view};

use crate::stop::NodeStop;
use crate::trying::try_once;
use ldm_conf::Request;
use ldm_outside::{Clock, Dial, Door, Gate, Go, Sink, Station};
use ldm_shared::{Pass, Shared};
use ldm_types::Signature;
use std::alloc::Global;
use std::sync::Wait;

/// Asks the host of a request for the products of its class, time and again, until the gate says to stop.
///
/// It dials the host, and receives what comes over the link, behind the last product of the session before, and first
/// behind `last`. It gives the link back, writes the line of the session, and asks the gate. Where the dial fails, it
/// writes a line of that. It stops too where its log fails, and where the queue has had all its calls. For want of
/// memory a session ends, and not the worker.
// (in a frame of its own, that a worker of a door has no need of)
#[inline(never)]
pub fn work_request<H: Wait, D: Door, I: Dial, E: Sink, C: Clock, G: Gate>(
    rt: &H,
    alloc: Global,
    shared: &Shared,
    pass: &mut Pass,
    station: &mut Station<D, I, E, C, G>,
    request: &Request,
    mut last: Option<Signature>,
) -> NodeStop
    requires of { IsPassOf shared.now pass.old }
    requires none_out { (I.tells station.old.dial).links.out ≡ false }
    ensures kept { IsSamePass pass.old pass.new }
    ensures none_out { (I.tells station.new.dial).links.out ≡ false }
    ensures door { station.new.door ≡ station.old.door }
    ensures counts { KeepsRequestCounts (station_tells D.tells I.tells E.tells C.tells G.tells station.old)
        (station_tells D.tells I.tells E.tells C.tells G.tells station.new) }
    ensures sessions { (behind : Option (List ℕ)) × Works result (request_view request.now)
        (moment pass.old (station_tells D.tells I.tells E.tells C.tells G.tells station.old) (last_view last))
        (moment pass.new (station_tells D.tells I.tells E.tells C.tells G.tells station.new) behind) }
    ensures causes { StopCause result pass.new (station_tells D.tells I.tells E.tells C.tells G.tells station.old)
        (station_tells D.tells I.tells E.tells C.tells G.tells station.new) }
{
    for _ in rt.forever() {
        match try_once(rt, alloc, shared, pass, station, request, &mut last) {
            Some(stop) => return stop,
            None => {}
        }
        match station.gate.idle() {
            Go::On => {}
            Go::Stop => return NodeStop::Done,
        }
    }
    unreachable!()
}
