//! One visit: a peer is let in, and a session is served over its link.
ghost use Rattle.std.specs.Prelude.{◌≡◌, ◌≤◌, true, false, length};
ghost use Rattle.ldm_outside.specs.Link.{IsNotClosed};
ghost use Rattle.ldm_outside.specs.Session.{KeepsFaults, session_tells};
ghost use Rattle.ldm_outside.specs.Station.{station_tells};
ghost use Rattle.ldm_session.specs.declared.gaps.TheConstants.{LONGEST_NAME};
ghost use Rattle.ldm_shared.specs.Passes.{IsPassOf, IsSamePass};
ghost use Rattle.ldm_serve.specs.Connection.{moment_of};
ghost use Rattle.ldm_serve.specs.Serve.{ServesAll};
ghost use Rattle.ldm_node.specs.DoorMoments.{moment, KeepsDoorCounts};
ghost use Rattle.ldm_node.specs.VisitSteps.{AdmitsOne, HoldsOne};

use crate::stop::NodeStop;
use crate::visit_end::finish;
use ldm_conf::Conf;
use ldm_outside::{Came, Clock, Dial, Door, Gate, Sink, Station};
use ldm_serve::{ServeEnd, serve};
use ldm_shared::{Pass, Shared};
use std::alloc::Global;
use std::sync::Wait;

/// Lets a peer in, and serves a session over its link. Answers why the worker stops, where it does.
pub fn admit_one<H: Wait, D: Door, I: Dial, E: Sink, C: Clock, G: Gate>(
    rt: &H,
    alloc: Global,
    shared: &Shared,
    pass: &mut Pass,
    station: &mut Station<D, I, E, C, G>,
    conf: &Conf,
) -> Option<NodeStop>
    requires of { IsPassOf shared.now pass.old }
    requires none_out { (D.tells station.old.door).links.out ≡ false }
    ensures kept { IsSamePass pass.old pass.new }
    ensures none_out { (D.tells station.new.door).links.out ≡ false }
    ensures dial { station.new.dial ≡ station.old.dial }
    ensures counts { KeepsDoorCounts (station_tells D.tells I.tells E.tells C.tells G.tells station.old)
        (station_tells D.tells I.tells E.tells C.tells G.tells station.new) }
    ensures admits { AdmitsOne result conf.now.policy
        (moment pass.old (station_tells D.tells I.tells E.tells C.tells G.tells station.old))
        (moment pass.new (station_tells D.tells I.tells E.tells C.tells G.tells station.new)) }
{
    match station.door.accept() {
        Came::Peer { host, link } => {
            hold_session(
                rt,
                alloc,
                shared,
                pass,
                station,
                conf,
                host.as_slice(),
                link,
            )
        }
        Came::Closed => Some(NodeStop::Done),
        Came::Failed => Some(NodeStop::NetFault),
    }
}

// Serves a session over a link that came, gives the link back, and writes the line.
fn hold_session<H: Wait, D: Door, I: Dial, E: Sink, C: Clock, G: Gate>(
    rt: &H,
    alloc: Global,
    shared: &Shared,
    pass: &mut Pass,
    station: &mut Station<D, I, E, C, G>,
    conf: &Conf,
    host: &[u8],
    mut link: D::Link,
) -> Option<NodeStop>
    requires of { IsPassOf shared.now pass.old }
    requires name { length host.now ≤ LONGEST_NAME }
    requires is_out { (D.tells station.old.door).links.out ≡ true }
    requires not_closed { IsNotClosed (D.Link.tells link) }
    ensures kept { IsSamePass pass.old pass.new }
    ensures none_out { (D.tells station.new.door).links.out ≡ false }
    ensures dial { station.new.dial ≡ station.old.dial }
    ensures counts { KeepsDoorCounts (station_tells D.tells I.tells E.tells C.tells G.tells station.old)
        (station_tells D.tells I.tells E.tells C.tells G.tells station.new) }
    ensures holds { HoldsOne result conf.now.policy host.now (D.Link.tells link)
        (moment pass.old (station_tells D.tells I.tells E.tells C.tells G.tells station.old))
        (moment pass.new (station_tells D.tells I.tells E.tells C.tells G.tells station.new)) }
{
    let end = serve_peer(rt, alloc, shared, pass, &mut link, station, host, conf);
    station.door.give_back(link);
    finish(&mut station.log, host, &end)
}

// Serves a session over a link that came, with what the station has for it.
fn serve_peer<H: Wait, D: Door, I: Dial, E: Sink, C: Clock, G: Gate>(
    rt: &H,
    alloc: Global,
    shared: &Shared,
    pass: &mut Pass,
    link: &mut D::Link,
    station: &mut Station<D, I, E, C, G>,
    host: &[u8],
    conf: &Conf,
) -> ServeEnd
    requires of { IsPassOf shared.now pass.old }
    requires name { length host.now ≤ LONGEST_NAME }
    requires not_closed { IsNotClosed (D.Link.tells link.old) }
    ensures kept { IsSamePass pass.old pass.new }
    ensures door { station.new.door ≡ station.old.door }
    ensures dial { station.new.dial ≡ station.old.dial }
    ensures counts { KeepsFaults
        (session_tells D.Link.tells E.tells C.tells G.tells link.old station.old.log station.old.clock station.old.gate)
        (session_tells D.Link.tells E.tells C.tells G.tells link.new station.new.log station.new.clock
        station.new.gate) }
    ensures serves { ServesAll result
        (record { rules = conf.now.policy; host = host.now; actor = pass.old.actor; arena = shared.now.arena })
        (moment_of pass.old
        (session_tells D.Link.tells E.tells C.tells G.tells link.old station.old.log station.old.clock
        station.old.gate))
        (moment_of pass.new
        (session_tells D.Link.tells E.tells C.tells G.tells link.new station.new.log station.new.clock
        station.new.gate)) }
{
    let Station {
        log,
        gate,
        clock,
        ..
    } = station;
    serve(rt, alloc, shared, pass, link, log, gate, clock, host, conf)
}
