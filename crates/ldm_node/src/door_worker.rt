//! A worker of a node that lets peers in.
ghost use Rattle.std.specs.Prelude.{◌≡◌, false};
ghost use Rattle.ldm_outside.specs.Station.{station_tells};
ghost use Rattle.ldm_shared.specs.Passes.{IsPassOf, IsSamePass};
ghost use Rattle.ldm_node.specs.DoorMoments.{moment, KeepsDoorCounts};
ghost use Rattle.ldm_node.specs.DoorWorks.{StopCause, Works};

use crate::admitting::admit_one;
use crate::stop::NodeStop;
use ldm_conf::Conf;
use ldm_outside::{Clock, Dial, Door, Gate, Sink, Station};
use ldm_shared::{Pass, Shared};
use std::alloc::Global;
use std::sync::Wait;

/// Lets peers in by the door of a station and serves them by the rules of a configuration, one after another, until it
/// has held so many sessions.
///
/// Behind each session it gives the link back and writes a line. It stops before where the door is closed or fails,
/// where the gate stopped a session, where its log fails, and where the queue has had all its calls. For want of memory
/// a session ends, and not the worker.
pub fn work_door<H: Wait, D: Door, I: Dial, E: Sink, C: Clock, G: Gate>(
    rt: &H,
    alloc: Global,
    shared: &Shared,
    pass: &mut Pass,
    station: &mut Station<D, I, E, C, G>,
    conf: &Conf,
    sessions: u32,
) -> NodeStop
    requires of { IsPassOf shared.now pass.old }
    requires none_out { (D.tells station.old.door).links.out ≡ false }
    ensures kept { IsSamePass pass.old pass.new }
    ensures none_out { (D.tells station.new.door).links.out ≡ false }
    ensures dial { station.new.dial ≡ station.old.dial }
    ensures counts { KeepsDoorCounts (station_tells D.tells I.tells E.tells C.tells G.tells station.old)
        (station_tells D.tells I.tells E.tells C.tells G.tells station.new) }
    ensures sessions { Works result conf.now.policy sessions
        (moment pass.old (station_tells D.tells I.tells E.tells C.tells G.tells station.old))
        (moment pass.new (station_tells D.tells I.tells E.tells C.tells G.tells station.new)) }
    ensures causes { StopCause result sessions pass.new
        (station_tells D.tells I.tells E.tells C.tells G.tells station.old)
        (station_tells D.tells I.tells E.tells C.tells G.tells station.new) }
{
    for held in 0..sessions {
        match admit_one(rt, alloc, shared, pass, station, conf) {
            Some(stop) => return stop,
            None => {}
        }
    }
    NodeStop::Done
}
