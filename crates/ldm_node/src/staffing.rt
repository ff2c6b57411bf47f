//! What each worker of a node does.
ghost use Rattle.std.specs.Prelude.{◌≡◌, ◌∷◌, None, IfSome, map, slice_index_or};
ghost use Rattle.ldm_disk.specs.Desks.{desk_tells};
ghost use Rattle.ldm_outside.specs.Station.{station_tells};
ghost use Rattle.ldm_shared.specs.Passes.{IsPassOf, IsSamePass};
ghost use Rattle.ldm_conf.specs.Confs.{conf_view};
ghost use Rattle.ldm_node.specs.Roles.{last_view, plan_of, role_of};
ghost use Rattle.ldm_node.specs.Posts.{ClerkWorks};
ghost use Rattle.ldm_node.specs.Seats.{IsReadySeat, SeatWorks};
ghost use Rattle.ldm_node.specs.Workers.{HasCause, NoneOut, WorksAs};

use crate::clerk::Seat;
use crate::door_worker::work_door;
use crate::post::Post;
use crate::request_worker::work_request;
use crate::stop::NodeStop;
use ldm_conf::Conf;
use ldm_disk::Disk;
use ldm_outside::{Clock, Dial, Door, Gate, Sink, Station};
use ldm_shared::{Pass, Shared, Work};
use ldm_types::Signature;
use std::alloc::Global;
use std::sync::Wait;

/// The work of a node: each worker does what the role of its pass's actor says.
#[derive(Clone, Copy)]
pub(crate) struct Staffing<'a> {
    pub(crate) alloc: Global,
    pub(crate) conf: &'a Conf,
    pub(crate) workers: u32,
    pub(crate) sessions: u32,
    pub(crate) lasts: &'a [Option<Signature>],
}

impl<'a, F: Disk, D: Door, I: Dial, E: Sink, C: Clock, G: Gate> Work<
    Post<Station<D, I, E, C, G>, Seat<F, E, C, G>>,
> for Staffing<'a> {
    ghost use Rattle.std.specs.Prelude.{map};
    ghost use Rattle.ldm_outside.specs.Station.{station_tells};
    ghost use Rattle.ldm_shared.specs.Passes.{IsPassOf, IsSamePass};
    ghost use Rattle.ldm_conf.specs.Confs.{conf_view};
    ghost use Rattle.ldm_node.specs.Roles.{last_view, plan_of};
    ghost use Rattle.ldm_disk.specs.Desks.{desk_tells};
    ghost use Rattle.ldm_node.specs.Posts.{MayBegin, PostWorks};
    ghost use Rattle.ldm_node.specs.Seats.{IsReadySeat, SeatWorks};

    ghost begins = { λ _ pass post. MayBegin (station_tells D.tells I.tells E.tells C.tells G.tells)
        IsReadySeat pass post };

    ghost works = { λ work old_pass old new_pass new. PostWorks (station_tells D.tells I.tells E.tells C.tells G.tells)
        (SeatWorks (desk_tells F.tells E.tells C.tells G.tells))
        (plan_of (conf_view work.conf.now) work.workers work.sessions (map last_view work.lasts.now))
        old_pass old new_pass new };

    fn work<H: Wait>(
        &self,
        rt: &H,
        shared: &Shared,
        pass: &mut Pass,
        own: &mut Post<Station<D, I, E, C, G>, Seat<F, E, C, G>>,
    ) {
        match &mut own.station {
            Some(station) => own.stop = self.man(rt, shared, pass, station),
            None => {
                work_seat(rt, shared, pass, &mut own.clerk);
                own.stop = NodeStop::Done;
            }
        }
    }
}

// Records, where there is a clerk.
fn work_seat<H: Wait, F: Disk, E: Sink, C: Clock, G: Gate>(
    rt: &H,
    shared: &Shared,
    pass: &mut Pass,
    seat: &mut Option<Seat<F, E, C, G>>,
)
    requires of { IsPassOf shared.now pass.old }
    requires ready { IfSome seat.old (IsReadySeat pass.old) }
    ensures same { IsSamePass pass.old pass.new }
    ensures works { ClerkWorks (SeatWorks (desk_tells F.tells E.tells C.tells G.tells))
        pass.old seat.old pass.new seat.new }
{
    match seat {
        Some(seat) => seat.work(rt, shared, pass),
        None => {}
    }
}

impl<'a> Staffing<'a> {
    // Does with a station what the role of the pass's actor says, and answers why it stopped.
    fn man<H: Wait, D: Door, I: Dial, E: Sink, C: Clock, G: Gate>(
        &self,
        rt: &H,
        shared: &Shared,
        pass: &mut Pass,
        station: &mut Station<D, I, E, C, G>,
    ) -> NodeStop
        requires of { IsPassOf shared.now pass.old }
        requires none_out { NoneOut (station_tells D.tells I.tells E.tells C.tells G.tells station.old) }
        ensures same { IsSamePass pass.old pass.new }
        ensures works { let plan = plan_of (conf_view self.now.conf.now) self.now.workers self.now.sessions
            (map last_view self.now.lasts.now) in
            WorksAs plan (role_of plan pass.old.actor) result
            pass.old (station_tells D.tells I.tells E.tells C.tells G.tells station.old)
            pass.new (station_tells D.tells I.tells E.tells C.tells G.tells station.new) }
        ensures causes { let plan = plan_of (conf_view self.now.conf.now) self.now.workers self.now.sessions
            (map last_view self.now.lasts.now) in
            HasCause plan (role_of plan pass.old.actor) result pass.new
            (station_tells D.tells I.tells E.tells C.tells G.tells station.old)
            (station_tells D.tells I.tells E.tells C.tells G.tells station.new) }
    {
        let actor = pass.actor().get();
        if actor < self.workers {
            return work_door(
                rt,
                self.alloc,
                shared,
                pass,
                station,
                self.conf,
                self.sessions,
            );
        }
        let place = (actor - self.workers) as usize;
        match self.conf.requests.get(place) {
            Some(request) => {
                let last = last_at(self.lasts, place);
                work_request(rt, self.alloc, shared, pass, station, request, last)
            }
            None => NodeStop::Done,
        }
    }
}

// The last product of the request at a place, where one is known.
fn last_at(lasts: &[Option<Signature>], place: usize) -> Option<Signature>
    ensures { last_view result ≡ slice_index_or (map last_view lasts.now) place None }
{
    match lasts.get(place) {
        Some(last) => *last,
        None => None,
    }
}
