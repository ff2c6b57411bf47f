//! All workers of a node over one queue.
ghost use Rattle.std.specs.Prelude.{◌≡◌, ◌+◌, length, map, slice_index_or, IfSome, OnOk, OnErr};
ghost use Rattle.std.specs.Option.{option_map};
ghost use Rattle.std.specs.List.{All};
ghost use Rattle.std.specs.Vec.{vec_len};
ghost use denote.Param.Send.{IsSync};
ghost use Rattle.ldm_disk.specs.Desks.{desk_tells};
ghost use Rattle.ldm_outside.specs.Station.{IsNew, station_tells};
ghost use Rattle.ldm_model.specs.State.{State};
ghost use Rattle.ldm_model.specs.History.{after};
ghost use Rattle.ldm_model.specs.Lawful.{IsLawful};
ghost use Rattle.ldm_book.specs.Stands.{StandsFor};
ghost use Rattle.ldm_shared.specs.Passes.{AreAllOf, HasAllOf, IsLast, PassView};
ghost use Rattle.ldm_conf.specs.Confs.{conf_view};
ghost use Rattle.ldm_conf.specs.contracts.conf.Conf as Configuration;
ghost use Rattle.ldm_recorder.specs.Finishing.{StandsAfter};
ghost use Rattle.ldm_node.specs.Roles.{last_view, plan_of};
ghost use Rattle.ldm_node.specs.Node.{Staffs};
ghost use Rattle.ldm_node.specs.Clerks.{ArePassesFor, LeavesBehind, RecordCause, clerk_tells, left_tells};
ghost use Rattle.ldm_node.specs.Seats.{AreBehind, ClosesSeat, IsFreshSeat, SeatsBehind, clerk_of, recorder_of};
ghost use Rattle.ldm_node.specs.Workers.{NoneOut};
ghost use Rattle.ldm_node.specs.Causes.{Completes, NodeCause};

use crate::clerk::{Clerk, Recorded, Seat};
use crate::options::{NodeEnd, NodeOptions};
use crate::post::{hand_out, take_back};
use crate::staffing::Staffing;
use crate::stop::NodeStop;
use ldm_book::Book;
use ldm_conf::Conf;
use ldm_disk::Disk;
use ldm_model::histories_are_lawful;
use ldm_outside::{Clock, Dial, Door, Gate, Sink, Station};
use ldm_recorder::RecordEnd;
use ldm_shared::{Left, Pass, Shared, run_workers};
use ldm_types::{OutOfMemory, Signature};
use std::alloc::Global;
use std::sync::Wait;
use std::thread::Threads;

// What the workers of a node leave.
#[derive(Drop)]
struct Staffed<S, K> {
    book: Book,
    pass: Pass,
    stations: Vec<S>,
    seat: Option<K>,
    end: NodeStop,
}

/// Runs a node: has each worker do its work at a station of its own, until all have stopped.
///
/// Worker i has station i and the pass of actor i. The first workers let peers in, as many as the options say, and
/// behind them one asks by each request of the configuration, in order. So there is one station fewer than passes: with
/// the last pass a clerk records what is inserted, or it rests where there is none. The port and the number of idle
/// calls are what the stations were asked for. The worker of request i begins behind the last product that `lasts` has
/// at i, where it has one.
///
/// The stations are new. The passes are all that the queue was made with, and no call was made with them, but for that
/// of the clerk: by it the recorder was opened. All memory for the workers is taken before the first begins. Where no
/// thread can be made they work one after another. Once all have stopped the clerk records what is left over.
///
/// The workers share the configuration, so its type has to be one that threads may share. That is a fact of the type,
/// and its caller shows it.
pub fn node<
    H: Threads + Wait + Sync,
    F: Disk + Send,
    D: Door + Send,
    I: Dial + Send,
    E: Sink + Send,
    C: Clock + Send,
    G: Gate + Send,
>(
    rt: &H,
    alloc: Global,
    conf: Conf,
    shared: Shared,
    passes: Vec<Pass>,
    stations: Vec<Station<D, I, E, C, G>>,
    clerk: Option<Clerk<F, E, C, G>>,
    lasts: &[Option<Signature>],
    options: &NodeOptions,
) -> NodeEnd<F, D, I, E, C, G>
where
    D::Link: Send,
    I::Link: Send,
    requires passes { ArePassesFor shared passes.items (option_map (λ clerk. clerk.recorder) clerk) }
    requires count { shared.passes ≡ options.now.workers + length conf.requests.items + 1 }
    requires stations { vec_len stations ≡ options.now.workers + length conf.requests.items }
    requires are_new { All
        (λ station. IsNew options.now.idles (station_tells D.tells I.tells E.tells C.tells G.tells station))
        stations.items }
    requires shareable { IsSync Configuration.the_row }
    ensures last { IsLast shared result.pass }
    ensures stands { StandsFor result.book (after shared.arena shared.slots result.pass.seen) }
    ensures law { IsLawful shared.arena shared.slots result.pass.seen }
    ensures worked { Staffs (station_tells D.tells I.tells E.tells C.tells G.tells)
        (plan_of (conf_view conf) options.now.workers options.now.sessions (map last_view lasts.now)) shared
        stations.items
        (record { pass = result.pass; stations = result.stations.items; end = result.end }) }
    ensures recorded { (pass : PassView) → pass ≡ slice_index_or passes.items (vec_len stations) pass
        → LeavesBehind result.pass pass
        (option_map (clerk_tells (desk_tells F.tells E.tells C.tells G.tells)) clerk)
        (option_map (left_tells (desk_tells F.tells E.tells C.tells G.tells)) result.recorded) }
    ensures record_causes { IfSome
        (option_map (left_tells (desk_tells F.tells E.tells C.tells G.tells)) result.recorded)
        (λ left. RecordCause left.end left.desk result.pass) }
    ensures causes { NodeCause result.end
        (plan_of (conf_view conf) options.now.workers options.now.sessions (map last_view lasts.now))
        (map (station_tells D.tells I.tells E.tells C.tells G.tells) result.stations.items) result.pass }
    ensures completes { Completes result.end
        (map (station_tells D.tells I.tells E.tells C.tells G.tells) result.stations.items) }
{
    histories_are_lawful();
    let staffing = Staffing {
        alloc,
        conf: &conf,
        workers: options.workers,
        sessions: options.sessions,
        lasts,
    };
    let seat = seat_of(clerk);
    let Staffed {
        book,
        pass,
        stations,
        seat,
        end,
    } = staff(rt, alloc, &staffing, shared, passes, stations, seat);
    let recorded = close_seat(seat, &book);
    NodeEnd {
        book,
        pass,
        stations,
        recorded,
        end,
    }
}

// A seat for the clerk, where nobody worked yet.
fn seat_of<F, E, C, G>(clerk: Option<Clerk<F, E, C, G>>) -> Option<Seat<F, E, C, G>>
    ensures clerk { option_map clerk_of result ≡ clerk }
    ensures recorder { option_map recorder_of result ≡ option_map (λ clerk. clerk.recorder) clerk }
    ensures fresh { IfSome result IsFreshSeat }
{
    match clerk {
        Some(clerk) => Some(Seat {
            clerk,
            end: RecordEnd::OutOfMemory,
        }),
        None => None,
    }
}

// Records what is left over, where there is a clerk.
fn close_seat<F: Disk, E: Sink, C: Clock, G: Gate>(
    seat: Option<Seat<F, E, C, G>>,
    book: &Book,
) -> Option<Recorded<F, E, C, G>>
    requires after_calls { StandsAfter book.now }
    requires behind { AreBehind seat }
    ensures closes { (s : State) → StandsFor book.now s
        → ClosesSeat (desk_tells F.tells E.tells C.tells G.tells) s seat result }
{
    match seat {
        Some(seat) => Some(seat.close(book)),
        None => None,
    }
}

// Has a worker work at each station, and one with the seat behind them. There is one station fewer than passes.
fn staff<
    H: Threads + Wait + Sync,
    F: Disk + Send,
    D: Door + Send,
    I: Dial + Send,
    E: Sink + Send,
    C: Clock + Send,
    G: Gate + Send,
>(
    rt: &H,
    alloc: Global,
    staffing: &Staffing,
    shared: Shared,
    passes: Vec<Pass>,
    mut stations: Vec<Station<D, I, E, C, G>>,
    seat: Option<Seat<F, E, C, G>>,
) -> Staffed<Station<D, I, E, C, G>, Seat<F, E, C, G>>
where
    D::Link: Send,
    I::Link: Send,
    requires passes { ArePassesFor shared passes.items (option_map recorder_of seat) }
    requires count { vec_len stations + 1 ≡ shared.passes }
    requires shareable { IsSync Configuration.the_row }
    requires none_out { All
        (λ station. NoneOut (station_tells D.tells I.tells E.tells C.tells G.tells station)) stations.items }
    ensures last { IsLast shared result.pass }
    ensures stands { StandsFor result.book (after shared.arena shared.slots result.pass.seen) }
    ensures staffs { Staffs (station_tells D.tells I.tells E.tells C.tells G.tells)
        (plan_of (conf_view staffing.now.conf.now) staffing.now.workers staffing.now.sessions
        (map last_view staffing.now.lasts.now)) shared stations.items
        (record { pass = result.pass; stations = result.stations.items; end = result.end }) }
    ensures seated { (pass : PassView) → pass ≡ slice_index_or passes.items (vec_len stations) pass
        → SeatsBehind (desk_tells F.tells E.tells C.tells G.tells) result.pass pass seat result.seat }
{
    let Ok(mut posts) = Vec::with_capacity(alloc, passes.len()) else {
        return close(shared, passes, stations, seat);
    };
    hand_out(&mut stations, seat, &mut posts);
    let Left {
        book,
        pass,
        own,
        done,
    } = run_workers(rt, alloc, shared, passes, posts, staffing);
    let (first, seat) = take_back(own, &mut stations);
    Staffed {
        book,
        pass,
        stations,
        seat,
        end: end_of(done, first),
    }
}

// Ends a queue with whose passes no worker made a call, since there is no memory for the workers.
fn close<S, K>(
    shared: Shared,
    passes: Vec<Pass>,
    stations: Vec<S>,
    seat: Option<K>,
) -> Staffed<S, K>
    requires { AreAllOf shared passes.items }
    ensures last { IsLast shared result.pass }
    ensures stands { StandsFor result.book (after shared.arena shared.slots result.pass.seen) }
    ensures uncalled { All (HasAllOf result.pass) passes.items }
    ensures stations { result.stations.items ≡ stations.items }
    ensures seat { result.seat ≡ seat }
    ensures end { result.end ≡ NodeStop.OutOfMemory }
{
    let (book, pass) = shared.finish(passes);
    Staffed {
        book,
        pass,
        stations,
        seat,
        end: NodeStop::OutOfMemory,
    }
}

// Why the node ended, where its workers stopped so; without memory for them none began.
fn end_of(done: Result<(), OutOfMemory>, first: NodeStop) -> NodeStop
    ensures worked { OnOk done (result ≡ first) }
    ensures none_began { OnErr done (result ≡ NodeStop.OutOfMemory) }
{
    match done {
        Ok(()) => first,
        Err(OutOfMemory) => NodeStop::OutOfMemory,
    }
}
