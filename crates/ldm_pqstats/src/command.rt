//! `pqstats`: asks a node for a class of products, and writes how many came for each hour, feed and origin.
ghost use Rattle.std.specs.Prelude.{◌≡◌, ◌≤◌, ◌<◌, IsSome, Some, false};
ghost use Rattle.std.specs.Option.{ForSome};
ghost use Rattle.ldm_pqstats.specs.declared.counter.CountStop.{CountStop};
ghost use Rattle.ldm_pqstats.specs.declared.end.StatsEnd.TheVariants.{NotCounted};
ghost use Rattle.ldm_pqstats.specs.Outsides.{KeepsOutside};
ghost use Rattle.ldm_pqstats.specs.Runs.{IfByTaker, KeepsStatsCounts, Pqstats, TellsAll, TellsBy, TellsLimited, lent_of};
ghost use Rattle.ldm_pqstats.specs.Sending.{outside_of};

use crate::asked::StatsAsked;
use crate::counter::{CountStop, Counter};
use crate::end::{StatsEnd, report};
use crate::report::write_report;
use crate::sending::send_hours;
use ldm_gather::{ARENA, Asking, Collected, EachEnd, EachStop, Order, SLOTS, gather_each};
use ldm_intake::RecvEnd;
use ldm_outside::{Clock, Dial, Reasons, Sink};
use ldm_stats::Stats;
use std::alloc::Global;
use std::sync::Wait;

/// Asks a node for the products of a class, counts each one that came, all of them or so many, and writes the report of
/// their totals to the sink. Answers the number that the program ends with, and writes its line to the log.
///
/// It receives into a queue of its own, and counts what is queued after each piece that came. A product that was
/// evicted before it was counted is told by the line `gap pqstats COUNT FIRST LAST` of the log. It connects once, and
/// gives the link back. Where the stream ended as it is to, or so many products were counted, or as many bytes came as
/// are too many, the report is written; else it is not.
///
/// Where the hours are to be sent, and the first link gave all, it then connects a second time, and sends the lines of
/// each hour by a PUT of its own: feed EXP, origin `localhost`, ident `stats/YYYYMMDDHH`, numbered from 0. The answers
/// are written as lines. The clause `ends` gives each status its cause: see `Pqstats`.
pub fn pqstats<H: Wait, N: Dial + Reasons, K: Sink, E: Sink, C: Clock>(
    rt: &H,
    alloc: Global,
    net: &mut N,
    sink: &mut K,
    log: &mut E,
    clock: &mut C,
    asked: &StatsAsked<'_>,
) -> u8
    requires none_out { (N.tells net.old).links.out ≡ false }
    requires counted { ForSome asked.now.count (λ n. 0 < n) }
    requires least { 0 < asked.now.hours }
    requires most { asked.now.hours ≤ 8760 }
    ensures ends { Pqstats result asked.now
        (lent_of (N.tells net.old) (K.tells sink.old) (E.tells log.old) (C.tells clock.old))
        (lent_of (N.tells net.new) (K.tells sink.new) (E.tells log.new) (C.tells clock.new)) }
    ensures none_out { (N.tells net.new).links.out ≡ false }
    ensures counts_kept { KeepsStatsCounts
        (lent_of (N.tells net.old) (K.tells sink.old) (E.tells log.old) (C.tells clock.old))
        (lent_of (N.tells net.new) (K.tells sink.new) (E.tells log.new) (C.tells clock.new)) }
{
    let Some(stats) = Stats::create(alloc, asked.hours) else {
        unreachable!()
    };
    let order = Order {
        host: asked.host,
        port: asked.port,
        class: asked.class,
        last: None,
        count: asked.count,
        arena: ARENA,
        slots: SLOTS,
    };
    let asking = Asking {
        order,
        name: b"pqstats",
    };
    let counter = Counter::create(stats);
    let collected = gather_each(rt, alloc, net, log, clock, asking, counter, &mut ());
    let end = tell(alloc, net, sink, clock, asked, collected);
    report(end, net.reason(), log)
}

// Writes the report, and sends the hours, as far as the gathering and the words say.
fn tell<N: Dial, K: Sink, C: Clock>(
    alloc: Global,
    net: &mut N,
    sink: &mut K,
    clock: &mut C,
    asked: &StatsAsked<'_>,
    collected: Collected<Counter>,
) -> StatsEnd
    requires none_out { (N.tells net.old).links.out ≡ false }
    requires why { IfByTaker collected.end (IsSome collected.taker.why) }
    ensures tells { TellsBy collected.end result collected.taker asked.now
        (outside_of (N.tells net.old) (K.tells sink.old) (C.tells clock.old))
        (outside_of (N.tells net.new) (K.tells sink.new) (C.tells clock.new)) }
    ensures none_out { (N.tells net.new).links.out ≡ false }
    ensures kept { KeepsOutside
        (outside_of (N.tells net.old) (K.tells sink.old) (C.tells clock.old))
        (outside_of (N.tells net.new) (K.tells sink.new) (C.tells clock.new)) }
{
    let Collected {
        end,
        taker: counter,
    } = collected;
    match end {
        EachEnd::Received(RecvEnd::Ended) => {
            tell_all(alloc, net, sink, clock, asked, &counter.stats)
        }
        EachEnd::Enough => tell_all(alloc, net, sink, clock, asked, &counter.stats),
        EachEnd::Received(RecvEnd::StreamLimit) => tell_limited(alloc, sink, &counter.stats),
        EachEnd::Stopped(EachStop::ByTaker) => not_counted(counter.why),
        end => StatsEnd::Gathered(end),
    }
}

fn not_counted(why: Option<CountStop>) -> StatsEnd
    requires { IsSome why }
    ensures { (stop : CountStop) × (why ≡ Some stop) × (result ≡ NotCounted stop) }
{
    match why {
        Some(why) => StatsEnd::NotCounted(why),
        None => unreachable!(),
    }
}

// Writes the report of what came before there were too many bytes.
fn tell_limited<K: Sink>(alloc: Global, sink: &mut K, stats: &Stats) -> StatsEnd
    ensures tells { TellsLimited result stats.now (K.tells sink.old) (K.tells sink.new) }
    ensures faults_kept { (K.tells sink.old).faults ≤ (K.tells sink.new).faults }
{
    match write_report(alloc, stats, sink) {
        Ok(()) => StatsEnd::Limited,
        Err(why) => StatsEnd::NotReported(why),
    }
}

// Writes the report, and then sends the hours, if they are to be sent.
fn tell_all<N: Dial, K: Sink, C: Clock>(
    alloc: Global,
    net: &mut N,
    sink: &mut K,
    clock: &mut C,
    asked: &StatsAsked<'_>,
    stats: &Stats,
) -> StatsEnd
    requires none_out { (N.tells net.old).links.out ≡ false }
    ensures tells { TellsAll result asked.now stats.now
        (outside_of (N.tells net.old) (K.tells sink.old) (C.tells clock.old))
        (outside_of (N.tells net.new) (K.tells sink.new) (C.tells clock.new)) }
    ensures none_out { (N.tells net.new).links.out ≡ false }
    ensures kept { KeepsOutside
        (outside_of (N.tells net.old) (K.tells sink.old) (C.tells clock.old))
        (outside_of (N.tells net.new) (K.tells sink.new) (C.tells clock.new)) }
{
    match write_report(alloc, stats, sink) {
        Ok(()) => {
            if asked.send {
                match send_hours(alloc, net, sink, clock, asked, stats) {
                    Ok(refused) => StatsEnd::Told { refused },
                    Err(why) => StatsEnd::NotSent(why),
                }
            } else {
                StatsEnd::Told { refused: false }
            }
        }
        Err(why) => StatsEnd::NotReported(why),
    }
}
