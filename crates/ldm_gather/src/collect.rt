//! Gathering products for a taker, into a queue of one's own.
ghost use Rattle.std.specs.Prelude.{◌≡◌, ◌≤◌, ◌<◌, false, length};
ghost use Rattle.std.specs.Option.{ForSome};
ghost use Rattle.ldm_session.specs.declared.gaps.TheConstants.{LONGEST_NAME};
ghost use Rattle.ldm_gather.specs.EachRuns.{Collects, CountsStand, GathersEach, each_at, situation_of};
ghost use Rattle.ldm_gather.specs.Orders.{order_view};
ghost use Rattle.ldm_gather.specs.Queue.{IsOpen};
ghost use Rattle.ldm_gather.specs.Taking.{hands_of};

use crate::each::Each;
use crate::each_end::{EachEnd, ended};
use crate::gatherer::Gatherer;
use crate::order::Asking;
use crate::taker::Taker;
use ldm_outside::{Clock, Dial, Sink};
use ldm_shared::products_stay;
use std::alloc::Global;
use std::sync::Wait;

/// How gathering products ended, and the taker.
pub struct Collected<T> {
    pub end: EachEnd,
    pub taker: T,
}

/// Asks a node for the products of an order, and hands each one that came to a taker: all of them, or so many.
///
/// It receives into a queue of its own, and hands on what is queued after each piece that came. A product that was
/// evicted before it was handed on is told by the line `gap NAME COUNT FIRST LAST` of the log. It connects once, and
/// gives the link back. The clause `ends` gives each end its cause: see `GathersEach`.
pub fn gather_each<H: Wait, N: Dial, E: Sink, C: Clock, A, T: Taker<A>>(
    rt: &H,
    alloc: Global,
    net: &mut N,
    log: &mut E,
    clock: &mut C,
    asking: Asking<'_>,
    taker: T,
    lent: &mut A,
) -> Collected<T>
    requires none_out { (N.tells net.old).links.out ≡ false }
    requires counted { ForSome asking.order.count (λ n. 0 < n) }
    requires named { length asking.name.now ≤ LONGEST_NAME }
    requires may { T.begins taker lent.old }
    ensures ends { GathersEach T.takes result.end (order_view asking.entry.order) asking.entry.name.now
        (situation_of (hands_of taker lent.old) (N.tells net.old) (E.tells log.old) (C.tells clock.old))
        (situation_of (hands_of result.taker lent.new) (N.tells net.new) (E.tells log.new) (C.tells clock.new)) }
    ensures none_out { (N.tells net.new).links.out ≡ false }
    ensures counts_kept { CountsStand
        (situation_of (hands_of taker lent.old) (N.tells net.old) (E.tells log.old) (C.tells clock.old))
        (situation_of (hands_of result.taker lent.new) (N.tells net.new) (E.tells log.new) (C.tells clock.new)) }
{
    match Gatherer::open(rt, alloc, asking.order) {
        Ok(gatherer) => collect(rt, net, log, clock, gatherer, asking, taker, lent),
        Err(fault) => Collected {
            end: EachEnd::NotMade(fault),
            taker,
        },
    }
}

// Gathers with an open queue.
fn collect<H: Wait, N: Dial, E: Sink, C: Clock, A, T: Taker<A>>(
    rt: &H,
    net: &mut N,
    log: &mut E,
    clock: &mut C,
    gatherer: Gatherer<'_>,
    asking: Asking<'_>,
    taker: T,
    lent: &mut A,
) -> Collected<T>
    requires open { IsOpen gatherer }
    requires order { gatherer.order ≡ asking.order }
    requires none_out { (N.tells net.old).links.out ≡ false }
    requires counted { ForSome asking.order.count (λ n. 0 < n) }
    requires named { length asking.name.now ≤ LONGEST_NAME }
    requires may { T.begins taker lent.old }
    ensures collects { Collects T.takes result.end (each_at asking.entry gatherer.entry.reader.k taker)
        gatherer.entry.pass
        (situation_of (hands_of taker lent.old) (N.tells net.old) (E.tells log.old) (C.tells clock.old))
        (situation_of (hands_of result.taker lent.new) (N.tells net.new) (E.tells log.new) (C.tells clock.new)) }
    ensures none_out { (N.tells net.new).links.out ≡ false }
    ensures counts_kept { CountsStand
        (situation_of (hands_of taker lent.old) (N.tells net.old) (E.tells log.old) (C.tells clock.old))
        (situation_of (hands_of result.taker lent.new) (N.tells net.new) (E.tells log.new) (C.tells clock.new)) }
{
    products_stay();
    let mut each = Each {
        reader: gatherer.reader,
        left: asking.order.count,
        taker,
        why: None,
        asking,
    };
    let gathered = gatherer.gather(rt, net, log, clock, &mut each, lent, &mut ());
    Collected {
        end: ended(gathered, each.why),
        taker: each.taker,
    }
}
