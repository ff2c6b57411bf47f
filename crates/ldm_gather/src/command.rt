//! `pqcat`: asks a node for a class of products, and writes their bodies.
ghost use Rattle.std.specs.Prelude.{◌≡◌, ◌≤◌, ◌<◌, false};
ghost use Rattle.std.specs.Option.{ForSome};
ghost use Rattle.ldm_gather.specs.Orders.{order_view, usual_order};
ghost use Rattle.ldm_gather.specs.Cats.{CatEnds, Cats, KeepsCatCounts, cat_lent};

use crate::cat::Cat;
use crate::cat_end::report;
use crate::{ARENA, Asking, Collected, EachEnd, Order, SLOTS, gather_each};
use ldm_class::Class;
use ldm_outside::{Clock, Dial, Reasons, Sink};
use ldm_shared::CreateFault;
use ldm_types::OutOfMemory;
use std::alloc::Global;
use std::sync::Wait;

/// Asks a node for the products of a class, and writes their bodies to the sink, one behind the other: all of them, or
/// so many. Answers the number that the program ends with, and writes its line to the log. Its queue has the usual
/// sizes: see [`cat_products`].
pub fn pqcat<H: Wait, N: Dial + Reasons, K: Sink, E: Sink, C: Clock>(
    rt: &H,
    alloc: Global,
    net: &mut N,
    sink: &mut K,
    log: &mut E,
    clock: &mut C,
    host: &[u8],
    port: u16,
    class: &Class,
    count: Option<u64>,
) -> u8
    requires none_out { (N.tells net.old).links.out ≡ false }
    requires counted { ForSome count (λ n. 0 < n) }
    ensures ends { Cats K.tells result (usual_order (record { host = host.now; port = port }) class.now count)
        (cat_lent (N.tells net.old) sink.old (E.tells log.old) (C.tells clock.old))
        (cat_lent (N.tells net.new) sink.new (E.tells log.new) (C.tells clock.new)) }
    ensures none_out { (N.tells net.new).links.out ≡ false }
    ensures sink_kept { (K.tells sink.old).faults ≤ (K.tells sink.new).faults }
    ensures counts_kept { KeepsCatCounts
        (cat_lent (N.tells net.old) sink.old (E.tells log.old) (C.tells clock.old))
        (cat_lent (N.tells net.new) sink.new (E.tells log.new) (C.tells clock.new)) }
{
    let order = Order {
        host,
        port,
        class,
        last: None,
        count,
        arena: ARENA,
        slots: SLOTS,
    };
    cat_products(rt, alloc, net, sink, log, clock, &order)
}

/// Asks a node for the products of an order, and writes their bodies to the sink, one behind the other: all of them, or
/// so many. Answers the number that the program ends with, and writes its line to the log.
///
/// It receives into a queue of its own, and writes what is queued after each piece that came. A product that was
/// evicted before it was written is told by the line `gap pqcat COUNT FIRST LAST` of the log. It connects once, and
/// gives the link back. Where no queue has the sizes, nothing is asked. The clause `ends` gives each status its cause:
/// see `Cats`.
pub fn cat_products<H: Wait, N: Dial + Reasons, K: Sink, E: Sink, C: Clock>(
    rt: &H,
    alloc: Global,
    net: &mut N,
    sink: &mut K,
    log: &mut E,
    clock: &mut C,
    order: &Order<'_>,
) -> u8
    requires none_out { (N.tells net.old).links.out ≡ false }
    requires counted { ForSome order.now.count (λ n. 0 < n) }
    ensures ends { Cats K.tells result (order_view order.now)
        (cat_lent (N.tells net.old) sink.old (E.tells log.old) (C.tells clock.old))
        (cat_lent (N.tells net.new) sink.new (E.tells log.new) (C.tells clock.new)) }
    ensures none_out { (N.tells net.new).links.out ≡ false }
    ensures sink_kept { (K.tells sink.old).faults ≤ (K.tells sink.new).faults }
    ensures counts_kept { KeepsCatCounts
        (cat_lent (N.tells net.old) sink.old (E.tells log.old) (C.tells clock.old))
        (cat_lent (N.tells net.new) sink.new (E.tells log.new) (C.tells clock.new)) }
{
    let end = cat(rt, alloc, net, sink, log, clock, order);
    report(end, net.reason(), log)
}

// Gathers the products, and writes them.
fn cat<H: Wait, N: Dial, K: Sink, E: Sink, C: Clock>(
    rt: &H,
    alloc: Global,
    net: &mut N,
    sink: &mut K,
    log: &mut E,
    clock: &mut C,
    order: &Order<'_>,
) -> EachEnd
    requires none_out { (N.tells net.old).links.out ≡ false }
    requires counted { ForSome order.now.count (λ n. 0 < n) }
    ensures ends { CatEnds K.tells result (order_view order.now)
        (cat_lent (N.tells net.old) sink.old (E.tells log.old) (C.tells clock.old))
        (cat_lent (N.tells net.new) sink.new (E.tells log.new) (C.tells clock.new)) }
    ensures none_out { (N.tells net.new).links.out ≡ false }
    ensures sink_kept { (K.tells sink.old).faults ≤ (K.tells sink.new).faults }
    ensures counts_kept { KeepsCatCounts
        (cat_lent (N.tells net.old) sink.old (E.tells log.old) (C.tells clock.old))
        (cat_lent (N.tells net.new) sink.new (E.tells log.new) (C.tells clock.new)) }
{
    match Cat::create(alloc) {
        Ok(cat) => {
            let asking = Asking {
                order: *order,
                name: b"pqcat",
            };
            let collected = gather_each(rt, alloc, net, log, clock, asking, cat, sink);
            let Collected { end, taker: _cat } = collected;
            end
        }
        Err(OutOfMemory) => EachEnd::NotMade(CreateFault::OutOfMemory),
    }
}
