//! `pqinsert`: puts files into the queue of a node.
ghost use Rattle.std.specs.Prelude.{◌≡◌, ◌≤◌, true, false};
ghost use Rattle.ldm_outside.specs.Link.{IsNotClosed};
ghost use Rattle.ldm_tools.specs.Inserting.{AreFew, AreNamed, inserting};
ghost use Rattle.ldm_tools.specs.Inserts.{InsertEnds, Inserts, insert_tells};
ghost use Rattle.ldm_tools.specs.Moments.{KeepsInsertCounts, outside_tells};
ghost use Rattle.ldm_tools.specs.Parts.{HoldsFiles};

use crate::fault::InsertFault;
use crate::insert_statuses::status_of;
use crate::insertion::Insertion;
use crate::taking::take_files;
use ldm_outside::{Clock, Dial, Dialled, Reasons, Sink, Store};
use std::alloc::Global;

/// Puts files into the queue of a node, one after another, and writes what became of each as a line. Answers the number
/// that the program ends with, and writes its line to the log.
///
/// It connects once. Each file is read whole, sent by one PUT, and let go of before the next one is read. Its line is
/// the answer of the queue as a script has it, or `toolong` for a file of more than
/// [`LARGEST_FILE`](crate::LARGEST_FILE) bytes, which is not sent. The first fault ends the run, and so does a node
/// that does not let the caller insert. The link is given back before the log is written.
///
/// There are fewer than 2^32 files, and [`Info::new`](ldm_types::Info::new) accepts the origin with the ident of each.
pub fn pqinsert<F: Store + Reasons, N: Dial + Reasons, K: Sink, E: Sink, C: Clock>(
    alloc: Global,
    store: &mut F,
    net: &mut N,
    sink: &mut K,
    log: &mut E,
    clock: &mut C,
    insertion: &Insertion<'_>,
) -> u8
    requires none_out { (N.tells net.old).links.out ≡ false }
    requires names { AreNamed (inserting insertion.now) }
    requires few { AreFew (inserting insertion.now) }
    ensures ends { Inserts result (inserting insertion.now)
        (insert_tells (outside_tells F.tells N.tells K.tells C.tells store.old net.old sink.old clock.old)
        (E.tells log.old))
        (insert_tells (outside_tells F.tells N.tells K.tells C.tells store.new net.new sink.new clock.new)
        (E.tells log.new)) }
    ensures none_out { (N.tells net.new).links.out ≡ false }
    ensures counts_kept { KeepsInsertCounts
        (outside_tells F.tells N.tells K.tells C.tells store.old net.old sink.old clock.old)
        (outside_tells F.tells N.tells K.tells C.tells store.new net.new sink.new clock.new) }
    ensures log_kept { (E.tells log.old).faults ≤ (E.tells log.new).faults }
{
    let ending = insert_files(alloc, store, net, sink, clock, insertion);
    let status = status_of(ending);
    let reason = status.reason_among(b"", store.reason(), net.reason(), b"");
    status.report_because(reason, log)
}

// Connects, takes the files, and gives the link back. Answers whether some file was refused.
fn insert_files<F: Store, N: Dial, K: Sink, C: Clock>(
    alloc: Global,
    store: &mut F,
    net: &mut N,
    sink: &mut K,
    clock: &mut C,
    insertion: &Insertion<'_>,
) -> Result<bool, InsertFault>
    requires none_out { (N.tells net.old).links.out ≡ false }
    requires names { AreNamed (inserting insertion.now) }
    requires few { AreFew (inserting insertion.now) }
    ensures ends { InsertEnds result (inserting insertion.now)
        (outside_tells F.tells N.tells K.tells C.tells store.old net.old sink.old clock.old)
        (outside_tells F.tells N.tells K.tells C.tells store.new net.new sink.new clock.new) }
    ensures none_out { (N.tells net.new).links.out ≡ false }
    ensures counts { KeepsInsertCounts
        (outside_tells F.tells N.tells K.tells C.tells store.old net.old sink.old clock.old)
        (outside_tells F.tells N.tells K.tells C.tells store.new net.new sink.new clock.new) }
{
    match net.connect(insertion.host, insertion.port) {
        Dialled::Linked(link) => hold(alloc, store, net, sink, clock, insertion, link),
        Dialled::Failed => Err(InsertFault::Unreached),
    }
}

// Takes the files over a link that came, and gives it back.
fn hold<F: Store, N: Dial, K: Sink, C: Clock>(
    alloc: Global,
    store: &mut F,
    net: &mut N,
    sink: &mut K,
    clock: &mut C,
    insertion: &Insertion<'_>,
    mut link: N::Link,
) -> Result<bool, InsertFault>
    requires is_out { (N.tells net.old).links.out ≡ true }
    requires not_closed { IsNotClosed (N.Link.tells link) }
    requires names { AreNamed (inserting insertion.now) }
    requires few { AreFew (inserting insertion.now) }
    ensures holds { HoldsFiles result (inserting insertion.now) (N.Link.tells link)
        (outside_tells F.tells N.tells K.tells C.tells store.old net.old sink.old clock.old)
        (outside_tells F.tells N.tells K.tells C.tells store.new net.new sink.new clock.new) }
    ensures none_out { (N.tells net.new).links.out ≡ false }
    ensures counts { KeepsInsertCounts
        (outside_tells F.tells N.tells K.tells C.tells store.old net.old sink.old clock.old)
        (outside_tells F.tells N.tells K.tells C.tells store.new net.new sink.new clock.new) }
{
    let ending = take_files(alloc, store, &mut link, sink, clock, insertion);
    net.give_back(link);
    ending
}
