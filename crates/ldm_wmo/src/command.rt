//! `wmo`: puts the bulletins of a stream into the queue of a node.
ghost use Rattle.std.specs.Prelude.{◌≡◌, ◌≤◌, true, false};
ghost use Rattle.ldm_outside.specs.Link.{IsNotClosed};
ghost use Rattle.ldm_wmo.specs.Ingesting.{IsNamed, ingesting};
ghost use Rattle.ldm_wmo.specs.Ingests.{IngestEnds, Ingests};
ghost use Rattle.ldm_wmo.specs.Moments.{KeepsIngestCounts, outside_tells, streams_tell};
ghost use Rattle.ldm_wmo.specs.Parts.{HoldsStream};

use crate::ingest_fault::IngestFault;
use crate::ingestion::Ingestion;
use crate::outcome::Outcome;
use crate::statuses::close;
use crate::streaming::take_stream;
use ldm_outside::{Clock, Dial, Dialled, Reasons, Sink, Source};
use std::alloc::Global;

/// Puts the bulletins of a source into the queue of a node, one after another, and writes the answer to each as a line.
/// Answers the number that the program ends with, and writes its line to the log.
///
/// It connects once, before it reads. A bulletin goes out by one PUT when it is complete, after the line of the answer
/// to the one before: its ident is the heading, its sequence number the bulletin's, its body all bytes of it, and its
/// signature the MD5 of those from the heading on. A candidate that is no bulletin, or that the source's end cuts off,
/// has a line in the log. The first fault ends the run, and so does a node that does not let the caller insert. The
/// link is given back before the last line of the log is written.
///
/// [`Info::new`](ldm_types::Info::new) accepts the origin.
pub fn ingest<S: Source, N: Dial + Reasons, K: Sink, E: Sink, C: Clock>(
    alloc: Global,
    source: &mut S,
    net: &mut N,
    sink: &mut K,
    log: &mut E,
    clock: &mut C,
    ingestion: &Ingestion<'_>,
) -> u8
    requires none_out { (N.tells net.old).links.out ≡ false }
    requires named { IsNamed (ingesting ingestion.now) }
    ensures ends { Ingests result (ingesting ingestion.now)
        (outside_tells N.tells C.tells
        (streams_tell S.tells K.tells E.tells source.old sink.old log.old) net.old clock.old)
        (outside_tells N.tells C.tells
        (streams_tell S.tells K.tells E.tells source.new sink.new log.new) net.new clock.new) }
    ensures none_out { (N.tells net.new).links.out ≡ false }
    ensures counts_kept { KeepsIngestCounts
        (outside_tells N.tells C.tells
        (streams_tell S.tells K.tells E.tells source.old sink.old log.old) net.old clock.old)
        (outside_tells N.tells C.tells
        (streams_tell S.tells K.tells E.tells source.new sink.new log.new) net.new clock.new) }
{
    let ending = ingest_stream(alloc, source, net, sink, log, clock, ingestion);
    close(ending, net.reason(), log)
}

// Connects, takes the bulletins, and gives the link back. Answers what was met first.
fn ingest_stream<S: Source, N: Dial, K: Sink, E: Sink, C: Clock>(
    alloc: Global,
    source: &mut S,
    net: &mut N,
    sink: &mut K,
    log: &mut E,
    clock: &mut C,
    ingestion: &Ingestion<'_>,
) -> Result<Outcome, IngestFault>
    requires none_out { (N.tells net.old).links.out ≡ false }
    requires named { IsNamed (ingesting ingestion.now) }
    ensures ends { IngestEnds result (ingesting ingestion.now)
        (outside_tells N.tells C.tells
        (streams_tell S.tells K.tells E.tells source.old sink.old log.old) net.old clock.old)
        (outside_tells N.tells C.tells
        (streams_tell S.tells K.tells E.tells source.new sink.new log.new) net.new clock.new) }
    ensures none_out { (N.tells net.new).links.out ≡ false }
    ensures counts { KeepsIngestCounts
        (outside_tells N.tells C.tells
        (streams_tell S.tells K.tells E.tells source.old sink.old log.old) net.old clock.old)
        (outside_tells N.tells C.tells
        (streams_tell S.tells K.tells E.tells source.new sink.new log.new) net.new clock.new) }
{
    match net.connect(ingestion.host, ingestion.port) {
        Dialled::Linked(link) => hold(alloc, source, net, sink, log, clock, ingestion, link),
        Dialled::Failed => Err(IngestFault::Unreached),
    }
}

// Takes the bulletins over a link that came, and gives it back.
fn hold<S: Source, N: Dial, K: Sink, E: Sink, C: Clock>(
    alloc: Global,
    source: &mut S,
    net: &mut N,
    sink: &mut K,
    log: &mut E,
    clock: &mut C,
    ingestion: &Ingestion<'_>,
    mut link: N::Link,
) -> Result<Outcome, IngestFault>
    requires is_out { (N.tells net.old).links.out ≡ true }
    requires not_closed { IsNotClosed (N.Link.tells link) }
    requires named { IsNamed (ingesting ingestion.now) }
    ensures holds { HoldsStream result (ingesting ingestion.now) (N.Link.tells link)
        (outside_tells N.tells C.tells
        (streams_tell S.tells K.tells E.tells source.old sink.old log.old) net.old clock.old)
        (outside_tells N.tells C.tells
        (streams_tell S.tells K.tells E.tells source.new sink.new log.new) net.new clock.new) }
    ensures none_out { (N.tells net.new).links.out ≡ false }
    ensures counts { KeepsIngestCounts
        (outside_tells N.tells C.tells
        (streams_tell S.tells K.tells E.tells source.old sink.old log.old) net.old clock.old)
        (outside_tells N.tells C.tells
        (streams_tell S.tells K.tells E.tells source.new sink.new log.new) net.new clock.new) }
{
    let ending = take_stream(alloc, source, &mut link, sink, log, clock, ingestion);
    net.give_back(link);
    ending
}
