//! The items of a piece of the stream, one after another.
ghost use Rattle.std.specs.Prelude.{◌≡◌, ◌≤◌, [], ◌∷◌, None, OnOk, false, length};
ghost use Rattle.ldm_types.specs.Info.{texts_fault};
ghost use Rattle.ldm_outside.specs.Link.{IsNotClosed};
ghost use Rattle.ldm_wmo.specs.declared.stage.TheConstants.{LARGEST_BULLETIN};
ghost use Rattle.ldm_wmo.specs.Items.{IsSound};
ghost use Rattle.ldm_wmo.specs.ItemView.{found_of};
ghost use Rattle.ldm_wmo.specs.Scanning.{is_complete};
ghost use Rattle.ldm_wmo.specs.Streams.{given, in_hand, items_in};
ghost use Rattle.ldm_wmo.specs.Ingesting.{IsNamed, ingesting};
ghost use Rattle.ldm_wmo.specs.Outcomes.{outcome_of};
ghost use Rattle.ldm_wmo.specs.Parts.{KeepsHands, Sends, TakesSome, hands_tell, sent_by, tellers};

use crate::ingest_fault::IngestFault;
use crate::ingest_lines::write_bad;
use crate::ingestion::Ingestion;
use crate::metadata::metadata_of;
use crate::outcome::Outcome;
use crate::{Item, Scanner};
use ldm_outside::{Clock, Link, Sink};
use ldm_tools::{Puts, put_product};

/// Takes a piece of the stream, and each item that it completes. Answers what was met first.
pub(crate) fn take_piece<L: Link, K: Sink, E: Sink, C: Clock>(
    link: &mut L,
    sink: &mut K,
    log: &mut E,
    clock: &mut C,
    ingestion: &Ingestion<'_>,
    puts: &mut Puts,
    scanner: &mut Scanner,
    piece: &[u8],
) -> Result<Outcome, IngestFault>
    requires not_closed { IsNotClosed (L.tells link.old) }
    requires named { IsNamed (ingesting ingestion.now) }
    requires ready { is_complete scanner.old ≡ false }
    ensures takes { TakesSome result (ingesting ingestion.now) (items_in scanner.old piece.now)
        (hands_tell (tellers L.tells K.tells E.tells C.tells) puts.old link.old sink.old log.old clock.old)
        (hands_tell (tellers L.tells K.tells E.tells C.tells) puts.new link.new sink.new log.new clock.new) }
    ensures hand { OnOk result (scanner.new ≡ in_hand scanner.old piece.now) }
    ensures ready { OnOk result (is_complete scanner.new ≡ false) }
    ensures counts { KeepsHands
        (hands_tell (tellers L.tells K.tells E.tells C.tells) puts.old link.old sink.old log.old clock.old)
        (hands_tell (tellers L.tells K.tells E.tells C.tells) puts.new link.new sink.new log.new clock.new) }
    ensures still_open { IsNotClosed (L.tells link.new) }
{
    let mut met = Outcome::Clean;
    let mut at = 0;
    while at < piece.len() {
        at += scanner.push(&piece[at..]);
        match take_given(link, sink, log, clock, ingestion, puts, scanner) {
            Ok(this_one) => met = met.then(this_one),
            Err(why) => return Err(why),
        }
        scanner.next();
    }
    Ok(met)
}

// Takes the item that is complete, if there is one.
fn take_given<L: Link, K: Sink, E: Sink, C: Clock>(
    link: &mut L,
    sink: &mut K,
    log: &mut E,
    clock: &mut C,
    ingestion: &Ingestion<'_>,
    puts: &mut Puts,
    scanner: &Scanner,
) -> Result<Outcome, IngestFault>
    requires not_closed { IsNotClosed (L.tells link.old) }
    requires named { IsNamed (ingesting ingestion.now) }
    ensures takes { TakesSome result (ingesting ingestion.now) (given scanner.now)
        (hands_tell (tellers L.tells K.tells E.tells C.tells) puts.old link.old sink.old log.old clock.old)
        (hands_tell (tellers L.tells K.tells E.tells C.tells) puts.new link.new sink.new log.new clock.new) }
    ensures counts { KeepsHands
        (hands_tell (tellers L.tells K.tells E.tells C.tells) puts.old link.old sink.old log.old clock.old)
        (hands_tell (tellers L.tells K.tells E.tells C.tells) puts.new link.new sink.new log.new clock.new) }
    ensures still_open { IsNotClosed (L.tells link.new) }
{
    match scanner.item() {
        Some(item) => take_item(link, sink, log, clock, ingestion, puts, item),
        None => Ok(Outcome::Clean),
    }
}

// Takes an item: puts a bulletin, and writes the line of another candidate.
fn take_item<L: Link, K: Sink, E: Sink, C: Clock>(
    link: &mut L,
    sink: &mut K,
    log: &mut E,
    clock: &mut C,
    ingestion: &Ingestion<'_>,
    puts: &mut Puts,
    item: Item<'_>,
) -> Result<Outcome, IngestFault>
    requires not_closed { IsNotClosed (L.tells link.old) }
    requires named { IsNamed (ingesting ingestion.now) }
    requires sound { IsSound (found_of item) }
    ensures takes { TakesSome result (ingesting ingestion.now) (found_of item.entry ∷ [])
        (hands_tell (tellers L.tells K.tells E.tells C.tells) puts.old link.old sink.old log.old clock.old)
        (hands_tell (tellers L.tells K.tells E.tells C.tells) puts.new link.new sink.new log.new clock.new) }
    ensures counts { KeepsHands
        (hands_tell (tellers L.tells K.tells E.tells C.tells) puts.old link.old sink.old log.old clock.old)
        (hands_tell (tellers L.tells K.tells E.tells C.tells) puts.new link.new sink.new log.new clock.new) }
    ensures still_open { IsNotClosed (L.tells link.new) }
{
    match item {
        Item::Bulletin {
            seqno,
            heading,
            bytes,
            ..
        } => put_bulletin(
            link,
            sink,
            clock,
            ingestion,
            puts,
            seqno,
            heading.as_slice(),
            bytes,
        ),
        Item::Bad { at } => match write_bad(log, at) {
            Ok(()) => Ok(Outcome::Bad),
            Err(_) => Err(IngestFault::LogFault),
        },
    }
}

// Puts a bulletin, and writes the line of the answer.
fn put_bulletin<L: Link, K: Sink, C: Clock>(
    link: &mut L,
    sink: &mut K,
    clock: &mut C,
    ingestion: &Ingestion<'_>,
    puts: &mut Puts,
    seqno: u32,
    heading: &[u8],
    bytes: &[u8],
) -> Result<Outcome, IngestFault>
    requires not_closed { IsNotClosed (L.tells link.old) }
    requires named { texts_fault ingestion.now.origin.now heading.now ≡ None }
    requires short { length bytes.now ≤ LARGEST_BULLETIN }
    ensures sends { Sends result (ingesting ingestion.now)
        (record { seqno = seqno; heading = heading.now; bytes = bytes.now })
        (sent_by L.tells K.tells C.tells puts.old link.old sink.old clock.old)
        (sent_by L.tells K.tells C.tells puts.new link.new sink.new clock.new) }
    ensures ends_kept { (L.tells link.old).ends ≤ (L.tells link.new).ends }
    ensures faults_kept { (L.tells link.old).faults ≤ (L.tells link.new).faults }
    ensures sink_kept { (K.tells sink.old).faults ≤ (K.tells sink.new).faults }
    ensures still_open { IsNotClosed (L.tells link.new) }
{
    let info = metadata_of(ingestion, seqno, heading, bytes, clock.now());
    match put_product(puts, link, sink, &info, bytes) {
        Ok(refused) => Ok(outcome_of(refused)),
        Err(why) => Err(IngestFault::Put(why)),
    }
}

// What is met with a bulletin that the queue refused, or did not.
fn outcome_of(refused: bool) -> Outcome
    ensures { result ≡ outcome_of refused }
{
    if refused {
        Outcome::Refused
    } else {
        Outcome::Clean
    }
}
