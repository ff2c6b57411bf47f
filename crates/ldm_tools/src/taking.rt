//! Files that are taken over a link, one after another.
ghost use Rattle.std.specs.Prelude.{◌≤◌, length};
ghost use Rattle.ldm_outside.specs.Link.{IsNotClosed};
ghost use Rattle.ldm_tools.specs.declared.limits.TheConstants.{LARGEST_FILE};
ghost use Rattle.ldm_tools.specs.Inserting.{AreFew, AreNamed, IsNamed, inserting};
ghost use Rattle.ldm_tools.specs.Moments.{KeepsHands, hands_tell};
ghost use Rattle.ldm_tools.specs.Parts.{RunsOver, Sends, TakesOne, sent_by};

use crate::fault::{InsertFault, fault_of};
use crate::insertion::Insertion;
use crate::limits::LARGEST_FILE;
use crate::lines::write_too_long;
use crate::metadata::metadata_of;
use crate::{Puts, put_product};
use ldm_outside::{Clock, FileRead, Link, Sink, SinkFailed, Store};
use std::alloc::Global;

/// Takes all files over a link that was not used yet. Answers whether some file was refused.
pub(crate) fn take_files<F: Store, L: Link, K: Sink, C: Clock>(
    alloc: Global,
    store: &mut F,
    link: &mut L,
    sink: &mut K,
    clock: &mut C,
    insertion: &Insertion<'_>,
) -> Result<bool, InsertFault>
    requires not_closed { IsNotClosed (L.tells link.old) }
    requires names { AreNamed (inserting insertion.now) }
    requires few { AreFew (inserting insertion.now) }
    ensures runs { RunsOver result (inserting insertion.now)
        (hands_tell F.tells L.tells K.tells C.tells store.old link.old sink.old clock.old)
        (hands_tell F.tells L.tells K.tells C.tells store.new link.new sink.new clock.new) }
    ensures counts { KeepsHands (hands_tell F.tells L.tells K.tells C.tells store.old link.old sink.old clock.old)
        (hands_tell F.tells L.tells K.tells C.tells store.new link.new sink.new clock.new) }
    ensures still_open { IsNotClosed (L.tells link.new) }
{
    let mut puts = match Puts::create(alloc) {
        Ok(puts) => puts,
        Err(_) => return Err(InsertFault::OutOfMemory),
    };
    let mut refused = false;
    let mut number = 0;
    for path in insertion.files {
        match take_file(
            alloc, store, link, sink, clock, insertion, &mut puts, number, path,
        ) {
            Ok(this_one) => refused = refused || this_one,
            Err(why) => return Err(why),
        }
        number += 1;
    }
    Ok(refused)
}

// Takes one file: it is read, sent, and its line written. Answers whether it was refused.
fn take_file<F: Store, L: Link, K: Sink, C: Clock>(
    alloc: Global,
    store: &mut F,
    link: &mut L,
    sink: &mut K,
    clock: &mut C,
    insertion: &Insertion<'_>,
    puts: &mut Puts,
    number: u32,
    path: &str,
) -> Result<bool, InsertFault>
    requires not_closed { IsNotClosed (L.tells link.old) }
    requires named { IsNamed (inserting insertion.now) path.now }
    ensures takes { TakesOne result (inserting insertion.now)
        (record { number = number; path = path.now }) puts.old puts.new
        (hands_tell F.tells L.tells K.tells C.tells store.old link.old sink.old clock.old)
        (hands_tell F.tells L.tells K.tells C.tells store.new link.new sink.new clock.new) }
    ensures counts { KeepsHands (hands_tell F.tells L.tells K.tells C.tells store.old link.old sink.old clock.old)
        (hands_tell F.tells L.tells K.tells C.tells store.new link.new sink.new clock.new) }
    ensures still_open { IsNotClosed (L.tells link.new) }
{
    match store.read_file(alloc, path, LARGEST_FILE) {
        FileRead::Bytes(body) => put_file(
            link,
            sink,
            clock,
            insertion,
            puts,
            number,
            path,
            body.as_slice(),
        ),
        FileRead::TooLong => match write_too_long(sink) {
            Ok(()) => Ok(true),
            Err(SinkFailed) => Err(InsertFault::SinkFault),
        },
        FileRead::Failed => Err(InsertFault::StoreFault),
        FileRead::OutOfMemory => Err(InsertFault::OutOfMemory),
    }
}

// Sends a file that was read, and writes the line of its answer.
fn put_file<L: Link, K: Sink, C: Clock>(
    link: &mut L,
    sink: &mut K,
    clock: &mut C,
    insertion: &Insertion<'_>,
    puts: &mut Puts,
    number: u32,
    path: &str,
    body: &[u8],
) -> Result<bool, InsertFault>
    requires not_closed { IsNotClosed (L.tells link.old) }
    requires named { IsNamed (inserting insertion.now) path.now }
    requires short { length body.now ≤ LARGEST_FILE }
    ensures sends { Sends result (inserting insertion.now)
        (record { number = number; path = path.now }) body.now
        (sent_by L.tells K.tells C.tells puts.old link.old sink.old clock.old)
        (sent_by L.tells K.tells C.tells puts.new link.new sink.new clock.new) }
    ensures faults_kept { (L.tells link.old).faults ≤ (L.tells link.new).faults }
    ensures ends_kept { (L.tells link.old).ends ≤ (L.tells link.new).ends }
    ensures sink_kept { (K.tells sink.old).faults ≤ (K.tells sink.new).faults }
    ensures still_open { IsNotClosed (L.tells link.new) }
{
    let info = metadata_of(insertion, number, path, body, clock.now());
    match put_product(puts, link, sink, &info, body) {
        Ok(refused) => Ok(refused),
        Err(why) => Err(fault_of(why)),
    }
}
