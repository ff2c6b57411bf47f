//! The lines of one hour, and how they are put.
ghost use Rattle.std.specs.Prelude.{◌≡◌, ◌≤◌, length};
ghost use Rattle.ldm_outside.specs.Link.{IsNotClosed};
ghost use Rattle.ldm_relay.specs.Writable.{IsShortProduct};
ghost use Rattle.ldm_stats.specs.declared.place.TheConstants.{LAST_HOUR};
ghost use Rattle.ldm_tools.specs.Telling.{PutsProduct, putting_tells};
ghost use Rattle.ldm_pqstats.specs.declared.limits.TheConstants.{LARGEST_BODY};
ghost use Rattle.ldm_pqstats.specs.Sending.{hour_at, ident_of, metadata_of};
ghost use Rattle.ldm_pqstats.specs.Hours.{PutsHour, hand_tells};

use crate::end::SendFault;
use crate::limits::{EXP, LARGEST_BODY};
use arrayvec::ArrayVec;
use ldm_answers::put;
use ldm_outside::{Clock, Link, Sink};
use ldm_signature::sign;
use ldm_stats::{Stats, hour_text};
use ldm_tools::{Puts, put_product};
use ldm_types::{Feed, Info, Micros, OutOfMemory};
use std::alloc::Global;

// `stats/YYYYMMDDHH`.
fn ident_of(hour: u32) -> ArrayVec<u8, 16>
    requires { hour ≤ LAST_HOUR }
    ensures { result.items ≡ ident_of hour }
{
    let mut ident = ArrayVec::new();
    put(&mut ident, b"stats/");
    put(&mut ident, hour_text(hour).as_slice());
    ident
}

/// The metadata of the lines of an hour, the one of that number.
pub(crate) fn metadata_of(hour: u32, number: u32, arrival: Micros, body: &[u8]) -> Info
    requires hour { hour ≤ LAST_HOUR }
    requires short { length body.now ≤ LARGEST_BODY }
    ensures value { result ≡ metadata_of (hour_at hour number) arrival body.now }
    ensures short { IsShortProduct result (length body.now) }
{
    match Info::new(
        arrival,
        sign(body),
        b"localhost",
        Feed(EXP),
        number,
        ident_of(hour).as_slice(),
        body.len() as u32,
    ) {
        Ok(info) => info,
        Err(_) => unreachable!(),
    }
}

/// Sends the lines of an hour, and writes the line of the answer. Answers whether the queue did not admit them.
pub(crate) fn put_hour<L: Link, K: Sink, C: Clock>(
    link: &mut L,
    sink: &mut K,
    clock: &mut C,
    puts: &mut Puts,
    hour: u32,
    number: u32,
    body: &[u8],
) -> Result<bool, SendFault>
    requires not_closed { IsNotClosed (L.tells link.old) }
    requires hour { hour ≤ LAST_HOUR }
    ensures puts { PutsHour result (hour_at hour number) body.now
        (hand_tells L.tells K.tells C.tells puts.old link.old sink.old clock.old)
        (hand_tells L.tells K.tells C.tells puts.new link.new sink.new clock.new) }
    ensures faults_kept { (L.tells link.old).faults ≤ (L.tells link.new).faults }
    ensures ends_kept { (L.tells link.old).ends ≤ (L.tells link.new).ends }
    ensures sink_kept { (K.tells sink.old).faults ≤ (K.tells sink.new).faults }
    ensures still_open { IsNotClosed (L.tells link.new) }
{
    if body.len() > LARGEST_BODY {
        return Err(SendFault::TooLong);
    }
    let info = metadata_of(hour, number, clock.now(), body);
    match put_product(puts, link, sink, &info, body) {
        Ok(refused) => Ok(refused),
        Err(why) => Err(SendFault::Put(why)),
    }
}
