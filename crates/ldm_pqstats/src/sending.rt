//! The lines of all hours, sent over a second connection.
ghost use Rattle.std.specs.Prelude.{◌≡◌, ◌≤◌, ℕ, All, true, false};
ghost use Rattle.ldm_outside.specs.Link.{IsNotClosed};
ghost use Rattle.ldm_stats.specs.declared.place.TheConstants.{LAST_HOUR};
ghost use Rattle.ldm_stats.specs.Report.{hours_of};
ghost use Rattle.ldm_pqstats.specs.Hours.{RunsOver, SendsHour, ends_tell, hand_tells};
ghost use Rattle.ldm_pqstats.specs.Linking.{SendsHours};
ghost use Rattle.ldm_pqstats.specs.Outsides.{HoldsHours, KeepsOutside};
ghost use Rattle.ldm_pqstats.specs.Sending.{hour_at, outside_of};

use crate::asked::StatsAsked;
use crate::end::SendFault;
use crate::hour::put_hour;
use ldm_outside::{Clock, Dial, Dialled, Link, Sink};
use ldm_stats::Stats;
use ldm_tools::Puts;
use ldm_types::OutOfMemory;
use std::alloc::Global;

/// Connects, sends the lines of each hour of the report by a PUT of its own, and gives the link back. Answers whether
/// the queue did not admit one. Where the report has no hour, nothing is connected.
pub(crate) fn send_hours<N: Dial, K: Sink, C: Clock>(
    alloc: Global,
    net: &mut N,
    sink: &mut K,
    clock: &mut C,
    asked: &StatsAsked<'_>,
    stats: &Stats,
) -> Result<bool, SendFault>
    requires none_out { (N.tells net.old).links.out ≡ false }
    ensures sends { SendsHours result (record { host = asked.now.host.now; port = asked.now.port }) stats.now
        (outside_of (N.tells net.old) (K.tells sink.old) (C.tells clock.old))
        (outside_of (N.tells net.new) (K.tells sink.new) (C.tells clock.new)) }
    ensures none_out { (N.tells net.new).links.out ≡ false }
    ensures kept { KeepsOutside
        (outside_of (N.tells net.old) (K.tells sink.old) (C.tells clock.old))
        (outside_of (N.tells net.new) (K.tells sink.new) (C.tells clock.new)) }
{
    let hours = match stats.hours_reported(alloc) {
        Ok(hours) => hours,
        Err(OutOfMemory) => return Err(SendFault::OutOfMemory),
    };
    if hours.is_empty() {
        return Ok(false);
    }
    match net.connect(asked.host, asked.port) {
        Dialled::Linked(link) => hold(alloc, net, link, sink, clock, stats, hours.as_slice()),
        Dialled::Failed => Err(SendFault::Unreached),
    }
}

// Sends the hours over a link that came, and gives it back.
fn hold<N: Dial, K: Sink, C: Clock>(
    alloc: Global,
    net: &mut N,
    mut link: N::Link,
    sink: &mut K,
    clock: &mut C,
    stats: &Stats,
    hours: &[u32],
) -> Result<bool, SendFault>
    requires is_out { (N.tells net.old).links.out ≡ true }
    requires not_closed { IsNotClosed (N.Link.tells link) }
    requires bound { All (λ (hour : ℕ). hour ≤ LAST_HOUR) hours.now }
    requires all { hours.now ≡ hours_of stats.now.entries }
    ensures holds { HoldsHours result stats.now (N.Link.tells link)
        (outside_of (N.tells net.old) (K.tells sink.old) (C.tells clock.old))
        (outside_of (N.tells net.new) (K.tells sink.new) (C.tells clock.new)) }
    ensures none_out { (N.tells net.new).links.out ≡ false }
    ensures kept { KeepsOutside
        (outside_of (N.tells net.old) (K.tells sink.old) (C.tells clock.old))
        (outside_of (N.tells net.new) (K.tells sink.new) (C.tells clock.new)) }
{
    let ending = put_hours(alloc, &mut link, sink, clock, stats, hours);
    net.give_back(link);
    ending
}

// Sends the hours over a link that was not used yet.
fn put_hours<L: Link, K: Sink, C: Clock>(
    alloc: Global,
    link: &mut L,
    sink: &mut K,
    clock: &mut C,
    stats: &Stats,
    hours: &[u32],
) -> Result<bool, SendFault>
    requires not_closed { IsNotClosed (L.tells link.old) }
    requires bound { All (λ (hour : ℕ). hour ≤ LAST_HOUR) hours.now }
    ensures runs { RunsOver result stats.now hours.now
        (ends_tell L.tells K.tells C.tells link.old sink.old clock.old)
        (ends_tell L.tells K.tells C.tells link.new sink.new clock.new) }
    ensures faults_kept { (L.tells link.old).faults ≤ (L.tells link.new).faults }
    ensures ends_kept { (L.tells link.old).ends ≤ (L.tells link.new).ends }
    ensures sink_kept { (K.tells sink.old).faults ≤ (K.tells sink.new).faults }
    ensures still_open { IsNotClosed (L.tells link.new) }
{
    let mut puts = match Puts::create(alloc) {
        Ok(puts) => puts,
        Err(OutOfMemory) => return Err(SendFault::OutOfMemory),
    };
    let mut refused = false;
    let mut number: u32 = 0;
    for hour in hours {
        match send_hour(alloc, link, sink, clock, &mut puts, stats, *hour, number) {
            Ok(this_one) => refused = refused || this_one,
            Err(why) => return Err(why),
        }
        number = number.wrapping_add(1);
    }
    Ok(refused)
}

// Makes the lines of an hour, and sends them.
fn send_hour<L: Link, K: Sink, C: Clock>(
    alloc: Global,
    link: &mut L,
    sink: &mut K,
    clock: &mut C,
    puts: &mut Puts,
    stats: &Stats,
    hour: u32,
    number: u32,
) -> Result<bool, SendFault>
    requires not_closed { IsNotClosed (L.tells link.old) }
    requires bound { hour ≤ LAST_HOUR }
    ensures sends { SendsHour result stats.now (hour_at hour number)
        (hand_tells L.tells K.tells C.tells puts.old link.old sink.old clock.old)
        (hand_tells L.tells K.tells C.tells puts.new link.new sink.new clock.new) }
    ensures faults_kept { (L.tells link.old).faults ≤ (L.tells link.new).faults }
    ensures ends_kept { (L.tells link.old).ends ≤ (L.tells link.new).ends }
    ensures sink_kept { (K.tells sink.old).faults ≤ (K.tells sink.new).faults }
    ensures still_open { IsNotClosed (L.tells link.new) }
{
    let mut body = Vec::new(alloc);
    match stats.report_hour(hour, &mut body) {
        Ok(()) => put_hour(link, sink, clock, puts, hour, number, body.as_slice()),
        Err(OutOfMemory) => Err(SendFault::OutOfMemory),
    }
}
