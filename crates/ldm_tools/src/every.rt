//! A node that is asked for the figures of its queue again and again.
ghost use Rattle.std.specs.Prelude.{◌≡◌, ◌<◌, ◌≤◌, false};
ghost use Rattle.ldm_tools.specs.Mon.{KeepsMonCounts, mon_tells};
ghost use Rattle.ldm_tools.specs.Every.{AsksOn, moment_of};

use crate::pqmon;
use ldm_outside::{Dial, Reasons, Rests, Sink};
use std::alloc::Global;

const MICROS_A_SECOND: u64 = 1_000_000;

/// Asks a node for the figures of its queue as [`pqmon`] does, rests for so many seconds, 1 at least, and asks again.
/// Answers the number that the program ends with.
///
/// Each asking has a link of its own, which is given back before its line is written. The first one that does not go
/// well ends the run, with its number and its line in the log. It ends with 0 only where after a rest the clock tells
/// that the seconds did not pass: a clock that goes on never does.
pub fn pqmon_every<N: Dial + Reasons, K: Sink, E: Sink, C: Rests>(
    alloc: Global,
    net: &mut N,
    sink: &mut K,
    log: &mut E,
    clock: &mut C,
    host: &[u8],
    port: u16,
    seconds: u32,
) -> u8
    requires none_out { (N.tells net.old).links.out ≡ false }
    requires some { 0 < seconds }
    ensures ends { AsksOn result (record { host = host.now; port = port }) seconds
        (moment_of (mon_tells N.tells K.tells E.tells net.old sink.old log.old) (C.tells clock.old))
        (moment_of (mon_tells N.tells K.tells E.tells net.new sink.new log.new) (C.tells clock.new)) }
    ensures none_out { (N.tells net.new).links.out ≡ false }
    ensures counts_kept { KeepsMonCounts (mon_tells N.tells K.tells E.tells net.old sink.old log.old)
        (mon_tells N.tells K.tells E.tells net.new sink.new log.new) }
{
    let rest = u64::from(seconds) * MICROS_A_SECOND;
    let mut instant = clock.now().get();
    loop {
        let code = pqmon(alloc, net, sink, log, host, port);
        if code != 0 {
            return code;
        }
        clock.rest(seconds);
        let due = instant + rest;
        instant = clock.now().get();
        if instant < due {
            return 0;
        }
    }
}
