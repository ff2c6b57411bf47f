//! How the gates of a net rest.

use crate::beats::Beats;
use crate::bell::Listener;
use std::rt::HostRuntime;
use std::time::{Duration, Instant};
use std::{io, thread};

/// How long an idle call of a gate with a number of these sleeps, and one after the first try that came to nothing, in
/// milliseconds.
pub const IDLE_MILLISECONDS: u64 = 50;

/// How long an idle call of a station that let a peer in sleeps where no beat comes, in milliseconds.
pub const QUIET_MILLISECONDS: u64 = 500;

/// How long it sleeps at most where beats came since the last one, in milliseconds.
pub const BUSY_MILLISECONDS: u64 = 1;

/// How long the first of these sleeps takes after a calm, in microseconds. Each further one takes twice as long.
pub const FIRST_BUSY_MICROSECONDS: u64 = 250;

/// How long no beat comes in a calm, in milliseconds.
pub const CALM_MILLISECONDS: u64 = 10;

/// The longest sleep of an idle call after tries that came to nothing, in seconds.
pub const LONGEST_REST_SECONDS: u64 = 30;

/// The rests of one gate.
#[derive(Drop)]
pub struct Resting {
    rt: HostRuntime,
    beats: Beats,
    listener: Listener,
    // How many beats there were at the last rest.
    seen: u64,
    // How long the next sleep takes, where beats came.
    busy: Duration,
    // Whether it stops only behind the stations of the net, or behind their links.
    is_last: bool,
    // Whether nothing could come any more when it was asked last whether to stop.
    was_quiet: bool,
}

impl Resting {
    /// The rests of a gate whose station has those beats.
    pub(crate) fn new(rt: HostRuntime, beats: Beats) -> io::Result<Resting> {
        Resting::made(rt, beats, false)
    }

    /// The rests of a gate of a desk: it waits for beats as if it fed, and stops last.
    pub(crate) fn of_desk(rt: HostRuntime, beats: Beats) -> io::Result<Resting> {
        beats.serve();
        Resting::made(rt, beats, true)
    }

    fn made(rt: HostRuntime, beats: Beats, is_last: bool) -> io::Result<Resting> {
        Ok(Resting {
            rt,
            listener: Listener::new(rt, beats.bell())?,
            beats,
            seen: 0,
            busy: first_busy(),
            is_last,
            was_quiet: false,
        })
    }

    /// Whether the gate may stop with the input of the program.
    pub(crate) fn may_stop(&self) -> bool {
        self.beats.may_stop()
    }

    /// Whether the gate is to stop.
    ///
    /// That of a desk does so where nothing could come any more at the last question already: so its worker has looked
    /// at the queue since. Nothing comes once no station is at work, or, where the input has ended, once no link may
    /// bring something.
    pub(crate) fn is_over(&mut self) -> bool {
        if !self.is_last {
            return self.beats.is_over();
        }
        let was_quiet = self.was_quiet;
        self.was_quiet = self.beats.is_left() || self.beats.is_over() && self.beats.is_quiet();
        was_quiet && self.was_quiet
    }

    /// The gate stopped.
    pub(crate) fn leave(&self) {
        self.beats.leave();
    }

    /// Sleeps for one idle call, or until it is worth looking at the queue again.
    pub(crate) fn rest(&mut self) {
        if self.was_quiet || self.beats.is_over() {
            thread::sleep(&self.rt, Duration::from_millis(BUSY_MILLISECONDS));
        } else if self.beats.serves() {
            self.rest_between_beats();
        } else {
            self.sleep(rest_after(self.beats.misses()));
        }
    }

    // Sleeps for so long, or until the net is to stop.
    fn sleep(&self, time: Duration) {
        let mut left = time;
        for _ in 0..u64::MAX {
            let step = self.beats.within(left);
            thread::sleep(&self.rt, step);
            left = left.saturating_sub(step);
            if left.is_zero() || self.beats.is_over() {
                break;
            }
        }
    }

    // What is queued has been looked at since the last rest. So a beat that was counted then tells nothing new, and
    // where there was no other since, none is missed by waiting for the next. Where there was one, more may come: who
    // slept until each of them would be woken for each product, and so sleeps a little for some of them together.
    fn rest_between_beats(&mut self) {
        let count = self.beats.count();
        if count == self.seen {
            self.await_beat(count);
        } else {
            thread::sleep(&self.rt, self.busy);
            let longest = Duration::from_millis(BUSY_MILLISECONDS);
            self.busy = self.busy.saturating_mul(2).min(longest);
        }
        self.seen = count;
    }

    // Sleeps until there are more beats than so many, but not for ever.
    fn await_beat(&mut self, count: u64) {
        let began = Instant::now(&self.rt).ok();
        let limit = Duration::from_millis(QUIET_MILLISECONDS);
        if self.listener.wait(self.beats.bell(), count, limit).is_err() {
            thread::sleep(&self.rt, Duration::from_millis(IDLE_MILLISECONDS));
        }
        if began.is_some_and(|began| self.is_calm_since(began)) {
            self.busy = first_busy();
        }
    }

    fn is_calm_since(&self, began: Instant) -> bool {
        let calm = Duration::from_millis(CALM_MILLISECONDS);
        began.elapsed(&self.rt).is_ok_and(|slept| slept >= calm)
    }
}

fn first_busy() -> Duration {
    Duration::from_micros(FIRST_BUSY_MICROSECONDS)
}

// How long to sleep after so many tries in a row that came to nothing.
fn rest_after(misses: u64) -> Duration {
    let longest = Duration::from_secs(LONGEST_REST_SECONDS);
    let mut rest = Duration::from_millis(IDLE_MILLISECONDS);
    for _ in 1..misses {
        if rest >= longest {
            break;
        }
        rest = rest.saturating_mul(2);
    }
    rest.min(longest)
}
