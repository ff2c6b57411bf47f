//! Sources and sinks.

use crate::Trial;
use crate::links::tell_put;
use crate::words::{bytes_in, tell_bytes, tell_word};
use ldm_outside::{Got, Sink, Source, write_all};

/// Reads with a buffer of two bytes, so many times.
pub fn reads<S: Source>(trial: &mut Trial, source: &mut S, count: u64) {
    for _ in 0..count {
        let mut buffer = [0; 2];
        match source.read(&mut buffer) {
            Got::Bytes(n) => tell_bytes(trial, &buffer[..n]),
            Got::End => tell_word(trial, "end"),
            Got::Failed => tell_word(trial, "failed"),
        }
    }
}

/// Writes each word that is left.
pub fn writes<K: Sink>(trial: &mut Trial, sink: &mut K) {
    for _ in 0..u64::MAX {
        if trial.is_done() {
            break;
        }
        let put = sink.write(bytes_in(trial.word()));
        tell_put(trial, put);
    }
}

/// Writes each word that is left, whole.
pub fn wholes<K: Sink>(trial: &mut Trial, sink: &mut K) {
    for _ in 0..u64::MAX {
        if trial.is_done() {
            break;
        }
        let all = write_all(sink, bytes_in(trial.word()));
        tell_word(trial, if all.is_ok() { "ok" } else { "failed" });
    }
}
