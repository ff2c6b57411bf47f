//! Sources and sinks.

use ldm_drive::{
    Trial, bytes_in, copied, numbers, reads, tell_bytes, tell_count, tell_word, wholes, writes,
};
use ldm_outside::SureSink;
use ldm_outside_memory::{MemSink, MemSource, SureSource};

/// `source BYTES MOST FAILING COUNT`: so many reads of two bytes, at most MOST bytes a call.
pub fn source(trial: &mut Trial) {
    let word = trial.word();
    let bytes = copied(trial, bytes_in(word));
    let most = trial.number();
    let mut source = MemSource::new(bytes, numbers(trial));
    source.limit_pieces(most as usize);
    let count = trial.number();
    reads(trial, &mut source, count);
    tell_count(trial, "faults", source.faults());
    tell_count(trial, "ends", source.ends());
}

/// `sure_source BYTES COUNT`.
pub fn sure_source(trial: &mut Trial) {
    let word = trial.word();
    let mut source = SureSource::new(copied(trial, bytes_in(word)));
    let count = trial.number();
    reads(trial, &mut source, count);
}

fn sink_of(trial: &mut Trial) -> MemSink {
    let most = trial.number();
    let mut sink = MemSink::new(trial.alloc(), numbers(trial));
    sink.limit_pieces(most as usize);
    sink
}

fn end_of_sink(trial: &mut Trial, sink: &MemSink) {
    tell_word(trial, "written");
    tell_bytes(trial, sink.written());
    tell_count(trial, "faults", sink.faults());
}

/// `sink MOST FAILING PIECE ..`: one call for each piece.
pub fn sink(trial: &mut Trial) {
    let mut sink = sink_of(trial);
    writes(trial, &mut sink);
    end_of_sink(trial, &sink);
}

/// `write_all MOST FAILING PIECE ..`: each piece whole.
pub fn write_wholes(trial: &mut Trial) {
    let mut sink = sink_of(trial);
    wholes(trial, &mut sink);
    end_of_sink(trial, &sink);
}

/// `sure_sink PIECE ..`.
pub fn sure_sink(trial: &mut Trial) {
    writes(trial, &mut SureSink);
}
