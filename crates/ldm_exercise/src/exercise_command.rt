//! `ldm exercise`: a script that is drawn from a number, played on a queue, and summed up.
ghost use Rattle.std.specs.Prelude.{◌≡◌, ◌≤◌};
ghost use Rattle.ldm_model.specs.History.{IsLegal};
ghost use Rattle.ldm_outside.specs.Io.{SourceRecord};
ghost use Rattle.ldm_status.specs.Streams.{KeepsFaults, streams_tells};
ghost use Rattle.ldm_exercise.specs.Complete.{ExerciseCompletes};
ghost use Rattle.ldm_exercise.specs.Ending.{ExerciseEnds, IfPlayed};
ghost use Rattle.ldm_exercise.specs.Law.{ObeysExerciseLaw};
ghost use Rattle.ldm_exercise.specs.Playing.{arena, slots, exercised};
ghost use Rattle.ldm_exercise.specs.Run.{Exercises};

use crate::order::MOST_DRAWN;
use crate::playing::play_script;
use crate::statuses::status_of;
use crate::summary::summary_for;
use ldm_model::histories_are_lawful;
use ldm_outside::{Sink, SinkFailed, write_all};
use ldm_status::Streams;
use ldm_types::OutOfMemory;
use std::alloc::Global;

/// Why no whole summary was written.
#[derive(Clone, Copy, Debug, PartialEq, Eq)]
pub enum ExerciseFault {
    /// There is no memory. Nothing was written.
    OutOfMemory,
    /// The sink failed.
    SinkFault,
}

impl From<OutOfMemory> for ExerciseFault {
    ghost use Rattle.std.specs.Prelude.{◌≡◌};
    ghost use Rattle.ldm_exercise.specs.declared.exercise_command.ExerciseFault.TheVariants as fault;

    ghost from_gives = { λ _ made. made ≡ fault.OutOfMemory };

    fn from(_error: OutOfMemory) -> ExerciseFault {
        ExerciseFault::OutOfMemory
    }
}

// Plays the script, and writes the summary as one piece.
fn run_exercise<K: Sink>(
    alloc: Global,
    number: u64,
    count: u32,
    sink: &mut K,
) -> Result<(), ExerciseFault>
    requires { count ≤ MOST_DRAWN }
    ensures ends { ExerciseEnds result number count (K.tells sink.old) (K.tells sink.new) }
    ensures legal { IfPlayed result (IsLegal arena slots (exercised number count).playing.history) }
    ensures sink_faults_kept { (K.tells sink.old).faults ≤ (K.tells sink.new).faults }
{
    let answers = play_script(alloc, number, count)?;
    let summary = summary_for(number, count, answers);
    match write_all(sink, summary.as_slice()) {
        Ok(()) => Ok(()),
        Err(SinkFailed) => Err(ExerciseFault::SinkFault),
    }
}

/// Draws a script of so many orders from a number, plays it on a new queue with an arena of 1,048,576 bytes and 1,024
/// slots, and writes a summary of three lines: the words, how many answers there are of each kind, and the MD5 of all
/// answer lines. Answers the number that the program ends with, and writes its line to the log.
///
/// Nothing is read. All memory is taken before the first call of the queue, and nothing is written before the last one.
/// The clause `ends` gives each status its cause, and what was written then: see `Exercises`. The clause `law` says
/// that the answers are those of a history that obeys the law of the queue: see `SumsUpLawful`. The clause `completes`
/// says when the summary is written.
pub fn exercise<S, K: Sink, E: Sink>(
    alloc: Global,
    number: u64,
    count: u32,
    streams: &mut Streams<S, K, E>,
) -> u8
    requires { count ≤ MOST_DRAWN }
    ensures ends { (source : S → SourceRecord)
        → Exercises number count result (streams_tells source K.tells E.tells streams.old)
        (streams_tells source K.tells E.tells streams.new) }
    ensures law { (source : S → SourceRecord)
        → ObeysExerciseLaw number count (streams_tells source K.tells E.tells streams.old)
        (streams_tells source K.tells E.tells streams.new) }
    ensures completes { (source : S → SourceRecord)
        → ExerciseCompletes result (streams_tells source K.tells E.tells streams.old)
        (streams_tells source K.tells E.tells streams.new) }
    ensures faults_kept { (source : S → SourceRecord)
        → KeepsFaults (streams_tells source K.tells E.tells streams.old)
        (streams_tells source K.tells E.tells streams.new) }
{
    histories_are_lawful();
    let ending = run_exercise(alloc, number, count, &mut streams.sink);
    status_of(ending).report(&mut streams.log)
}
