//! `ldm resume`: a script, played on the queue of a file, which is kept there again.
ghost use Rattle.std.specs.Prelude.{◌≡◌, ◌≤◌};
ghost use Rattle.ldm_outside.specs.Io.{SinkRecord};
ghost use Rattle.ldm_status.specs.Streams.{streams_tells};
ghost use Rattle.ldm_play.specs.OnBook.{beside};
ghost use Rattle.ldm_play.specs.SavingComplete.{ResumeCompletes};
ghost use Rattle.ldm_play.specs.SavingLaw.{ObeysResumeLaw};
ghost use Rattle.ldm_play.specs.Outside.{KeepsAllFaults, outside_tells};
ghost use Rattle.ldm_play.specs.Resume.{ResumeEnds};
ghost use Rattle.ldm_play.specs.Runs.{ResumeRuns};
ghost use Rattle.ldm_play.specs.Steps.{ResumeComes};

use crate::files::open_file;
use crate::save_command::KeptPlay;
use crate::saving_statuses::status_of_resume;
use crate::{ScriptEnd, play_on};
use ldm_disk::Disk;
use ldm_image::{ImageFault, save_image};
use ldm_outside::{Sink, Source};
use ldm_status::Streams;
use std::alloc::Global;

// Opens the queue, plays the script on it, and saves where that came to its end.
fn resume_file<S: Source, K: Sink, D: Disk>(
    alloc: Global,
    path: &str,
    source: &mut S,
    sink: &mut K,
    disk: &mut D,
) -> Result<KeptPlay, ImageFault>
    ensures ends { (log_before log_after : SinkRecord) → ResumeEnds result
        (outside_tells (beside log_before (S.tells source.old) (K.tells sink.old)) (D.tells disk.old))
        (outside_tells (beside log_after (S.tells source.new) (K.tells sink.new)) (D.tells disk.new)) }
    ensures law { (log_before log_after : SinkRecord) → ObeysResumeLaw
        (outside_tells (beside log_before (S.tells source.old) (K.tells sink.old)) (D.tells disk.old))
        (outside_tells (beside log_after (S.tells source.new) (K.tells sink.new)) (D.tells disk.new)) }
    ensures comes { (log_before log_after : SinkRecord) → ResumeComes result
        (outside_tells (beside log_before (S.tells source.old) (K.tells sink.old)) (D.tells disk.old))
        (outside_tells (beside log_after (S.tells source.new) (K.tells sink.new)) (D.tells disk.new)) }
    ensures source_faults_kept { (S.tells source.old).faults ≤ (S.tells source.new).faults }
    ensures sink_faults_kept { (K.tells sink.old).faults ≤ (K.tells sink.new).faults }
    ensures disk_faults_kept { (D.tells disk.old).faults ≤ (D.tells disk.new).faults }
{
    let book = open_file(alloc, path, disk)?;
    let Ok(played) = play_on(alloc, book, source, sink) else {
        return Err(ImageFault::OutOfMemory);
    };
    Ok(match played.end {
        ScriptEnd::Done => KeptPlay::Played(save_image(alloc, &played.book, disk)),
        end => KeptPlay::Stopped(end),
    })
}

/// Plays a script on the queue that is kept in the file under the path, of which no cursor and no reservation is open,
/// and where that comes to its end saves the queue there again. Answers the number that the program ends with, and
/// writes its line to the log.
///
/// The file is opened, and all memory for the play taken, before the first read of the source. The clause `ends` gives
/// each status its cause, and what was read, written and saved then, and what a crash at any moment leaves of the file:
/// see `ResumeRuns`. The clause `law` says that the play goes on with any legal history that led to the queue, and
/// obeys the law of the queue. The clause `completes` says when all is played and saved.
pub fn resume<S: Source, K: Sink, E: Sink, D: Disk>(
    alloc: Global,
    path: &str,
    streams: &mut Streams<S, K, E>,
    disk: &mut D,
) -> u8
    ensures ends { ResumeRuns result
        (outside_tells (streams_tells S.tells K.tells E.tells streams.old) (D.tells disk.old))
        (outside_tells (streams_tells S.tells K.tells E.tells streams.new) (D.tells disk.new)) }
    ensures law { ObeysResumeLaw
        (outside_tells (streams_tells S.tells K.tells E.tells streams.old) (D.tells disk.old))
        (outside_tells (streams_tells S.tells K.tells E.tells streams.new) (D.tells disk.new)) }
    ensures completes { ResumeCompletes result
        (outside_tells (streams_tells S.tells K.tells E.tells streams.old) (D.tells disk.old))
        (outside_tells (streams_tells S.tells K.tells E.tells streams.new) (D.tells disk.new)) }
    ensures faults_kept { KeepsAllFaults
        (outside_tells (streams_tells S.tells K.tells E.tells streams.old) (D.tells disk.old))
        (outside_tells (streams_tells S.tells K.tells E.tells streams.new) (D.tells disk.new)) }
{
    let ending = resume_file(alloc, path, &mut streams.source, &mut streams.sink, disk);
    status_of_resume(ending).report(&mut streams.log)
}
