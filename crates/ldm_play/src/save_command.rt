//! `ldm save`: a script, played on a new queue, which is kept in a file.
ghost use Rattle.std.specs.Prelude.{◌≡◌, ◌≤◌};
ghost use Rattle.ldm_outside.specs.Io.{SinkRecord};
ghost use Rattle.ldm_status.specs.Streams.{streams_tells};
ghost use Rattle.ldm_play.specs.Law.{ObeysPlayLaw};
ghost use Rattle.ldm_play.specs.OnBook.{beside};
ghost use Rattle.ldm_play.specs.SavingComplete.{SaveCompletes};
ghost use Rattle.ldm_play.specs.Outside.{KeepsAllFaults, outside_tells};
ghost use Rattle.ldm_play.specs.Runs.{SaveRuns};
ghost use Rattle.ldm_play.specs.Save.{SaveEnds};
ghost use Rattle.ldm_play.specs.Steps.{SaveComes};

use crate::files::save_file;
use crate::saving_statuses::status_of_save;
use crate::{ScriptEnd, play_on};
use ldm_book::{Book, CreateFault};
use ldm_disk::Disk;
use ldm_image::SaveEnd;
use ldm_outside::{Sink, Source};
use ldm_status::Streams;
use std::alloc::Global;

/// How the play of a script ended whose queue is to be kept in a file.
#[derive(Clone, Copy, Debug, PartialEq, Eq)]
pub enum KeptPlay {
    /// The script was not played to its end, for this reason, and nothing was saved.
    Stopped(ScriptEnd),
    /// It was, and saving the queue ended so.
    Played(SaveEnd),
}

// Makes the queue, plays the script, and saves where that came to its end.
fn save_new<S: Source, K: Sink, D: Disk>(
    alloc: Global,
    path: &str,
    arena: u64,
    slots: u32,
    source: &mut S,
    sink: &mut K,
    disk: &mut D,
) -> Result<KeptPlay, CreateFault>
    ensures ends { (log_before log_after : SinkRecord) →
        SaveEnds result (record { arena = arena; slots = slots })
        (outside_tells (beside log_before (S.tells source.old) (K.tells sink.old)) (D.tells disk.old))
        (outside_tells (beside log_after (S.tells source.new) (K.tells sink.new)) (D.tells disk.new)) }
    ensures law { (log_before log_after : SinkRecord) → ObeysPlayLaw (record { arena = arena; slots = slots })
        (beside log_before (S.tells source.old) (K.tells sink.old))
        (beside log_after (S.tells source.new) (K.tells sink.new)) }
    ensures comes { (log_before log_after : SinkRecord) → SaveComes result (record { arena = arena; slots = slots })
        (beside log_before (S.tells source.old) (K.tells sink.old))
        (beside log_after (S.tells source.new) (K.tells sink.new)) }
    ensures source_faults_kept { (S.tells source.old).faults ≤ (S.tells source.new).faults }
    ensures sink_faults_kept { (K.tells sink.old).faults ≤ (K.tells sink.new).faults }
    ensures disk_faults_kept { (D.tells disk.old).faults ≤ (D.tells disk.new).faults }
{
    let book = Book::create(alloc, arena, slots)?;
    let played = play_on(alloc, book, source, sink)?;
    Ok(match played.end {
        ScriptEnd::Done => KeptPlay::Played(save_file(alloc, &played.book, path, disk)),
        end => KeptPlay::Stopped(end),
    })
}

/// Plays a script on a new queue, as [`play`](crate::play) does, and where that comes to its end saves the queue in
/// the file under the path. At any other end no file is attached. Answers the number that the program ends with, and
/// writes its line to the log.
///
/// The clause `ends` gives each status its cause, and what was read, written and saved then, and what a crash at any
/// moment leaves of the file: see `SaveRuns`. The clause `law` says that the answers are those of a history that obeys
/// the law of the queue. The clause `completes` says when all is played and saved.
pub fn save<S: Source, K: Sink, E: Sink, D: Disk>(
    alloc: Global,
    path: &str,
    arena: u64,
    slots: u32,
    streams: &mut Streams<S, K, E>,
    disk: &mut D,
) -> u8
    ensures ends { SaveRuns (record { arena = arena; slots = slots }) result
        (outside_tells (streams_tells S.tells K.tells E.tells streams.old) (D.tells disk.old))
        (outside_tells (streams_tells S.tells K.tells E.tells streams.new) (D.tells disk.new)) }
    ensures law { ObeysPlayLaw (record { arena = arena; slots = slots })
        (streams_tells S.tells K.tells E.tells streams.old) (streams_tells S.tells K.tells E.tells streams.new) }
    ensures completes { SaveCompletes (record { arena = arena; slots = slots }) result
        (outside_tells (streams_tells S.tells K.tells E.tells streams.old) (D.tells disk.old))
        (outside_tells (streams_tells S.tells K.tells E.tells streams.new) (D.tells disk.new)) }
    ensures faults_kept { KeepsAllFaults
        (outside_tells (streams_tells S.tells K.tells E.tells streams.old) (D.tells disk.old))
        (outside_tells (streams_tells S.tells K.tells E.tells streams.new) (D.tells disk.new)) }
{
    let ending = save_new(
        alloc,
        path,
        arena,
        slots,
        &mut streams.source,
        &mut streams.sink,
        disk,
    );
    status_of_save(ending).report(&mut streams.log)
}
