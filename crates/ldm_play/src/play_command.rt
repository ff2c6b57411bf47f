//! `ldm play`: a script, played on a queue.
ghost use Rattle.std.specs.Prelude.{◌≡◌, ◌+◌, ◌^◌, ◌<◌, ◌≤◌, ◌++◌, ℕ, List, length, OnOk, Result};
ghost use Rattle.ldm_outside.specs.Io.{SinkRecord};
ghost use Rattle.ldm_status.specs.Streams.{KeepsFaults, streams_tells};
ghost use Rattle.ldm_script.specs.Resolve.{Playing};
ghost use Rattle.ldm_play.specs.Play.{play_line};
ghost use Rattle.ldm_play.specs.PlayerView.{StandsForPlay};
ghost use Rattle.ldm_play.specs.PendingView.{fresh_line};
ghost use Rattle.ldm_play.specs.Ending.{PlayEnds};
ghost use Rattle.ldm_play.specs.OnBook.{PlaysOn, beside};
ghost use Rattle.ldm_play.specs.Step.{GoesOn, LineGives, PieceGives, EndGives, IsFlushed};
ghost use Rattle.ldm_play.specs.Law.{ObeysPlayLaw};
ghost use Rattle.ldm_play.specs.Run.{Plays};
ghost use Rattle.ldm_play.specs.Complete.{Completes};
ghost use Rattle.ldm_play.specs.HandedOn.{LinesHandOn, ScriptHandsOn, EndingHandsOn, HandsOn};

use crate::on_book::play_on;
use crate::pending::Pending;
use crate::player::{LineFault, Player};
use crate::statuses::status_of;
use ldm_book::{Book, CreateFault};
use ldm_model::histories_are_lawful;
use ldm_outside::{Got, Sink, SinkFailed, Source};
use ldm_script::LONGEST_LINE;
use ldm_status::Streams;
use memchr::memchr;
use std::alloc::Global;

/// How many bytes of a script are too many: a play that took so many ends.
pub const SCRIPT_LIMIT: u64 = 1 << 40;

/// How the play of a script ended.
#[derive(Clone, Copy, Debug, PartialEq, Eq)]
pub enum ScriptEnd {
    /// The script was read to its end, and all its lines are answered.
    Done,
    /// As many bytes were taken as are too many.
    StreamLimit,
    /// The source failed.
    SourceFault,
    /// The play stopped at a line.
    Stopped(LineFault),
}

// A line that is longer than a line may be is refused behind the last byte that it may have.
fn too_long(number: u64) -> LineFault
    ensures { result ≡ LineFault.BadLine number (LONGEST_LINE + 1) }
{
    LineFault::BadLine {
        line: number,
        column: LONGEST_LINE as u32 + 1,
    }
}

// Plays the line that ends here: what is pending, and then its end.
fn play_ended<K: Sink>(
    player: &mut Player,
    pending: &mut Pending,
    end: &[u8],
    sink: &mut K,
) -> Result<(), LineFault>
    ensures played { (p : Playing) → StandsForPlay player.old p
        → LineGives result p (play_line pending.old.number p (pending.old.bytes ++ end.now)) player.new
        (K.tells sink.old) (K.tells sink.new) }
    ensures number { pending.new.number ≡ pending.old.number }
    ensures faults_kept { (K.tells sink.old).faults ≤ (K.tells sink.new).faults }
{
    if pending.is_empty() {
        return player.play_line(pending.number(), end, sink);
    }
    if !pending.add(end) {
        return Err(too_long(pending.number()));
    }
    player.play_line(pending.number(), pending.as_slice(), sink)
}

// Plays the line that ends here, and goes on to the next.
fn end_line<K: Sink>(
    player: &mut Player,
    pending: &mut Pending,
    end: &[u8],
    sink: &mut K,
) -> Result<(), LineFault>
    requires { pending.old.number + 1 < 2 ^ 64 }
    ensures played { (p : Playing) → StandsForPlay player.old p
        → LineGives result p (play_line pending.old.number p (pending.old.bytes ++ end.now)) player.new
        (K.tells sink.old) (K.tells sink.new) }
    ensures next { OnOk result (pending.new ≡ fresh_line (pending.old.number + 1)) }
    ensures faults_kept { (K.tells sink.old).faults ≤ (K.tells sink.new).faults }
{
    play_ended(player, pending, end, sink)?;
    pending.next_line();
    Ok(())
}

// Hands on what the sink kept back of the answers, however the lines were played. That it failed comes first.
fn flushed<K: Sink>(played: Result<(), LineFault>, sink: &mut K) -> Result<(), LineFault>
    ensures flushed { IsFlushed result played (K.tells sink.old) (K.tells sink.new) }
    ensures handed_on { LinesHandOn result (K.is_handed_on sink.new) }
    ensures faults_kept { (K.tells sink.old).faults ≤ (K.tells sink.new).faults }
{
    match sink.flush() {
        Ok(()) => played,
        Err(SinkFailed) => Err(LineFault::SinkFault),
    }
}

// Plays the lines that end in a piece of the script, and keeps what is left of it. Their answers are handed on then.
fn play_piece<K: Sink>(
    player: &mut Player,
    pending: &mut Pending,
    piece: &[u8],
    sink: &mut K,
) -> Result<(), LineFault>
    requires { pending.old.number + length piece.now < 2 ^ 64 }
    ensures played { (p : Playing) (script : List ℕ) (before : SinkRecord)
        → GoesOn p script player.old pending.old before (K.tells sink.old) →
        PieceGives result p (script ++ piece.now) player.new pending.new before (K.tells sink.new) }
    ensures number { OnOk result (pending.new.number ≤ pending.old.number + length piece.now) }
    ensures handed_on { LinesHandOn result (K.is_handed_on sink.new) }
    ensures faults_kept { (K.tells sink.old).faults ≤ (K.tells sink.new).faults }
{
    let played = play_lines(player, pending, piece, sink);
    flushed(played, sink)
}

// Plays the lines that end in a piece of the script, and keeps what is left of it.
fn play_lines<K: Sink>(
    player: &mut Player,
    pending: &mut Pending,
    piece: &[u8],
    sink: &mut K,
) -> Result<(), LineFault>
    requires { pending.old.number + length piece.now < 2 ^ 64 }
    ensures played { (p : Playing) (script : List ℕ) (before : SinkRecord)
        → GoesOn p script player.old pending.old before (K.tells sink.old) →
        PieceGives result p (script ++ piece.now) player.new pending.new before (K.tells sink.new) }
    ensures number { OnOk result (pending.new.number ≤ pending.old.number + length piece.now) }
    ensures faults_kept { (K.tells sink.old).faults ≤ (K.tells sink.new).faults }
{
    let mut rest = piece;
    while let Some(at) = memchr(b'\n', rest) {
        end_line(player, pending, &rest[..at], sink)?;
        rest = &rest[at + 1..];
    }
    if !pending.add(rest) {
        return Err(too_long(pending.number()));
    }
    Ok(())
}

// Plays the last line of a script, which no newline ends. Its answer is handed on then.
fn play_last<K: Sink>(player: &mut Player, pending: &Pending, sink: &mut K) -> Result<(), LineFault>
    ensures played { (p : Playing) (script : List ℕ) (before : SinkRecord)
        → GoesOn p script player.old pending.now before (K.tells sink.old) →
        EndGives result p script player.new before (K.tells sink.new) }
    ensures handed_on { LinesHandOn result (K.is_handed_on sink.new) }
    ensures faults_kept { (K.tells sink.old).faults ≤ (K.tells sink.new).faults }
{
    let played = play_rest(player, pending, sink);
    flushed(played, sink)
}

// Plays the last line of a script, which no newline ends.
fn play_rest<K: Sink>(player: &mut Player, pending: &Pending, sink: &mut K) -> Result<(), LineFault>
    ensures played { (p : Playing) (script : List ℕ) (before : SinkRecord)
        → GoesOn p script player.old pending.now before (K.tells sink.old) →
        EndGives result p script player.new before (K.tells sink.new) }
    ensures faults_kept { (K.tells sink.old).faults ≤ (K.tells sink.new).faults }
{
    if pending.is_empty() {
        return Ok(());
    }
    player.play_line(pending.number(), pending.as_slice(), sink)
}

// Plays a script. The sink gathers its answers, which are handed on before more of the script is read: so that who
// writes a line sees its answer, and many lines that come at once take few calls of the system.
pub(crate) fn play_script<S: Source, K: Sink>(
    player: &mut Player,
    pending: &mut Pending,
    piece: &mut [u8],
    source: &mut S,
    sink: &mut K,
) -> ScriptEnd
    requires room { 0 < length piece.old }
    requires fresh { pending.old ≡ fresh_line 1 }
    ensures plays { (p : Playing) (log_before log_after : SinkRecord) → StandsForPlay player.old p →
        PlaysOn result p player.new.book (beside log_before (S.tells source.old) (K.tells sink.old))
        (beside log_after (S.tells source.new) (K.tells sink.new)) }
    ensures handed_on { ScriptHandsOn result (K.is_handed_on sink.new) }
    ensures source_faults_kept { (S.tells source.old).faults ≤ (S.tells source.new).faults }
    ensures sink_faults_kept { (K.tells sink.old).faults ≤ (K.tells sink.new).faults }
{
    sink.gather();
    // what it keeps back from before
    if let Err(stop) = flushed(Ok(()), sink) {
        return ScriptEnd::Stopped(stop);
    }
    play_pieces(player, pending, piece, source, sink)
}

// Reads the script piece by piece, up to its end or its limit, and plays its lines.
fn play_pieces<S: Source, K: Sink>(
    player: &mut Player,
    pending: &mut Pending,
    piece: &mut [u8],
    source: &mut S,
    sink: &mut K,
) -> ScriptEnd
    requires room { 0 < length piece.old }
    requires fresh { pending.old ≡ fresh_line 1 }
    requires handed_on { K.is_handed_on sink.old }
    ensures plays { (p : Playing) (log_before log_after : SinkRecord) → StandsForPlay player.old p →
        PlaysOn result p player.new.book (beside log_before (S.tells source.old) (K.tells sink.old))
        (beside log_after (S.tells source.new) (K.tells sink.new)) }
    ensures handed_on { ScriptHandsOn result (K.is_handed_on sink.new) }
    ensures source_faults_kept { (S.tells source.old).faults ≤ (S.tells source.new).faults }
    ensures sink_faults_kept { (K.tells sink.old).faults ≤ (K.tells sink.new).faults }
{
    let mut taken = 0u64;
    while taken < SCRIPT_LIMIT {
        let room = piece.len().min((SCRIPT_LIMIT - taken) as usize);
        let buffer = &mut piece[..room];
        match source.read(buffer) {
            Got::Bytes(n) => {
                taken += n as u64;
                if let Err(stop) = play_piece(player, pending, &buffer[..n], sink) {
                    return ScriptEnd::Stopped(stop);
                }
            }
            Got::End => {
                return match play_last(player, pending, sink) {
                    Ok(()) => ScriptEnd::Done,
                    Err(stop) => ScriptEnd::Stopped(stop),
                };
            }
            Got::Failed => return ScriptEnd::SourceFault,
        }
    }
    ScriptEnd::StreamLimit
}

// Makes the queue, and plays the script on it.
fn play_new<S: Source, K: Sink>(
    alloc: Global,
    arena: u64,
    slots: u32,
    source: &mut S,
    sink: &mut K,
) -> Result<ScriptEnd, CreateFault>
    ensures ends { (log_before log_after : SinkRecord) →
        PlayEnds result (record { arena = arena; slots = slots })
        (beside log_before (S.tells source.old) (K.tells sink.old))
        (beside log_after (S.tells source.new) (K.tells sink.new)) }
    ensures handed_on { EndingHandsOn result (K.is_handed_on sink.new) (sink.new ≡ sink.old) }
    ensures source_faults_kept { (S.tells source.old).faults ≤ (S.tells source.new).faults }
    ensures sink_faults_kept { (K.tells sink.old).faults ≤ (K.tells sink.new).faults }
{
    let book = Book::create(alloc, arena, slots)?;
    let played = play_on(alloc, book, source, sink)?;
    Ok(played.end)
}

/// Plays a script on a new queue with an arena of so many bytes and so many slots: reads the source to its end, and
/// answers each line that asks for something with one line on the sink, before the next line is looked at. Answers
/// the number that the program ends with, and writes its line to the log.
///
/// All memory is taken before the first read. The clause `ends` gives each status its cause, and what was read and
/// written then: see `Plays`. The clause `law` says that the answers are those of a history that obeys the law of the
/// queue: see `WritesLawful`. The clause `completes` says when a play comes to its end: see `Unhindered`. The clause
/// `handed_on` says that a play whose sink did not fail hands on what the sink kept back: see `HandsOn`.
pub fn play<S: Source, K: Sink, E: Sink>(
    alloc: Global,
    arena: u64,
    slots: u32,
    streams: &mut Streams<S, K, E>,
) -> u8
    ensures ends { Plays (record { arena = arena; slots = slots }) result
        (streams_tells S.tells K.tells E.tells streams.old) (streams_tells S.tells K.tells E.tells streams.new) }
    ensures law { ObeysPlayLaw (record { arena = arena; slots = slots })
        (streams_tells S.tells K.tells E.tells streams.old) (streams_tells S.tells K.tells E.tells streams.new) }
    ensures completes { Completes (record { arena = arena; slots = slots }) result
        (streams_tells S.tells K.tells E.tells streams.old) (streams_tells S.tells K.tells E.tells streams.new) }
    ensures handed_on { HandsOn result
        (streams_tells S.tells K.tells E.tells streams.old) (streams_tells S.tells K.tells E.tells streams.new)
        (K.is_handed_on streams.new.sink) (streams.new.sink ≡ streams.old.sink) }
    ensures faults_kept { KeepsFaults (streams_tells S.tells K.tells E.tells streams.old)
        (streams_tells S.tells K.tells E.tells streams.new) }
{
    histories_are_lawful();
    let ending = play_new(alloc, arena, slots, &mut streams.source, &mut streams.sink);
    status_of(ending).report(&mut streams.log)
}
