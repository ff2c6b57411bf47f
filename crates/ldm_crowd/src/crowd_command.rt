//! `ldm crowd`: a script, played by as many workers as actors.
ghost use Rattle.std.specs.Prelude.{◌≡◌, ◌≤◌, ◌++◌, length, map, IfOk, IfErr};
ghost use Rattle.std.specs.List.{concat, range_with_len};
ghost use Rattle.ldm_outside.specs.Io.{SinkRecord, WritesAll};
ghost use Rattle.ldm_status.specs.Streams.{StreamsRecord, KeepsFaults, streams_tells};
ghost use Rattle.ldm_model.specs.State.{State};
ghost use Rattle.ldm_model.specs.Stat.{stat as stat_of};
ghost use Rattle.ldm_book.specs.Stands.{StandsFor};
ghost use Rattle.ldm_shared.specs.Passes.{new_pass};
ghost use Rattle.ldm_shared.specs.Limits.{IsGoodPasses};
ghost use Rattle.ldm_answers.specs.Answer.{answer_line};
ghost use Rattle.ldm_status.specs.declared.whole_script.TheConstants.{LONGEST_SCRIPT};
ghost use Rattle.ldm_crowd.specs.CrowdEnding.{CrowdEnds, IsUnplayed};
ghost use Rattle.ldm_crowd.specs.CrowdStep.{HasPlayed};
ghost use Rattle.ldm_crowd.specs.Run.{CrowdRuns};
ghost use Rattle.ldm_crowd.specs.Law.{ObeysCrowdLaw};
ghost use Rattle.ldm_crowd.specs.Complete.{CrowdCompletes};

use crate::orders::{Orders, OrdersFault};
use crate::outcome::{Crowd, CrowdEnd};
use crate::run::play_crowd;
use crate::statuses::status_of;
use ldm_answers::{Answer, Text, write_answer};
use ldm_book::Book;
use ldm_model::histories_are_lawful;
use ldm_outside::{OpenGate, Sink, SinkFailed, Source, write_all};
use ldm_shared::{CreateFault, Pass, Shared};
use ldm_status::{ScriptFault, Streams, take_script};
use ldm_types::Actor;
use std::alloc::{AllocError, Global};
use std::sync::Wait;
use std::thread::Threads;

/// Why a script that was taken whole was not played to its end.
#[derive(Clone, Copy, Debug, PartialEq, Eq)]
pub enum PlayFault {
    /// The first line that is outside the grammar: its number, from 1, and the column of its first fault.
    BadLine { line: u32, column: u32 },
    /// There is no memory.
    OutOfMemory,
}

/// Why a crowd stopped before all answers were written.
#[derive(Clone, Copy, Debug, PartialEq, Eq)]
pub enum CrowdFault {
    /// No queue was made.
    NotMade(CreateFault),
    /// The script was not taken whole.
    ScriptFault(ScriptFault),
    /// The script was not played to its end.
    PlayFault(PlayFault),
    /// The sink failed.
    SinkFault,
}

impl From<OrdersFault> for PlayFault {
    ghost use Rattle.std.specs.Prelude.{◌≡◌};
    ghost use Rattle.ldm_crowd.specs.CrowdEnding.{unplayed_of};

    ghost from_gives = { λ fault why. why ≡ unplayed_of fault };

    fn from(fault: OrdersFault) -> PlayFault {
        match fault {
            OrdersFault::BadLine { line, column } => PlayFault::BadLine { line, column },
            OrdersFault::OutOfMemory => PlayFault::OutOfMemory,
        }
    }
}

impl From<AllocError> for PlayFault {
    ghost use Rattle.std.specs.Prelude.{◌≡◌};
    ghost use Rattle.ldm_crowd.specs.declared.crowd_command.PlayFault.TheVariants as unplayed;

    ghost from_gives = { λ _ why. why ≡ unplayed.OutOfMemory };

    fn from(_error: AllocError) -> PlayFault {
        PlayFault::OutOfMemory
    }
}

impl From<CreateFault> for CrowdFault {
    ghost use Rattle.std.specs.Prelude.{◌≡◌};
    ghost use Rattle.ldm_crowd.specs.declared.crowd_command.CrowdFault.TheVariants as stop;

    ghost from_gives = { λ fault made. made ≡ stop.NotMade fault };

    fn from(fault: CreateFault) -> CrowdFault {
        CrowdFault::NotMade(fault)
    }
}

impl From<ScriptFault> for CrowdFault {
    ghost use Rattle.std.specs.Prelude.{◌≡◌};
    ghost use Rattle.ldm_crowd.specs.declared.crowd_command.CrowdFault.TheVariants as stop;

    ghost from_gives = { λ why made. made ≡ stop.ScriptFault why };

    fn from(why: ScriptFault) -> CrowdFault {
        CrowdFault::ScriptFault(why)
    }
}

impl From<PlayFault> for CrowdFault {
    ghost use Rattle.std.specs.Prelude.{◌≡◌};
    ghost use Rattle.ldm_crowd.specs.declared.crowd_command.CrowdFault.TheVariants as stop;

    ghost from_gives = { λ why made. made ≡ stop.PlayFault why };

    fn from(why: PlayFault) -> CrowdFault {
        CrowdFault::PlayFault(why)
    }
}

impl From<SinkFailed> for CrowdFault {
    ghost use Rattle.std.specs.Prelude.{◌≡◌};
    ghost use Rattle.ldm_crowd.specs.declared.crowd_command.CrowdFault.TheVariants as stop;

    ghost from_gives = { λ _ made. made ≡ stop.SinkFault };

    fn from(_failed: SinkFailed) -> CrowdFault {
        CrowdFault::SinkFault
    }
}

// Plays a script: all lines of each actor, on a worker of its own.
fn play_text<H: Threads + Wait + Sync>(
    rt: &H,
    alloc: Global,
    shared: Shared,
    passes: Vec<Pass>,
    workers: u32,
    text: &[u8],
) -> Result<Crowd<OpenGate>, PlayFault>
    requires text { length text.now ≤ LONGEST_SCRIPT }
    requires workers { workers ≡ shared.passes }
    requires good { IsGoodPasses workers }
    requires passes { passes.items ≡ map (new_pass shared) (range_with_len 0 workers) }
    ensures played { IfOk result
        (λ crowd. HasPlayed (record { arena = shared.arena; slots = shared.slots; workers = workers })
        text.now crowd.pass.seen crowd.book (map (λ text. text.items) crowd.answers.items)) }
    ensures unplayed { IfErr result
        (λ why. IsUnplayed why (record { arena = shared.arena; slots = shared.slots; workers = workers }) text.now) }
{
    let orders = Orders::read(alloc, text, workers)?;
    histories_are_lawful();
    let gates = vec![in alloc; OpenGate; workers as usize]?;
    let crowd = play_crowd(rt, alloc, &orders, shared, passes, gates);
    match crowd.end {
        CrowdEnd::Done => Ok(crowd),
        CrowdEnd::OutOfMemory => Err(PlayFault::OutOfMemory),
        // a script has fewer lines than a queue can have calls
        CrowdEnd::Worn => unreachable!(),
        // an open gate never stops
        CrowdEnd::Stopped => unreachable!(),
    }
}

// Writes texts, one behind another.
fn write_texts<K: Sink>(texts: &[Vec<u8>], sink: &mut K) -> Result<(), SinkFailed>
    ensures written { WritesAll result (concat (map (λ text. text.items) texts.now)) (K.tells sink.old)
        (K.tells sink.new) }
    ensures faults_kept { (K.tells sink.old).faults ≤ (K.tells sink.new).faults }
{
    for text in texts {
        write_all(sink, text.as_slice())?;
    }
    Ok(())
}

// Writes how full the queue is, as an answer line.
fn write_stat<K: Sink>(book: &mut Book, sink: &mut K) -> Result<(), SinkFailed>
    ensures written { (s : State) → StandsFor book.old s
        → WritesAll result (answer_line (stat_of s).reply) (K.tells sink.old) (K.tells sink.new) }
    ensures faults_kept { (K.tells sink.old).faults ≤ (K.tells sink.new).faults }
{
    let Some(actor) = Actor::new(0) else {
        unreachable!()
    };
    let mut line = Text::new();
    write_answer(&Answer::from(book.stat(actor)), &mut line);
    write_all(sink, line.as_slice())
}

// Writes what the actors were answered, actor by actor, and last how full the queue is.
fn write_answers<K: Sink>(
    answers: &[Vec<u8>],
    book: &mut Book,
    sink: &mut K,
) -> Result<(), SinkFailed>
    ensures written { (s : State) → StandsFor book.old s
        → WritesAll result (concat (map (λ text. text.items) answers.now) ++ answer_line (stat_of s).reply)
        (K.tells sink.old) (K.tells sink.new) }
    ensures faults_kept { (K.tells sink.old).faults ≤ (K.tells sink.new).faults }
{
    write_texts(answers, sink)?;
    write_stat(book, sink)
}

// Makes the queue, takes the script whole, plays it, and writes the answers.
fn run_crowd<H: Threads + Wait + Sync, S: Source, K: Sink>(
    rt: &H,
    alloc: Global,
    arena: u64,
    slots: u32,
    workers: u32,
    source: &mut S,
    sink: &mut K,
) -> Result<(), CrowdFault>
    ensures ends { (log_before log_after : SinkRecord) →
        let old : StreamsRecord = record { source = S.tells source.old; sink = K.tells sink.old; log = log_before } in
        let new : StreamsRecord = record { source = S.tells source.new; sink = K.tells sink.new; log = log_after } in
        CrowdEnds result (record { arena = arena; slots = slots; workers = workers }) old new }
    ensures source_faults_kept { (S.tells source.old).faults ≤ (S.tells source.new).faults }
    ensures sink_faults_kept { (K.tells sink.old).faults ≤ (K.tells sink.new).faults }
{
    let (shared, passes) = Shared::create(alloc, arena, slots, workers)?;
    let text = take_script(alloc, source)?;
    let mut crowd = play_text(rt, alloc, shared, passes, workers, text.as_slice())?;
    write_answers(crowd.answers.as_slice(), &mut crowd.book, sink)?;
    Ok(())
}

/// Plays a script on a new queue with an arena of so many bytes and so many slots, which as many workers share: each
/// actor's lines in order, by a worker of its own. All answers are written at the end, actor by actor, and last the
/// answer to a `stat`. Answers the number that the program ends with, and writes its line to the log.
///
/// The script is taken whole before any line of it is looked at. Where no thread can be made, the workers run one after
/// another. The clause `ends` gives each status its cause, and what was read and written then: see `CrowdRuns`. The
/// clause `law` says that the answers are those of a history that obeys the law of the queue, or for what cause there
/// are none: see `ObeysCrowdLaw`. The clause `completes` says when all is written: see `CrowdUnhindered`.
pub fn crowd<H: Threads + Wait + Sync, S: Source, K: Sink, E: Sink>(
    rt: &H,
    alloc: Global,
    arena: u64,
    slots: u32,
    workers: u32,
    streams: &mut Streams<S, K, E>,
) -> u8
    ensures ends { CrowdRuns (record { arena = arena; slots = slots; workers = workers }) result
        (streams_tells S.tells K.tells E.tells streams.old) (streams_tells S.tells K.tells E.tells streams.new) }
    ensures law { ObeysCrowdLaw (record { arena = arena; slots = slots; workers = workers }) result
        (streams_tells S.tells K.tells E.tells streams.old) (streams_tells S.tells K.tells E.tells streams.new) }
    ensures completes { CrowdCompletes (record { arena = arena; slots = slots; workers = workers }) result
        (streams_tells S.tells K.tells E.tells streams.old) (streams_tells S.tells K.tells E.tells streams.new) }
    ensures faults_kept { KeepsFaults (streams_tells S.tells K.tells E.tells streams.old)
        (streams_tells S.tells K.tells E.tells streams.new) }
{
    let ending = run_crowd(
        rt,
        alloc,
        arena,
        slots,
        workers,
        &mut streams.source,
        &mut streams.sink,
    );
    status_of(ending).report(&mut streams.log)
}
