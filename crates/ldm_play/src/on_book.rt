//! A script, played on a queue that there is already.
ghost use Rattle.std.specs.Prelude.{◌≡◌, ◌≤◌, ℕ, List, IfOk, OnOk, OnErr};
ghost use Rattle.ldm_model.specs.declared.event.Entry.{Entry};
ghost use Rattle.ldm_model.specs.State.{State};
ghost use Rattle.ldm_model.specs.History.{IsLegal, after};
ghost use Rattle.ldm_outside.specs.Io.{SinkRecord};
ghost use Rattle.ldm_book.specs.Stands.{StandsFor};
ghost use Rattle.ldm_play.specs.declared.play_command.ScriptEnd.TheVariants as script_end;
ghost use Rattle.ldm_play.specs.Law.{WritesLawfulFrom};
ghost use Rattle.ldm_play.specs.HandedOn.{ScriptHandsOn};
ghost use Rattle.ldm_play.specs.OnBook.{RunsFreely, PlaysOn, play_from, beside};

use crate::pending::Pending;
use crate::play_command::{ScriptEnd, play_script};
use crate::player::Player;
use ldm_book::Book;
use ldm_model::histories_are_lawful;
use ldm_outside::{Sink, Source};
use ldm_status::PIECE;
use ldm_types::OutOfMemory;
use std::alloc::Global;

/// A queue that a script was played on, and how that ended.
#[derive(Drop)]
pub struct PlayedBook {
    /// The queue as the lines left it, with the cursors and reservations that they left open.
    pub book: Book,
    /// How the play ended.
    pub end: ScriptEnd,
}

/// Plays a script on a queue: reads the source to its end, and answers each line that asks for something with one line
/// on the sink, before the next line is looked at. Hands out the queue, or where there is no memory nothing.
///
/// All memory is taken before the first read. The clause `plays` says how it ends, whatever state the queue is in: see
/// `PlaysOn`. The clause `law` says that the calls of the lines go on with any legal history that led to that state,
/// and obey the law of the queue. The clause `completes` says when the script is played to its end, and `handed_on`
/// that the sink keeps nothing back where it did not fail.
pub fn play_on<S: Source, K: Sink>(
    alloc: Global,
    book: Book,
    source: &mut S,
    sink: &mut K,
) -> Result<PlayedBook, OutOfMemory>
    ensures plays { (s : State) (history : List Entry) (log_before log_after : SinkRecord) → StandsFor book s →
        IfOk result (λ played. PlaysOn played.end (play_from s history) played.book
        (beside log_before (S.tells source.old) (K.tells sink.old))
        (beside log_after (S.tells source.new) (K.tells sink.new))) }
    ensures law { (arena slots : ℕ) (history : List Entry) (log_before log_after : SinkRecord) →
        IsLegal arena slots history → StandsFor book (after arena slots history) →
        OnOk result (WritesLawfulFrom (record { arena = arena; slots = slots })
        (play_from (after arena slots history) history)
        (beside log_before (S.tells source.old) (K.tells sink.old))
        (beside log_after (S.tells source.new) (K.tells sink.new))) }
    ensures completes { (s : State) (history : List Entry) (log_before log_after : SinkRecord) → StandsFor book s →
        RunsFreely (play_from s history) (beside log_before (S.tells source.old) (K.tells sink.old))
        (beside log_after (S.tells source.new) (K.tells sink.new)) →
        IfOk result (λ played. played.end ≡ script_end.Done) }
    ensures nothing_read { OnErr result (S.tells source.new ≡ S.tells source.old) }
    ensures nothing_written { OnErr result (K.tells sink.new ≡ K.tells sink.old) }
    ensures handed_on { IfOk result (λ played. ScriptHandsOn played.end (K.is_handed_on sink.new)) }
    ensures untouched { OnErr result (sink.new ≡ sink.old) }
    ensures source_faults_kept { (S.tells source.old).faults ≤ (S.tells source.new).faults }
    ensures sink_faults_kept { (K.tells sink.old).faults ≤ (K.tells sink.new).faults }
{
    histories_are_lawful();
    let mut player = Player::new(alloc, book)?;
    let mut pending = Pending::new(alloc)?;
    let mut piece = vec![in alloc; 0u8; PIECE]?;
    let end = play_script(&mut player, &mut pending, &mut piece, source, sink);
    Ok(PlayedBook {
        book: player.into_book(),
        end,
    })
}
