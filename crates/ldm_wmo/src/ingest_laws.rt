//! What is told of a run, by the definitions alone. These functions do nothing: their contracts are the laws.
ghost use Rattle.std.specs.Prelude.{◌≡◌, ℕ, List, [], ◌++◌, Result};
ghost use Rattle.ldm_outside.specs.Io.{Gives};
ghost use Rattle.ldm_wmo.specs.declared.framing.Framing.{Framing};
ghost use Rattle.ldm_wmo.specs.declared.kind.Kind.{Kind};
ghost use Rattle.ldm_wmo.specs.Items.{Found};
ghost use Rattle.ldm_wmo.specs.Spelling.{IsBulletin, heading_spelling};
ghost use Rattle.ldm_wmo.specs.Streams.{items_of};
ghost use Rattle.ldm_wmo.specs.declared.ingest_fault.IngestFault.{IngestFault};
ghost use Rattle.ldm_wmo.specs.declared.outcome.Outcome.{Outcome};
ghost use Rattle.ldm_wmo.specs.Ingesting.{Ingesting, from_heading};
ghost use Rattle.ldm_wmo.specs.Ingests.{IngestEnds};
ghost use Rattle.ldm_wmo.specs.Moments.{IngestMoment, Outside, Span};
ghost use Rattle.ldm_wmo.specs.Outcomes.{Step};
ghost use Rattle.ldm_wmo.specs.Runs.{AreTurns, Turn, bytes_of, items_behind, steps_of};
ghost use Rattle.ldm_wmo.specs.IngestTaking.{AreTaken};
ghost use Rattle.ldm_wmo.specs.Told.{Cause, Told};

/// What is told of the bulletins of a run, and of its end.
pub fn what_is_told_of_bulletins()
    // However the source is cut into pieces: over all items of the bytes that it gave.
    ensures turns { (all : Ingesting) (turns : List Turn) (old new : Span) → AreTurns all [] turns old new
        → Gives old.source (bytes_of turns) new.source
        × Told all (items_of all.framing (bytes_of turns)) (steps_of turns) old.moment new.moment }
    // Over items that were taken of a piece, before one at which the run ended.
    ensures items { (all : Ingesting) (items : List Found) (steps : List Step) (old new : IngestMoment)
        → AreTaken all items steps old new → Told all items steps old new }
    // The items of a piece come behind those of the bytes before it.
    ensures behind { (framing : Framing) (seen piece : List ℕ)
        → items_of framing (seen ++ piece) ≡ items_of framing seen ++ items_behind framing seen piece }
    // Which count rose.
    ensures causes { (ending : Result Outcome IngestFault) (all : Ingesting) (old new : Outside)
        → IngestEnds ending all old new → Cause ending old new }
{}

/// What is signed of a bulletin: all its bytes from its heading on.
pub fn what_is_signed()
    ensures signed { (kind : Kind) (bytes : List ℕ) (seqno : ℕ) (heading : List ℕ)
        (is : IsBulletin kind bytes seqno heading)
        → from_heading bytes ≡ heading_spelling is.parts }
{}
