//! What the turns of a recorder amount to. These functions do nothing: their contracts are the laws.
ghost use Rattle.std.specs.Prelude.{◌≡◌, ◌++◌, ◌∷◌, [], ◌<◌, ◌≢◌, ◌^◌, ℕ, List, All, Option, drop, filter, length, map};
ghost use Rattle.ldm_model.specs.State.{State, end_of, queued};
ghost use Rattle.ldm_journal.specs.Records.{Kept};
ghost use Rattle.ldm_journal.specs.Runs.{Content, after_events, opened};
ghost use Rattle.ldm_recorder.specs.declared.line.Line.{Line};
ghost use Rattle.ldm_recorder.specs.declared.line.TheConstants.{MOST_LINES};
ghost use Rattle.ldm_recorder.specs.Lines.{last_in, note_of};
ghost use Rattle.ldm_recorder.specs.Told.{has_room, noted_in, recorded_in};
ghost use Rattle.ldm_recorder.specs.Finishing.{is_from, kept_queued, turns_left};
ghost use Rattle.ldm_recorder.specs.Turns.{CaughtUp, Turn, Who, work_of};

/// Whenever the gate is asked, all that was given before is committed.
pub fn all_is_committed_where_the_gate_is_asked()
    ensures { (who : Who) (turns : List Turn) (at : ℕ) (lasts : Option (List ℕ)) (start : Content)
        → (after_events start ((work_of who (turns ++ CaughtUp at lasts ∷ [])).events start)).appended ≡ [] }
{}

/// What the journal stands for then is what it stood for and the products that the reader was given, in order, each
/// once, but for some at the front.
pub fn what_was_given_stands()
    ensures { (who : Who) (turns : List Turn) (first : List Kept) (note : List ℕ)
        → let end = after_events (opened first note) ((work_of who turns).events (opened first note)) in
        (dropped : ℕ) × (end.kept ++ end.appended ≡ drop dropped (first ++ recorded_in who.ring turns)) }
{}

/// What [`Recorder::finish`](crate::Recorder::finish) makes up for is each product that is queued, of that number or
/// later, in order, each once, but for those that are larger than the ring.
pub fn what_is_left_is_recorded()
    ensures { (ring base from : ℕ) (lasts : Option (List ℕ)) (s : State)
        → recorded_in ring (turns_left base (end_of s) from (queued s) ++ CaughtUp (end_of s) lasts ∷ [])
        ≡ filter (has_room ring) (map (kept_queued base) (filter (is_from from) (queued s))) }
{}

/// The note that is committed then is that of the lines with the numbers of the last turn that told any; where none
/// did, it is the one that there was.
pub fn the_note_is_of_the_last_commit()
    ensures { (who : Who) (turns : List Turn) (start : Content)
        → (after_events start ((work_of who turns).events start)).note ≡ noted_in who.lines turns start.note }
{}

/// A note tells of each line the number that it was made with: of two lines with one key, that of the first.
pub fn a_note_tells_of_each_line()
    ensures { (before behind : List Line) (line : Line) → length before < MOST_LINES
        → All (λ (other : Line). (length other.key ≡ 16) × (other.key ≢ line.key)) before
        → length line.key ≡ 16 → line.last < 2 ^ 64
        → last_in line.key (note_of (before ++ line ∷ behind)) ≡ line.last }
{}
