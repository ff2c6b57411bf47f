//! What the contracts amount to. These functions do nothing: their contracts are the laws.
ghost use Rattle.std.specs.Prelude.{◌≡◌, ◌<◌, ◌≤◌, ◌+◌, ◌-◌, ◌++◌, ◌∷◌, [], ℕ, List, length, drop};
ghost use Rattle.ldm_disk.specs.Told.{FileRecord, IsConsistent};
ghost use Rattle.ldm_journal.specs.declared.places.TheConstants.{LARGEST_RING};
ghost use Rattle.ldm_journal.specs.Records.{Kept, fitting, size_of};
ghost use Rattle.ldm_journal.specs.Format.{Holds};
ghost use Rattle.ldm_journal.specs.Runs.{Content, Event, Append, Commit, IsPart, MayOpen, after_events, appended_in};
ghost use Rattle.ldm_journal.specs.Runs.{committed_in, noted_in, opened};
ghost use Rattle.ldm_journal.specs.Joining.{BreaksOffAmid, IsLeftAmid, IsPartAmid, MakesEvents, then_events};
ghost use Rattle.ldm_journal.specs.Standing.{Stands};
ghost use Rattle.ldm_journal.specs.Appending.{Appends};
ghost use Rattle.ldm_journal.specs.Committing.{Commits};
ghost use Rattle.ldm_journal.specs.declared.marks.Marks.{Marks};
ghost use Rattle.ldm_journal.specs.declared.append.AppendEnd.TheVariants as append;
ghost use Rattle.ldm_journal.specs.declared.commit.CommitEnd.TheVariants as commit;

/// A file is a journal of at most one list of products, and of one note.
pub fn a_file_keeps_one_list()
    ensures { (ring : ℕ) (one other : List Kept) (first second file : List ℕ) → ring ≤ LARGEST_RING
        → Holds ring one first file → Holds ring other second file → (one ≡ other) × (first ≡ second) }
{}

/// Products are dropped from the front, and no more than have to be.
pub fn the_fewest_are_dropped()
    ensures fits { (most : ℕ) (all : List Kept) → size_of (fitting most all) ≤ most }
    ensures fewest { (most : ℕ) (all : List Kept) → (dropped : ℕ) × (fitting most all ≡ drop dropped all)
        × ((fewer : ℕ) → fewer < dropped → most < size_of (drop fewer all)) }
{}

/// Whatever was appended and committed since a journal was opened, what is opened after a crash is a part of what was
/// there and was appended, in order: nothing is lost but from the front, and what came behind the last commit that
/// the file knows of. The note is the one of this commit.
pub fn a_crash_leaves_a_part()
    ensures part { (first : List Kept) (begun : List ℕ) (events : List Event) (left : List Kept) (note : List ℕ)
        → MayOpen (after_events (opened first begun) events) left note
        → IsPart (committed_in (length first) (length first) events) (first ++ appended_in events) left }
    ensures noted { (first : List Kept) (begun : List ℕ) (events : List Event) (left : List Kept) (note : List ℕ)
        → MayOpen (after_events (opened first begun) events) left note → note ≡ noted_in begun events }
{}

/// Calls on an open journal make events, and calls in a row make those of all: so what a crash leaves at any moment of
/// a run of calls is what [`a_crash_leaves_a_part`] says of its events.
pub fn calls_make_events()
    ensures nothing { (marks : Marks) (file : FileRecord) → IsConsistent file
        → MakesEvents (λ start. []) marks marks file file }
    ensures appended { (k : Kept) (before after : Marks) → after.note ≡ before.note → (old new : FileRecord)
        → Appends append.Appended k before after old new → MakesEvents (λ start. Append k ∷ []) before after old new }
    ensures committed { (gap : ℕ) (note : List ℕ) (before after : Marks) → after.note ≡ note → (old new : FileRecord)
        → Commits commit.Committed gap note before after old new
        → MakesEvents (λ start. Commit (before.ring - gap) note ∷ []) before after old new }
    ensures not_appended { (events : Content → List Event) (k : Kept) (before after : Marks) (old new : FileRecord)
        → Appends append.DiskFault k before after old new → BreaksOffAmid events before old new }
    ensures not_committed { (gap : ℕ) (note : List ℕ) (before after : Marks) (old new : FileRecord)
        → Commits commit.DiskFault gap note before after old new
        → BreaksOffAmid (λ start. Commit (before.ring - gap) note ∷ []) before old new }
    ensures more { (first more : Content → List Event) (before : Marks) (old new : FileRecord)
        → BreaksOffAmid first before old new → BreaksOffAmid (then_events first more) before old new }
    ensures in_a_row { (first more : Content → List Event) (a b : Marks) → b.ring ≡ a.ring → (old mid new : FileRecord)
        → (c : Marks) → MakesEvents first a b old mid → MakesEvents more b c mid new
        → MakesEvents (then_events first more) a c old new }
    ensures broken_off { (first more : Content → List Event) (a b : Marks) → b.ring ≡ a.ring
        → (old mid new : FileRecord) → MakesEvents first a b old mid → BreaksOffAmid more b mid new
        → BreaksOffAmid (then_events first more) a old new }
    ensures part { (ring : ℕ) (first : List Kept) (begun : List ℕ) (events : List Event) (file : List ℕ)
        → IsLeftAmid ring (opened first begun) events file → IsPartAmid ring first begun events file }
{}

/// The marks of an open journal count the bytes of the records for which it stands.
pub fn marks_count_records()
    ensures { (marks : Marks) (kept appended : List Kept) (file : FileRecord) → IsConsistent file
        → Stands marks kept appended file
        → marks.used + marks.appended ≡ size_of (kept ++ appended) }
{}
