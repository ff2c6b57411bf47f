//! Log lines.
ghost use Rattle.std.specs.Prelude.{◌≡◌, ◌≤◌, ◌<◌, ◌+◌, ◌∷◌, ◌++◌, [], length};
ghost use Rattle.std.specs.Vec.{vec_len, vec_capacity};
ghost use Rattle.ldm_types.specs.declared.limits.TheConstants.{LONGEST_IDENT};
ghost use Rattle.ldm_model.specs.Answers.{insert_answer, reserve_answer, commit_answer};
ghost use Rattle.ldm_answers.specs.Answer.{reply_of, FitsAnswer};
ghost use Rattle.ldm_intake.specs.Notes.{note_line, note_lines};
ghost use Rattle.ldm_intake.specs.Notes as note;
ghost use Rattle.ldm_intake.specs.Products.{insert_note, reserve_note, commit_note};
ghost use Rattle.ldm_intake.specs.Room.{HasNoteRoom};

use ldm_answers::{Answer, LONGEST_ANSWER, Text, put, text_into, write_answer};
use ldm_model::{CommitReply, InsertReply, ReserveReply};
use ldm_types::{Info, LONGEST_IDENT};

/// The most bytes of a log line: a word, the spelling of an ident, and an answer line.
pub const LONGEST_NOTE: usize = LONGEST_ANSWER + 3 * LONGEST_IDENT + 16;

// Appends bytes, for which there is room.
fn append(notes: &mut Vec<u8>, bytes: &[u8])
    requires { vec_len notes.old + length bytes.now ≤ vec_capacity notes.old }
    ensures items { notes.new.items ≡ notes.old.items ++ bytes.now }
    ensures len { vec_len notes.new ≡ vec_len notes.old + length bytes.now }
    ensures capacity { vec_capacity notes.old ≤ vec_capacity notes.new }
{
    if notes.extend_from_slice(bytes).is_err() {
        unreachable!();
    }
}

/// Appends the line of a product that is not wanted.
#[tactic(auto, unfolding(crate::specs::Notes::note_line))]
pub fn put_unwanted(notes: &mut Vec<u8>, info: &Info)
    requires { HasNoteRoom notes.old }
    ensures { notes.new.items ≡ notes.old.items ++ note_lines (note.Unwanted info.now.ident ∷ []) }
{
    let mut line = Text::new();
    put(&mut line, b"unwanted ");
    text_into(info.ident(), &mut line);
    put(&mut line, b"\n");
    append(notes, line.as_slice());
}

/// Appends the line of a product that the queue refused.
#[tactic(auto, unfolding(crate::specs::Notes::note_line))]
pub fn put_refused(notes: &mut Vec<u8>, info: &Info, answer: &Answer)
    requires room { HasNoteRoom notes.old }
    requires fits { FitsAnswer answer.now }
    ensures { notes.new.items ≡ notes.old.items ++ note_lines (note.Refused info.now.ident (reply_of answer.now) ∷ []) }
{
    let mut line = Text::new();
    put(&mut line, b"refused ");
    text_into(info.ident(), &mut line);
    put(&mut line, b" ");
    let mut told = Text::new();
    write_answer(answer, &mut told);
    append(notes, line.as_slice());
    append(notes, told.as_slice());
}

/// Appends what is logged of an insertion.
pub fn note_insert(notes: &mut Vec<u8>, info: &Info, reply: InsertReply)
    requires { HasNoteRoom notes.old }
    ensures { notes.new.items ≡ notes.old.items ++ note_lines (insert_note info.now (insert_answer reply)) }
{
    match reply {
        InsertReply::Admitted { .. } => {}
        InsertReply::TooBig { need, arena } => {
            put_refused(notes, info, &Answer::TooBig { need, arena });
        }
        InsertReply::Duplicate { n } => put_refused(notes, info, &Answer::Duplicate { n }),
        InsertReply::TimeEnd => put_refused(notes, info, &Answer::TimeEnd),
        InsertReply::Locked { held } => put_refused(notes, info, &Answer::Locked { held }),
    }
}

/// Appends what is logged of a reservation.
pub fn note_reserve(notes: &mut Vec<u8>, info: &Info, reply: ReserveReply)
    requires { HasNoteRoom notes.old }
    ensures { notes.new.items ≡ notes.old.items ++ note_lines (reserve_note info.now (reserve_answer reply)) }
{
    match reply {
        ReserveReply::Reserved { .. } => {}
        ReserveReply::Duplicate { .. } => {}
        ReserveReply::TooBig { need, arena } => {
            put_refused(notes, info, &Answer::TooBig { need, arena });
        }
        ReserveReply::AllReserved => put_refused(notes, info, &Answer::AllReserved),
        ReserveReply::Locked { held } => put_refused(notes, info, &Answer::Locked { held }),
    }
}

/// Appends what is logged of a commit.
pub fn note_commit(notes: &mut Vec<u8>, info: &Info, reply: CommitReply)
    requires { HasNoteRoom notes.old }
    ensures { notes.new.items ≡ notes.old.items ++ note_lines (commit_note info.now (commit_answer reply)) }
{
    match reply {
        CommitReply::Committed { .. } => {}
        CommitReply::NoReservation => put_refused(notes, info, &Answer::NoReservation),
        CommitReply::Unfilled { left } => put_refused(notes, info, &Answer::Unfilled { left }),
        CommitReply::Duplicate { n } => put_refused(notes, info, &Answer::Duplicate { n }),
        CommitReply::TimeEnd => put_refused(notes, info, &Answer::TimeEnd),
    }
}
