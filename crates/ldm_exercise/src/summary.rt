//! The summary of an exercise.
ghost use Rattle.std.specs.Prelude.{◌≡◌, ◌+◌, ◌≤◌, ◌++◌, List};
ghost use Rattle.arrayvec.specs.ArrayVec.{array_vec_len};
ghost use Rattle.ldm_model.specs.declared.event.Reply.{Reply};
ghost use Rattle.md5.specs.Md5.{Holds};
ghost use Rattle.ldm_exercise.specs.Playing.{answer_text};
ghost use Rattle.ldm_exercise.specs.Kept.{Keeps};
ghost use Rattle.ldm_exercise.specs.Summary.{digest_line, first_line, summary_of};

use crate::answers::Answers;
use crate::tally::COUNTS_ROOM;
use arrayvec::ArrayVec;
use ldm_answers::{put, put_number};
use ldm_signature::write_hex;
use ldm_types::Signature;
use md5::{Digest, Md5};

// The most bytes of the first line, and of the last.
const FIRST_ROOM: usize = 51;

const DIGEST_ROOM: usize = 41;

// And of all three.
const SUMMARY_ROOM: usize = 501;

/// The three lines of a summary.
pub type Summary = ArrayVec<u8, SUMMARY_ROOM>;

/// The summary of `exercise NUMBER COUNT`, by what is kept of the answers.
pub fn summary_for(number: u64, count: u32, answers: Answers) -> Summary
    ensures { (replies : List Reply) → Keeps answers replies → result.items ≡ summary_of number count replies }
{
    let mut out = Summary::new();
    put_first_line(&mut out, number, count);
    answers.tally.write_line(&mut out);
    put_digest(&mut out, answers.digest);
    out
}

// Appends `exercise NUMBER COUNT`.
fn put_first_line(out: &mut Summary, number: u64, count: u32)
    requires room { array_vec_len out.old ≡ 0 }
    ensures text { out.new.items ≡ out.old.items ++ first_line number count }
    ensures len { array_vec_len out.new ≤ FIRST_ROOM }
{
    put(out, b"exercise ");
    put_number(out, number);
    put(out, b" ");
    put_number(out, u64::from(count));
    put(out, b"\n");
}

// Appends the digest of the answer lines.
fn put_digest(out: &mut Summary, digest: Md5)
    requires room { array_vec_len out.old ≤ FIRST_ROOM + COUNTS_ROOM }
    ensures text { (replies : List Reply) → Holds digest (answer_text replies)
        → out.new.items ≡ out.old.items ++ digest_line replies }
{
    put(out, b"answers ");
    let digits = write_hex(&Signature(digest.finalize()));
    put(out, digits.as_slice());
    put(out, b"\n");
}
