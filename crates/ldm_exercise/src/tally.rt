//! How many answers there are of each kind.
ghost use Rattle.std.specs.Prelude.{◌≡◌, ◌+◌, ◌^◌, ◌<◌, ◌≤◌, ◌++◌, [], decimal, length};
ghost use Rattle.arrayvec.specs.ArrayVec.{array_vec_len};
ghost use Rattle.ldm_answers.specs.Answer.{blank_number, reply_of};
ghost use Rattle.ldm_exercise.specs.Counts.{counts_of};
ghost use Rattle.ldm_exercise.specs.Summary.{counts_line, insertion_counts, step_counts};
ghost use Rattle.ldm_exercise.specs.TallyView.{and_counted};

use arrayvec::ArrayVec;
use itoa::Buffer;
use ldm_answers::{Answer, put};
use std::marker::Model;

/// How many answers there are of each kind that is told, the sum of the evictions of the admitted, and that of the
/// counts of the gaps.
#[derive(Debug, Drop)]
pub struct Tally {
    replies: u32,
    admitted: u32,
    evicted: u128,
    duplicate: u32,
    locked: u32,
    product: u32,
    gap: u32,
    lost: u128,
    end: u32,
}

impl Model for Tally {
    ghost use Rattle.ldm_exercise.specs.Counts.{Counts};
    ghost use Rattle.ldm_exercise.specs.TallyView.{IsBounded};

    ghost Value = { Counts };

    ghost view = { λ t. record {
      replies = t.replies;
      admitted = t.admitted;
      evicted = t.evicted;
      duplicate = t.duplicate;
      locked = t.locked;
      product = t.product;
      gap = t.gap;
      lost = t.lost;
      end = t.end;
    } };

    ghost invariant = { λ t. IsBounded (record {
      replies = t.replies;
      admitted = t.admitted;
      evicted = t.evicted;
      duplicate = t.duplicate;
      locked = t.locked;
      product = t.product;
      gap = t.gap;
      lost = t.lost;
      end = t.end;
    }) };
}

impl Tally {
    /// Of no answers.
    pub fn new() -> Tally
        ensures { result ≡ counts_of [] }
    {
        Tally {
            replies: 0,
            admitted: 0,
            evicted: 0,
            duplicate: 0,
            locked: 0,
            product: 0,
            gap: 0,
            lost: 0,
            end: 0,
        }
    }

    /// Counts one answer more.
    pub fn count(&mut self, answer: &Answer)
        requires room { self.old.replies + 1 < 2 ^ 32 }
        ensures { self.new ≡ and_counted self.old (reply_of answer.now) }
    {
        self.replies += 1;
        match answer {
            Answer::Admitted { evicted, .. } => {
                self.admitted += 1;
                self.evicted += u128::from(*evicted);
            }
            Answer::Duplicate { .. } => self.duplicate += 1,
            Answer::Locked { .. } => self.locked += 1,
            Answer::Product { .. } => self.product += 1,
            Answer::Gap { count, .. } => {
                self.gap += 1;
                self.lost += u128::from(*count);
            }
            Answer::End { .. } => self.end += 1,
            _ => {}
        }
    }

    /// Appends the second line of a summary, for which there is room.
    pub fn write_line<const N: usize>(&self, out: &mut ArrayVec<u8, N>)
        requires room { array_vec_len out.old + COUNTS_ROOM ≤ N }
        ensures text { out.new.items ≡ out.old.items ++ counts_line self.now }
        ensures len { array_vec_len out.new ≤ array_vec_len out.old + COUNTS_ROOM }
    {
        self.put_insertions(out);
        self.put_steps(out);
        put(out, b"\n");
    }

    // Appends the counts of the answers to insertions.
    fn put_insertions<const N: usize>(&self, out: &mut ArrayVec<u8, N>)
        requires room { array_vec_len out.old + HALF_ROOM ≤ N }
        ensures text { out.new.items ≡ out.old.items ++ insertion_counts self.now }
        ensures len { array_vec_len out.new ≤ array_vec_len out.old + HALF_ROOM }
    {
        put_count(out, b"admitted", u128::from(self.admitted));
        put_count(out, b" evicted", self.evicted);
        put_count(out, b" duplicate", u128::from(self.duplicate));
        put_count(out, b" locked", u128::from(self.locked));
    }

    // Appends the counts of the answers to steps.
    fn put_steps<const N: usize>(&self, out: &mut ArrayVec<u8, N>)
        requires room { array_vec_len out.old + HALF_ROOM ≤ N }
        ensures text { out.new.items ≡ out.old.items ++ step_counts self.now }
        ensures len { array_vec_len out.new ≤ array_vec_len out.old + HALF_ROOM }
    {
        put_count(out, b" product", u128::from(self.product));
        put_count(out, b" gap", u128::from(self.gap));
        put_count(out, b" lost", self.lost);
        put_count(out, b" end", u128::from(self.end));
    }
}

// The most bytes of a word with a count behind it, and of four such.
const COUNT_ROOM: usize = 51;

const HALF_ROOM: usize = 204;

/// The most bytes of the second line.
pub const COUNTS_ROOM: usize = 409;

// Appends a word and a count, a blank between.
fn put_count<const N: usize>(out: &mut ArrayVec<u8, N>, word: &[u8], count: u128)
    requires short { length word.now ≤ 10 }
    requires room { array_vec_len out.old + COUNT_ROOM ≤ N }
    ensures text { out.new.items ≡ out.old.items ++ word.now ++ blank_number count }
    ensures len { array_vec_len out.new ≤ array_vec_len out.old + COUNT_ROOM }
{
    put(out, word);
    put(out, b" ");
    let mut buffer = Buffer::new();
    put(out, buffer.format(count).as_bytes());
}
