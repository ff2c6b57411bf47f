//! What is kept of the answers to the orders of an exercise.
ghost use Rattle.std.specs.Prelude.{◌≡◌, ◌+◌, ◌^◌, ◌<◌, ◌++◌, ◌∷◌, [], List};
ghost use Rattle.ldm_model.specs.declared.event.Reply.{Reply};
ghost use Rattle.ldm_answers.specs.Answer.{reply_of, FitsAnswer};
ghost use Rattle.ldm_exercise.specs.Kept.{Keeps};

use crate::tally::Tally;
use ldm_answers::{Answer, Text, write_answer};
use md5::{Digest, Md5};

/// What is kept of answers: the digest of their lines, and how many there are of each kind.
#[derive(Drop)]
pub struct Answers {
    pub digest: Md5,
    pub tally: Tally,
}

impl Answers {
    /// No answers yet.
    pub fn new() -> Answers
        ensures { Keeps result [] }
    {
        Answers {
            digest: Md5::new(),
            tally: Tally::new(),
        }
    }

    /// One answer more. Its line is written over what the buffer had.
    pub fn add(&mut self, answer: &Answer, line: &mut Text)
        requires room { self.old.tally.replies + 1 < 2 ^ 32 }
        requires fits { FitsAnswer answer.now }
        ensures counted { self.new.tally.replies ≡ self.old.tally.replies + 1 }
        ensures kept { (replies : List Reply) → Keeps self.old replies
            → Keeps self.new (replies ++ reply_of answer.now ∷ []) }
    {
        write_answer(answer, line);
        self.digest.update(line.as_slice());
        self.tally.count(answer);
    }
}
