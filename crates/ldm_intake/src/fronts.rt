//! Records of which less is kept than all.
ghost use Rattle.std.specs.Prelude.{◌≡◌, ℕ, List, true, false};
ghost use Rattle.ldm_relay.specs.FeedCalls.{IsNoFeedCall};
ghost use Rattle.ldm_relay.specs.Reading.{call_of};
ghost use Rattle.ldm_rpc.specs.Keeping.{IsFrontOf};
ghost use Rattle.ldm_shared.specs.Passes.{PassView};
ghost use Rattle.ldm_intake.specs.Record.{record_course};
ghost use Rattle.ldm_intake.specs.Settled.{is_feeding};
ghost use Rattle.ldm_intake.specs.TakesRecord.{TakesAnswer, TakesRecord, stands};

use crate::intake::Intake;
use crate::record_end::{AnswerEnd, MessageEnd};
use ldm_relay::{FeedFront, LONGEST_BLOCK_CALL, LONGEST_CALL, long_records_carry, read_feed_front};
use ldm_rpc::Front;

impl Intake<'_> {
    /// Takes a record of a feed of which less is kept than all: one that can carry no product is refused. One that may
    /// is as one for which there is no memory; a receiver keeps as much as such a record needs.
    pub fn take_front(&self, held: Front<'_>) -> MessageEnd
        requires feeding { is_feeding self.now.phase ≡ true }
        ensures { (content : List ℕ) (now : ℕ) (pass : PassView) (out notes : List ℕ) → IsFrontOf held.entry content
            → TakesRecord result (record_course self.now now content)
            (stands self.now pass out notes) (stands self.now pass out notes) }
    {
        if may_carry(held) {
            MessageEnd::OutOfMemory
        } else {
            MessageEnd::Bad
        }
    }

    /// Takes the reply to a request of which less is kept than all: no reply is as long.
    pub fn take_answer_front(&self, held: Front<'_>) -> AnswerEnd
        requires asked { is_feeding self.now.phase ≡ false }
        ensures { (content : List ℕ) (now : ℕ) (pass : PassView) (out notes : List ℕ) → IsFrontOf held.entry content
            → TakesAnswer result (record_course self.now now content)
            (stands self.now pass out notes) (stands self.now pass out notes) }
    {
        long_records_carry();
        if held.len > LONGEST_CALL {
            AnswerEnd::Bad
        } else {
            AnswerEnd::OutOfMemory
        }
    }
}

// Whether a record of a feed may carry bytes of a product, as far as what is kept of it tells.
fn may_carry(held: Front<'_>) -> bool
    ensures { result ≡ false → (content : List ℕ) → IsFrontOf held.entry content → IsNoFeedCall (call_of content) }
{
    long_records_carry();
    if held.len <= LONGEST_CALL || held.bytes.len() < LONGEST_CALL as usize {
        return true;
    }
    match read_feed_front(&held.bytes[..LONGEST_CALL as usize]) {
        FeedFront::Hereis => true,
        FeedFront::Blkdata => held.len <= LONGEST_BLOCK_CALL,
        FeedFront::Other => false,
    }
}
