//! Where in a record a reader is, and what the bytes of its headers make of that.
ghost use Rattle.std.specs.Prelude.{◌≡◌, ◌*◌, ◌+◌, ◌^◌, ◌≤◌, ◌<◌, ℕ, List, length};
ghost use Rattle.ldm_rpc.specs.Reading.{after_byte, after_header, is_open_at, is_pending_at};
ghost use Rattle.ldm_rpc.specs.Taking.{answer_at};
ghost use Rattle.ldm_rpc.specs.Stages.{StageFits, KeepsLittle};
ghost use Rattle.ldm_rpc.specs.Marking.{reading_at};

use crate::fault::RpcFault;
use crate::stage::{LAST_FRAGMENT, Stage, stage_before};

/// What a reader keeps of the record in hand, beside its content.
#[derive(Debug, Drop)]
pub(crate) struct Marks {
    /// The most bytes that the content of a record may have.
    pub(crate) limit: u32,
    /// Where in the record the header in hand begins or, within a fragment, the next one will.
    pub(crate) next_header_at: u64,
    pub(crate) stage: Stage,
}

impl Marks {
    /// Before the first byte of a record.
    pub(crate) fn before_record(limit: u32) -> Marks
        ensures { result ≡ record { limit = limit; next_header_at = 0; stage = Stage.Header 0 0 } }
    {
        Marks {
            limit,
            next_header_at: 0,
            stage: Stage::Header { came: 0, number: 0 },
        }
    }

    /// Whether bytes are still taken.
    pub(crate) fn are_open(&self) -> bool
        ensures { result ≡ is_open_at self.now.stage }
    {
        matches!(self.stage, Stage::Header { .. } | Stage::Fragment { .. })
    }

    /// Whether a record or a fragment header was begun and is not complete.
    pub(crate) fn are_pending(&self) -> bool
        ensures { result ≡ is_pending_at self.now.stage self.now.next_header_at }
    {
        match self.stage {
            Stage::Header { came, .. } => came > 0 || self.next_header_at > 0,
            Stage::Fragment { .. } => true,
            Stage::Whole => false,
            Stage::Faulty(_) => true,
        }
    }

    /// What a push answers that has taken so many bytes.
    pub(crate) fn answer(&self, taken: usize) -> Result<usize, RpcFault>
        ensures { result ≡ answer_at self.now.stage taken }
    {
        match self.stage {
            Stage::Faulty(fault) => Err(fault),
            _ => Ok(taken),
        }
    }

    /// A byte of a header, behind so many bytes of content.
    #[tactic(auto, using(crate::proofs::Steps::one_more_digit), unfolding(crate::specs::Reading::after_byte))]
    pub(crate) fn take_header_byte(&mut self, came: u8, number: u32, byte: u8, len: u32)
        requires stage { self.old.stage ≡ Stage.Header came number }
        requires small { (came < 4) × (number < 256 ^ came) }
        requires within { len ≤ self.old.limit }
        ensures after { (content : List ℕ) → length content ≡ len
            → reading_at self.new content ≡ after_byte (reading_at self.old content) byte }
        ensures limit { self.new.limit ≡ self.old.limit }
        ensures fits { StageFits self.new.stage len self.new.limit }
        ensures little { (capacity : ℕ) → KeepsLittle self.new.stage self.new.next_header_at capacity }
    {
        let number = number * 256 + u32::from(byte);
        if came == 3 {
            self.begin_fragment(number, len);
        } else {
            self.stage = Stage::Header {
                came: came + 1,
                number,
            };
        }
    }

    // What a header says, of which all four bytes came.
    fn begin_fragment(&mut self, number: u32, len: u32)
        requires within { len ≤ self.old.limit }
        ensures after { (content : List ℕ) → length content ≡ len
            → reading_at self.new content ≡ after_header (reading_at self.old content) number }
        ensures limit { self.new.limit ≡ self.old.limit }
        ensures fits { StageFits self.new.stage len self.new.limit }
        ensures little { (capacity : ℕ) → KeepsLittle self.new.stage self.new.next_header_at capacity }
    {
        let more = number % LAST_FRAGMENT;
        if more > self.limit - len {
            self.stage = Stage::Faulty(RpcFault::TooLong {
                at: self.next_header_at,
            });
        } else {
            self.next_header_at = self.next_header_at.saturating_add(4 + u64::from(more));
            self.stage = stage_before(more, number >= LAST_FRAGMENT);
        }
    }
}
