//! The records of a stream that comes in pieces, of which a front may be all that is kept.
ghost use Rattle.std.specs.Prelude.{◌≡◌, ◌⊎◌, ◌-◌, ◌^◌, ◌≤◌, ◌<◌, ℕ, IfOk, IfErr, IfNone, IfSome};
ghost use Rattle.std.specs.Prelude.{OnErr, Err, List, Some, length, take, true, false, []};
ghost use Rattle.ldm_rpc.specs.declared.kept.TheConstants.{LEAST_FRONT};
ghost use Rattle.ldm_rpc.specs.declared.fault.RpcFault.{RpcFault};
ghost use Rattle.ldm_rpc.specs.declared.stage.Stage.TheVariants.{Faulty};
ghost use Rattle.ldm_rpc.specs.Reading.{after, after_byte, begun, bytes_taken, is_faulty};
ghost use Rattle.ldm_rpc.specs.Reading.{is_open, is_pending, is_whole, next_of, whole_of};
ghost use Rattle.ldm_rpc.specs.Spelling.{BeginsSingle};
ghost use Rattle.ldm_rpc.specs.Taking.{IsFaultOf, TakesFront};
ghost use Rattle.ldm_rpc.specs.Filling.{IsFilled, filled};

use crate::fault::RpcFault;
use crate::filler::Filler;
use crate::in_place::{InPlace, single_in};
use crate::kept::{Kept, LEAST_FRONT};
use crate::marks::Marks;
use crate::stage::{Stage, stage_before};
use std::alloc::{AllocError, Global};
use std::marker::Model;

/// The front of a complete record.
#[derive(Clone, Copy, Debug)]
pub struct Front<'a> {
    /// The bytes of its content that are kept: all of them, or at least [`LEAST_FRONT`] at its front.
    pub bytes: &'a [u8],
    /// How many bytes its content has.
    pub len: u32,
}

/// A reader of records, as [`Records`](crate::Records), that can be told to keep only a front of the record in hand.
///
/// Contracts see the whole content, also what is not kept. Who gives it no more bytes than
/// [`FrontRecords::room_to_front`] says, looks at the front and then tells it to keep no more, keeps [`LEAST_FRONT`]
/// bytes of a record of any length.
#[derive(Drop)]
pub struct FrontRecords {
    marks: Marks,
    kept: Kept,
}

impl Model for FrontRecords {
    ghost use Rattle.ldm_rpc.specs.Reading.{Reading};

    ghost Value = { Reading };

    ghost use Rattle.ldm_rpc.specs.FrontRecordsView.{reading_of_all, IsHeld};

    ghost view = { reading_of_all };

    ghost invariant = { IsHeld };
}

impl FrontRecords {
    /// A reader before the first byte of a stream, of records whose content has at most `limit` bytes. It takes no
    /// memory, and keeps all bytes of a record.
    pub fn create(alloc: Global, limit: u32) -> FrontRecords
        ensures { result ≡ begun limit }
    {
        FrontRecords {
            marks: Marks::before_record(limit),
            kept: Kept::new(alloc),
        }
    }

    /// Takes bytes of a piece up to the last byte of the record in hand, or all of them, and answers how many.
    ///
    /// Each byte of content that is kept is copied once. Behind [`FrontRecords::keep_front`] no memory is taken for
    /// bytes behind the front. After a fault, every call answers that fault and takes nothing.
    pub fn push(&mut self, piece: &[u8]) -> Result<usize, RpcFault>
        requires { is_whole self.old ≡ false }
        ensures after { IfOk result (λ _. (self.new ≡ after self.old piece.now) × (is_faulty self.new ≡ false)) }
        ensures taken { IfOk result (λ n. (n ≡ bytes_taken self.old piece.now) × (n ≤ length piece.now)) }
        ensures moves { IfOk result (λ n. 0 < length piece.now → 0 < n) }
        ensures ends { IfOk result (λ n. n < length piece.now → is_whole self.new ≡ true) }
        ensures fault { IfErr result (IsFaultOf self.old piece.now self.new) }
        ensures stays { (fault : RpcFault) → self.old.stage ≡ Faulty fault → (result ≡ Err fault)
            × (self.new ≡ self.old) }
    {
        let mut taken = 0;
        while taken < piece.len() && self.is_open() {
            match self.take(&piece[taken..]) {
                Ok(n) => taken += n,
                Err(_) => return Err(RpcFault::OutOfMemory),
            }
        }
        self.marks.answer(taken)
    }

    /// The content of a complete record of which all bytes are kept, without its fragment headers. Of a record of fewer
    /// than [`LEAST_FRONT`] bytes they are.
    pub fn whole(&self) -> Option<&[u8]>
        ensures content { IfSome result (λ content. whole_of self.now ≡ Some content.now) }
        ensures within { IfSome result (λ content. length content.now ≤ self.now.limit) }
        ensures none { IfNone result (is_whole self.now ≡ true → LEAST_FRONT ≤ length self.now.content) }
    {
        let front = self.whole_front()?;
        if front.bytes.len() < front.len as usize {
            return None;
        }
        Some(front.bytes)
    }

    /// The front of a complete record. `None` exactly where no record is complete.
    pub fn whole_front(&self) -> Option<Front<'_>>
        ensures whole { IfSome result (λ _. whole_of self.now ≡ Some self.now.content) }
        ensures none { IfNone result (is_whole self.now ≡ false) }
        ensures front { IfSome result (λ front. front.bytes.now ≡ take (length front.bytes.now) self.now.content) }
        ensures enough { IfSome result
            (λ front. (front.bytes.now ≡ self.now.content) ⊎ (LEAST_FRONT ≤ length front.bytes.now)) }
        ensures len { IfSome result (λ front. front.len ≡ length self.now.content) }
        ensures within { IfSome result (λ front. front.len ≤ self.now.limit) }
    {
        match self.marks.stage {
            Stage::Whole => Some(Front {
                bytes: self.front(),
                len: self.len(),
            }),
            _ => None,
        }
    }

    /// The bytes that are kept of the record in hand: all of them, or at least [`LEAST_FRONT`] at its front.
    pub fn front(&self) -> &[u8]
        ensures front { result.now ≡ take (length result.now) self.now.content }
        ensures enough { (result.now ≡ self.now.content) ⊎ (LEAST_FRONT ≤ length result.now) }
    {
        self.kept.front()
    }

    /// How many bytes of content came of the record in hand, those that are not kept too.
    pub fn len(&self) -> u32
        ensures len { result ≡ length self.now.content }
        ensures within { result ≤ self.now.limit }
    {
        self.kept.len()
    }

    /// Whether all bytes that came of the content in hand are kept. Fewer than [`LEAST_FRONT`] always are.
    pub fn keeps_all(&self) -> bool
        ensures { result ≡ false → LEAST_FRONT ≤ length self.now.content }
    {
        self.front().len() == self.len() as usize
    }

    /// How many bytes of content bring the front to [`LEAST_FRONT`] bytes: 0 where it has as many.
    pub fn room_to_front(&self) -> usize
        ensures room { result ≡ LEAST_FRONT - length self.now.content }
    {
        LEAST_FRONT.saturating_sub(self.front().len())
    }

    /// How many bytes the fragment in hand still brings: 0 where none is in hand.
    pub(crate) fn left(&self) -> u32 {
        match self.marks.stage {
            Stage::Fragment { left, .. } => left,
            _ => 0,
        }
    }

    /// Takes memory ahead for what the fragment in hand still brings, where that is kept, and for `most` bytes at most.
    /// It takes none between fragments. Without memory nothing changes.
    pub(crate) fn reserve(&mut self, most: u64)
        ensures { self.new ≡ self.old }
    {
        if let Stage::Fragment { left, .. } = self.marks.stage {
            self.kept.reserve(most.min(u64::from(left)) as usize);
        }
    }

    /// A [`Filler`] puts bytes of the fragment in hand straight behind those that came: at most so many, and all but the
    /// last one, so that a record is complete behind a push alone. `None` where no fragment is in hand or just its last
    /// byte is to come, its bytes are kept no more, or there is no memory for more: then it was not asked.
    pub(crate) fn fill<S, F: Filler<S>>(
        &mut self,
        filler: &mut F,
        source: &mut S,
        most: usize,
    ) -> Option<usize>
        requires some { 0 < most }
        requires ready { F.can_fill source.old }
        ensures none { IfNone result ((self.new ≡ self.old) × (filler.new ≡ filler.old) × (source.new ≡ source.old)) }
        ensures filled { IfSome result (IsFilled self.old self.new most) }
        ensures gives { IfSome result
            (λ _. F.gives filler.old source.old (filled self.old self.new) filler.new source.new) }
    {
        match self.marks.stage {
            Stage::Fragment { left, last } => {
                self.fill_fragment(left, last, filler, source, most)
            }
            _ => None,
        }
    }

    /// From here on no more bytes of the record in hand are kept than are kept already, or than [`LEAST_FRONT`] where
    /// these are fewer. The next record is kept whole again.
    pub fn keep_front(&mut self)
        ensures { self.new ≡ self.old }
    {
        self.kept.keep_front();
    }

    /// Forgets a complete record, and does nothing where none is complete. All bytes of the next one are kept. A buffer
    /// of more than [`LARGEST_KEPT`](crate::LARGEST_KEPT) bytes is given back.
    pub fn next(&mut self)
        ensures after { self.new ≡ next_of self.old }
        ensures ready { is_whole self.new ≡ false }
    {
        if let Stage::Whole = self.marks.stage {
            self.kept.clear();
            self.marks = Marks::before_record(self.marks.limit);
        }
    }

    /// The record of one fragment that lies whole at the front of a piece, where the reader is before the first byte of
    /// a record. `None` exactly where the reader is elsewhere, or the piece begins with no such record that is within
    /// the limit.
    ///
    /// It takes no memory and copies nothing. Before the next record the reader stands as it stands now: the caller
    /// goes on behind the bytes that this one takes, and neither pushes them nor calls [`FrontRecords::next`].
    pub fn whole_in<'a>(&self, piece: &'a [u8]) -> Option<InPlace<'a>>
        ensures content { IfSome result (λ found. whole_of (after self.now piece.now) ≡ Some found.content.now) }
        ensures taken { IfSome result
            (λ found. (found.taken ≡ bytes_taken self.now piece.now) × (found.taken ≤ length piece.now)
            × (0 < found.taken)) }
        ensures stays { IfSome result (λ found. next_of (after self.now piece.now) ≡ self.now) }
        ensures within { IfSome result (λ found. length found.content.now ≤ self.now.limit) }
        ensures begins { IfSome result (λ found. BeginsSingle self.now.limit piece.now found.content.now) }
        ensures none { IfNone result
            (self.now ≡ begun self.now.limit → (content : List ℕ) → ¬ BeginsSingle self.now.limit piece.now content) }
    {
        if !self.is_begun() {
            return None;
        }
        single_in(piece, self.marks.limit)
    }

    /// Whether a record or a fragment header was begun and is not complete. After a fault it is so.
    pub fn pending(&self) -> bool
        ensures { result ≡ is_pending self.now }
    {
        self.marks.are_pending()
    }

    // Whether it is before the first byte of a record.
    fn is_begun(&self) -> bool
        ensures is { result ≡ true → self.now ≡ begun self.now.limit }
        ensures is_not { result ≡ false → ¬ (self.now ≡ begun self.now.limit) }
    {
        match self.marks.stage {
            Stage::Header { came, .. } => {
                came == 0 && self.marks.next_header_at == 0 && self.kept.len() == 0
            }
            _ => false,
        }
    }

    fn is_open(&self) -> bool
        ensures { result ≡ is_open self.now }
    {
        self.marks.are_open()
    }

    // Takes the front of a piece: one byte of a header, or all that is there of a fragment.
    fn take(&mut self, piece: &[u8]) -> Result<usize, AllocError>
        requires unended { is_open self.old ≡ true }
        requires some { 0 < length piece.now }
        ensures taken { IfOk result (λ n. TakesFront self.old piece.now n self.new) }
        ensures fault { OnErr result (self.new.stage ≡ Faulty RpcFault.OutOfMemory) }
    {
        match self.marks.stage {
            Stage::Header { came, number } => {
                self.take_header_byte(came, number, piece[0]);
                Ok(1)
            }
            Stage::Fragment { left, last } => self.take_content(left, last, piece),
            _ => unreachable!(),
        }
    }

    fn take_header_byte(&mut self, came: u8, number: u32, byte: u8)
        requires stage { self.old.stage ≡ Stage.Header came number }
        requires small { (came < 4) × (number < 256 ^ came) }
        ensures { self.new ≡ after_byte self.old byte }
    {
        let len = self.kept.len();
        self.marks.take_header_byte(came, number, byte, len);
    }

    // Bytes of the fragment in hand, in one copy.
    fn take_content(&mut self, left: u32, last: bool, piece: &[u8]) -> Result<usize, AllocError>
        requires stage { self.old.stage ≡ Stage.Fragment left last }
        requires some { 0 < length piece.now }
        ensures taken { IfOk result (λ n. TakesFront self.old piece.now n self.new) }
        ensures fault { OnErr result (self.new.stage ≡ Faulty RpcFault.OutOfMemory) }
    {
        let count = piece.len().min(left as usize);
        if self.kept.add(&piece[..count]).is_err() {
            self.marks.stage = Stage::Faulty(RpcFault::OutOfMemory);
            return Err(AllocError);
        }
        self.marks.stage = stage_before(left - count as u32, last);
        Ok(count)
    }

    // Bytes of the fragment in hand, straight from a filler.
    fn fill_fragment<S, F: Filler<S>>(
        &mut self,
        left: u32,
        last: bool,
        filler: &mut F,
        source: &mut S,
        most: usize,
    ) -> Option<usize>
        requires stage { self.old.stage ≡ Stage.Fragment left last }
        requires some { 0 < most }
        requires ready { F.can_fill source.old }
        ensures none { IfNone result ((self.new ≡ self.old) × (filler.new ≡ filler.old) × (source.new ≡ source.old)) }
        ensures filled { IfSome result (IsFilled self.old self.new most) }
        ensures gives { IfSome result
            (λ _. F.gives filler.old source.old (filled self.old self.new) filler.new source.new) }
    {
        let room = fillable(most, left);
        if room == 0 {
            return None;
        }
        let count = self.kept.fill(filler, source, room)?;
        self.marks.stage = stage_before(left - count as u32, last);
        Some(count)
    }
}

// How many bytes of a fragment are filled, of which so many are to come: the last one is not.
fn fillable(most: usize, left: u32) -> usize
    ensures most { result ≤ most }
    ensures left { result ≤ left - 1 }
{
    most.min(left.saturating_sub(1) as usize)
}
