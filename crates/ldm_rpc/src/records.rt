//! The records of a stream that comes in pieces.
ghost use Rattle.std.specs.Prelude.{◌≡◌, ◌^◌, ◌≤◌, ◌<◌, ℕ, IfOk, IfErr, IfNone, IfSome};
ghost use Rattle.std.specs.Prelude.{OnErr, Err, List, Some, length, true, false, []};
ghost use Rattle.std.specs.Vec.{vec_capacity};
ghost use Rattle.ldm_rpc.specs.declared.records.TheConstants.{LARGEST_KEPT};
ghost use Rattle.std.specs.Option.{option_copied};
ghost use Rattle.ldm_rpc.specs.declared.fault.RpcFault.{RpcFault};
ghost use Rattle.ldm_rpc.specs.declared.stage.Stage.TheVariants.{Faulty};
ghost use Rattle.ldm_rpc.specs.Reading.{after, after_byte, begun, bytes_taken, is_faulty};
ghost use Rattle.ldm_rpc.specs.Reading.{is_open, is_pending, is_whole, next_of, whole_of};
ghost use Rattle.ldm_rpc.specs.Spelling.{BeginsSingle};
ghost use Rattle.ldm_rpc.specs.Taking.{IsFaultOf, TakesFront};

use crate::fault::RpcFault;
use crate::in_place::{InPlace, single_in};
use crate::marks::Marks;
use crate::stage::{Stage, stage_before};
use std::alloc::{AllocError, Global};
use std::marker::Model;

/// The largest buffer that is kept from one record to the next, in bytes. A larger one is given back, so that one large
/// record does not keep its memory for the rest of a session.
///
/// A buffer grows by doubling, so a content of up to 2 MiB comes to less than 4 MiB: records with products of 1 MiB
/// take memory once, and not for each record anew.
pub const LARGEST_KEPT: usize = 4_194_304;

/// A reader of records (RFC 5531, section 11), to which a stream is given in pieces of any size.
///
/// It holds the content of one record at a time. Its memory grows with the bytes that came, whatever a header
/// announces. What a record took is kept for the next one, up to [`LARGEST_KEPT`] bytes.
#[derive(Debug, Drop)]
pub struct Records {
    marks: Marks,
    content: Vec<u8>,
}

impl Model for Records {
    ghost use Rattle.ldm_rpc.specs.Reading.{Reading};

    ghost Value = { Reading };

    ghost use Rattle.ldm_rpc.specs.RecordsView.{reading_of, IsKept};

    ghost view = { reading_of };

    ghost invariant = { IsKept };
}

impl Records {
    /// A reader before the first byte of a stream, of records whose content has at most `limit` bytes. It takes no
    /// memory.
    pub fn create(alloc: Global, limit: u32) -> Records
        ensures { result ≡ begun limit }
    {
        Records {
            marks: Marks::before_record(limit),
            content: Vec::new(alloc),
        }
    }

    /// Takes bytes of a piece up to the last byte of the record in hand, or all of them, and answers how many.
    ///
    /// Each byte of content is copied once. After a fault, every call answers that fault and takes nothing.
    pub fn push(&mut self, piece: &[u8]) -> Result<usize, RpcFault>
        requires { is_whole self.old ≡ false }
        ensures after { IfOk result (λ _. (self.new ≡ after self.old piece.now) × (is_faulty self.new ≡ false)) }
        ensures taken { IfOk result (λ n. (n ≡ bytes_taken self.old piece.now) × (n ≤ length piece.now)) }
        ensures moves { IfOk result (λ n. 0 < length piece.now → 0 < n) }
        ensures ends { IfOk result (λ n. n < length piece.now → is_whole self.new ≡ true) }
        ensures fault { IfErr result (IsFaultOf self.old piece.now self.new) }
        ensures stays { (fault : RpcFault) → self.old.stage ≡ Faulty fault → (result ≡ Err fault)
            × (self.new ≡ self.old) }
    {
        let mut taken = 0;
        while taken < piece.len() && self.is_open() {
            match self.take(&piece[taken..]) {
                Ok(n) => taken += n,
                Err(_) => return Err(RpcFault::OutOfMemory),
            }
        }
        self.marks.answer(taken)
    }

    /// The content of a complete record, without its fragment headers. `None` exactly where no record is complete.
    pub fn whole(&self) -> Option<&[u8]>
        ensures content { option_copied result ≡ whole_of self.now }
        ensures within { IfSome result (λ content. length content.now ≤ self.now.limit) }
    {
        match self.marks.stage {
            Stage::Whole => Some(self.content.as_slice()),
            _ => None,
        }
    }

    /// Forgets a complete record, and does nothing where none is complete. A buffer of more than [`LARGEST_KEPT`] bytes
    /// is given back.
    pub fn next(&mut self)
        ensures after { self.new ≡ next_of self.old }
        ensures ready { is_whole self.new ≡ false }
    {
        if let Stage::Whole = self.marks.stage {
            empty(&mut self.content);
            self.marks = Marks::before_record(self.marks.limit);
        }
    }

    /// The record of one fragment that lies whole at the front of a piece, where the reader is before the first byte of
    /// a record. `None` exactly where the reader is elsewhere, or the piece begins with no such record that is within
    /// the limit.
    ///
    /// It takes no memory and copies nothing. Before the next record the reader stands as it stands now: the caller
    /// goes on behind the bytes that this one takes, and neither pushes them nor calls [`Records::next`].
    pub fn whole_in<'a>(&self, piece: &'a [u8]) -> Option<InPlace<'a>>
        ensures content { IfSome result (λ found. whole_of (after self.now piece.now) ≡ Some found.content.now) }
        ensures taken { IfSome result
            (λ found. (found.taken ≡ bytes_taken self.now piece.now) × (found.taken ≤ length piece.now)
            × (0 < found.taken)) }
        ensures stays { IfSome result (λ found. next_of (after self.now piece.now) ≡ self.now) }
        ensures within { IfSome result (λ found. length found.content.now ≤ self.now.limit) }
        ensures begins { IfSome result (λ found. BeginsSingle self.now.limit piece.now found.content.now) }
        ensures none { IfNone result
            (self.now ≡ begun self.now.limit → (content : List ℕ) → ¬ BeginsSingle self.now.limit piece.now content) }
    {
        if !self.is_begun() {
            return None;
        }
        single_in(piece, self.marks.limit)
    }

    /// Whether a record or a fragment header was begun and is not complete. After a fault it is so.
    pub fn pending(&self) -> bool
        ensures { result ≡ is_pending self.now }
    {
        self.marks.are_pending()
    }

    // Whether it is before the first byte of a record.
    fn is_begun(&self) -> bool
        ensures is { result ≡ true → self.now ≡ begun self.now.limit }
        ensures is_not { result ≡ false → ¬ (self.now ≡ begun self.now.limit) }
    {
        match self.marks.stage {
            Stage::Header { came, .. } => {
                came == 0 && self.marks.next_header_at == 0 && self.content.is_empty()
            }
            _ => false,
        }
    }

    fn is_open(&self) -> bool
        ensures { result ≡ is_open self.now }
    {
        self.marks.are_open()
    }

    // Takes the front of a piece: one byte of a header, or all that is there of a fragment.
    fn take(&mut self, piece: &[u8]) -> Result<usize, AllocError>
        requires unended { is_open self.old ≡ true }
        requires some { 0 < length piece.now }
        ensures taken { IfOk result (λ n. TakesFront self.old piece.now n self.new) }
        ensures fault { OnErr result (self.new.stage ≡ Faulty RpcFault.OutOfMemory) }
    {
        match self.marks.stage {
            Stage::Header { came, number } => {
                self.take_header_byte(came, number, piece[0]);
                Ok(1)
            }
            Stage::Fragment { left, last } => self.take_content(left, last, piece),
            _ => unreachable!(),
        }
    }

    fn take_header_byte(&mut self, came: u8, number: u32, byte: u8)
        requires stage { self.old.stage ≡ Stage.Header came number }
        requires small { (came < 4) × (number < 256 ^ came) }
        ensures { self.new ≡ after_byte self.old byte }
    {
        let len = self.content.len() as u32;
        self.marks.take_header_byte(came, number, byte, len);
    }

    // Bytes of the fragment in hand, in one copy.
    fn take_content(&mut self, left: u32, last: bool, piece: &[u8]) -> Result<usize, AllocError>
        requires stage { self.old.stage ≡ Stage.Fragment left last }
        requires some { 0 < length piece.now }
        ensures taken { IfOk result (λ n. TakesFront self.old piece.now n self.new) }
        ensures fault { OnErr result (self.new.stage ≡ Faulty RpcFault.OutOfMemory) }
    {
        let count = piece.len().min(left as usize);
        if self.content.extend_from_slice(&piece[..count]).is_err() {
            self.marks.stage = Stage::Faulty(RpcFault::OutOfMemory);
            return Err(AllocError);
        }
        self.marks.stage = stage_before(left - count as u32, last);
        Ok(count)
    }
}

// Empties a buffer, and gives it back where it is large.
pub(crate) fn empty(buffer: &mut Vec<u8>)
    ensures empty { buffer.new.items ≡ [] }
    ensures small { vec_capacity buffer.new ≤ LARGEST_KEPT }
{
    if buffer.capacity() > LARGEST_KEPT {
        *buffer = Vec::new(*buffer.allocator());
    } else {
        buffer.clear();
    }
}
