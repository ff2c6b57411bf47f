//! The records of a stream that comes in pieces, of which no more is kept than a keeper says.
ghost use Rattle.std.specs.Prelude.{◌≡◌, ◌<◌, ◌≤◌, ℕ, List, true, false, length, IfNone, IfOk, IfErr, IfSome};
ghost use Rattle.std.specs.Prelude.{OnErr, Some};
ghost use Rattle.ldm_rpc.specs.Keeping.{IsFaultIn, IsFrontIn};
ghost use Rattle.ldm_rpc.specs.Reading.{after, begun, bytes_taken, is_faulty, is_pending};
ghost use Rattle.ldm_rpc.specs.Reading.{is_whole, next_of, whole_of};
ghost use Rattle.ldm_rpc.specs.Spelling.{BeginsSingle};
ghost use Rattle.ldm_rpc.specs.Taking.{TakesFront};
ghost use Rattle.ldm_rpc.specs.Filling.{IsFilled, filled};

use crate::fault::RpcFault;
use crate::filler::Filler;
use crate::front_records::{Front, FrontRecords};
use crate::in_place::InPlace;
use crate::keeper::Keeper;
use crate::kept::LEAST_FILL;
use std::alloc::Global;
use std::marker::Model;

/// A reader of records that keeps of each no more than a [`Keeper`] says, or [`LEAST_FRONT`](crate::LEAST_FRONT) bytes
/// where that is less. Contracts see the whole content.
///
/// The keeper is asked once for each record of at least [`LEAST_FRONT`](crate::LEAST_FRONT) bytes that is pushed.
#[derive(Drop)]
pub struct KeptRecords {
    records: FrontRecords,
    // How many bytes of the record in hand are kept at most, once that is known.
    most: Option<u64>,
}

impl Model for KeptRecords {
    ghost use Rattle.ldm_rpc.specs.Reading.{Reading};

    ghost Value = { Reading };

    ghost view = { λ s. s.records };
}

impl KeptRecords {
    /// A reader before the first byte of a stream, of records whose content has at most `limit` bytes. It takes no
    /// memory.
    pub fn create(alloc: Global, limit: u32) -> KeptRecords
        ensures { result ≡ begun limit }
    {
        KeptRecords {
            records: FrontRecords::create(alloc, limit),
            most: None,
        }
    }

    /// Takes bytes of a piece up to the last byte of the record in hand, or all of them, and answers how many.
    pub fn push<K: Keeper>(&mut self, keeper: &mut K, piece: &[u8]) -> Result<usize, RpcFault>
        requires ready { is_whole self.old ≡ false }
        requires some { 0 < length piece.now }
        ensures same { keeper.new ≡ keeper.old }
        ensures after { IfOk result (λ _. (self.new ≡ after self.old piece.now) × (is_faulty self.new ≡ false)) }
        ensures taken { IfOk result (λ n. (n ≡ bytes_taken self.old piece.now) × (n ≤ length piece.now)) }
        ensures moves { IfOk result (λ n. 0 < n) }
        ensures ends { IfOk result (λ n. n < length piece.now → is_whole self.new ≡ true) }
        ensures fault { IfErr result (λ fault. IsFaultIn self.old piece.now fault) }
        ensures still { OnErr result (is_whole self.new ≡ false) }
    {
        let mut taken = 0;
        while taken < piece.len() && !self.is_whole() {
            taken += self.push_some(keeper, &piece[taken..])?;
        }
        Ok(taken)
    }

    /// How many bytes of the record in hand can be filled straight in: all but the last one that the fragment in hand
    /// still brings, of those that are kept; 0 where these are fewer than [`LEAST_FILL`], or where it is not known yet
    /// how many are kept.
    pub fn room_to_fill(&self) -> usize {
        let came = u64::from(self.records.len());
        let kept = self.most.map_or(0, |most| most.saturating_sub(came));
        let left = self.records.left().saturating_sub(1);
        let room = kept.min(u64::from(left)) as usize;
        if room < LEAST_FILL { 0 } else { room }
    }

    /// A [`Filler`] puts bytes straight into the record in hand: one call of it, for `most` bytes at most. The last byte
    /// of a fragment is left to be pushed, so the record is complete behind a push alone.
    ///
    /// `None` where there is no [room to fill](KeptRecords::room_to_fill), or no memory for it: then it was not asked,
    /// and the bytes are to be pushed.
    pub fn fill<S, F: Filler<S>>(
        &mut self,
        filler: &mut F,
        source: &mut S,
        most: usize,
    ) -> Option<usize>
        requires ready { F.can_fill source.old }
        ensures none { IfNone result ((self.new ≡ self.old) × (filler.new ≡ filler.old) × (source.new ≡ source.old)) }
        ensures filled { IfSome result (IsFilled self.old self.new most) }
        ensures gives { IfSome result
            (λ _. F.gives filler.old source.old (filled self.old self.new) filler.new source.new) }
    {
        let room = self.room_to_fill().min(most);
        if room == 0 {
            return None;
        }
        let count = self.records.fill(filler, source, room)?;
        let came = u64::from(self.records.len());
        if let Some(kept) = self.most {
            self.keep_at_most(kept, came);
        }
        Some(count)
    }

    /// What is kept of a complete record. `None` exactly where no record is complete.
    pub fn whole(&self) -> Option<Front<'_>>
        ensures { IsFrontIn result (whole_of self.now) }
    {
        self.records.whole_front()
    }

    /// The record of one fragment that lies whole at the front of a piece, where the reader is before the first byte of
    /// a record. `None` exactly where the reader is elsewhere, or the piece begins with no such record that is within
    /// the limit.
    ///
    /// It takes no memory and copies nothing. Before the next record the reader stands as it stands now: the caller
    /// goes on behind the bytes that this one takes, and neither pushes them nor calls [`KeptRecords::next`].
    pub fn whole_in<'a>(&self, piece: &'a [u8]) -> Option<InPlace<'a>>
        ensures content { IfSome result (λ found. whole_of (after self.now piece.now) ≡ Some found.content.now) }
        ensures taken { IfSome result
            (λ found. (found.taken ≡ bytes_taken self.now piece.now) × (found.taken ≤ length piece.now)
            × (0 < found.taken)) }
        ensures stays { IfSome result (λ found. next_of (after self.now piece.now) ≡ self.now) }
        ensures within { IfSome result (λ found. length found.content.now ≤ self.now.limit) }
        ensures begins { IfSome result (λ found. BeginsSingle self.now.limit piece.now found.content.now) }
        ensures none { IfNone result
            (self.now ≡ begun self.now.limit → (content : List ℕ) → ¬ BeginsSingle self.now.limit piece.now content) }
    {
        self.records.whole_in(piece)
    }

    /// Forgets a complete record, and does nothing where none is complete.
    pub fn next(&mut self)
        ensures after { self.new ≡ next_of self.old }
        ensures ready { is_whole self.new ≡ false }
    {
        if self.is_whole() {
            self.most = None;
        }
        self.records.next();
    }

    /// Whether a record or a fragment header was begun and is not complete. After a fault it is so.
    pub fn is_pending(&self) -> bool
        ensures { result ≡ is_pending self.now }
    {
        self.records.pending()
    }

    // Whether the record in hand is complete.
    fn is_whole(&self) -> bool
        ensures { result ≡ is_whole self.now }
    {
        match self.records.whole_front() {
            Some(_) => true,
            None => false,
        }
    }

    // Takes some bytes: no more than make the front whole where it is not, or than are kept.
    fn push_some<K: Keeper>(&mut self, keeper: &mut K, piece: &[u8]) -> Result<usize, RpcFault>
        requires ready { is_whole self.old ≡ false }
        requires some { 0 < length piece.now }
        ensures same { keeper.new ≡ keeper.old }
        ensures taken { IfOk result (λ n. TakesFront self.old piece.now n self.new) }
        ensures sound { IfOk result (λ _. is_faulty self.new ≡ false) }
        ensures fault { IfErr result (λ fault. IsFaultIn self.old piece.now fault) }
        ensures still { OnErr result (is_whole self.new ≡ false) }
    {
        let count = taken_at_once(self.room(), piece.len());
        let taken = self.records.push(&piece[..count])?;
        self.settle(keeper);
        Ok(taken)
    }

    // How many bytes of content more make the front whole, or are kept behind it: 0 where no more are.
    fn room(&self) -> u64 {
        match self.most {
            Some(most) => most.saturating_sub(u64::from(self.records.len())),
            None => self.records.room_to_front() as u64,
        }
    }

    // Keeps no more of the record in hand where that is known to be enough. Where more is kept, memory for it is taken
    // at once.
    fn settle<K: Keeper>(&mut self, keeper: &mut K)
        ensures same { keeper.new ≡ keeper.old }
        ensures stays { self.new ≡ self.old }
    {
        if self.records.room_to_front() > 0 {
            return;
        }
        let came = u64::from(self.records.len());
        match self.most {
            Some(most) => self.keep_at_most(most, came),
            None => {
                let most = keeper.most_kept(self.records.front());
                self.most = Some(most);
                self.records.reserve(most.saturating_sub(came));
                self.keep_at_most(most, came);
            }
        }
    }

    // Keeps no more of the record in hand, of which so many bytes came, where that is enough.
    fn keep_at_most(&mut self, most: u64, came: u64)
        ensures { self.new ≡ self.old }
    {
        if came >= most {
            self.records.keep_front();
        }
    }
}

// How many of so many bytes are taken before it is settled what is kept, where there is that much room until then.
fn taken_at_once(room: u64, len: usize) -> usize
    ensures some { 0 < len → 0 < result }
    ensures most { result ≤ len }
{
    if room == 0 {
        len
    } else {
        room.min(len as u64) as usize
    }
}
